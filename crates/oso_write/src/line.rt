//! Lines, appended to a text.

ghost use Rattle.std.specs.Prelude.{codes, ◌≡◌, ◌∷◌, ◌++◌, [], map, OnOk};
ghost use Rattle.std.specs.Fmt.{decimal};
ghost use Rattle.std.specs.List.{All, flat_map};
ghost use Rattle.osl_valuetext.specs.Words.{string_text, behind};
ghost use Rattle.oso_write.specs.Lines.{meta_text, header, shader_line, symbol_line, start_words, name_at, op_line, section_name};
ghost use Rattle.oso_write.specs.Canon.{line_text};
ghost use Rattle.oso_write.specs.Fits.{IsDatum, HasData};

use crate::names::{class_name, kind_name};
use osl_value::{Memory, Value};
use osl_valuetext::{write_decimal, write_numbers, write_string, write_type, write_value};
use oso_code::{ListOf, Meta, Op, Raw, Symbol};

/// Appends a word after a space.
fn write_spaced(word: &[u8], out: &mut Vec<u8>) -> Result<(), Memory>
    ensures { OnOk result (out.new.items ≡ out.old.items ++ 32 ∷ word.now) }
{
    out.push(b' ')?;
    out.extend_from_slice(word)?;
    Ok(())
}

/// Appends the strings of a datum, each after a comma.
fn write_data_texts(texts: &[ListOf<u8>], out: &mut Vec<u8>) -> Result<(), Memory>
    ensures { OnOk result (out.new.items ≡ out.old.items ++ behind 44 (map string_text texts.now)) }
{
    for text in texts {
        out.push(b',')?;
        write_string(text.as_slice(), out)?;
    }
    Ok(())
}

/// Appends a datum of metadata.
fn write_meta(meta: &Meta, out: &mut Vec<u8>) -> Result<(), Memory>
    requires { IsDatum meta.now }
    ensures { OnOk result (out.new.items ≡ out.old.items ++ meta_text meta.now) }
{
    out.extend_from_slice(b"%meta{")?;
    write_type(meta.ty, out)?;
    out.push(b',')?;
    out.extend_from_slice(meta.name.bytes())?;
    write_numbers(b',', meta.ty.base, meta.nums.as_slice(), out)?;
    write_data_texts(meta.texts.as_slice(), out)?;
    out.push(b'}')?;
    Ok(())
}

/// Appends metadata, each datum after a space.
fn write_metas(metas: &[Meta], out: &mut Vec<u8>) -> Result<(), Memory>
    requires { All IsDatum metas.now }
    ensures { OnOk result (out.new.items ≡ out.old.items ++ behind 32 (map meta_text metas.now)) }
{
    for meta in metas {
        out.push(b' ')?;
        write_meta(meta, out)?;
    }
    Ok(())
}

/// Appends the header.
pub(crate) fn write_header(out: &mut Vec<u8>) -> Result<(), Memory>
    ensures { OnOk result (out.new.items ≡ out.old.items ++ line_text header) }
{
    out.extend_from_slice(b"OpenShadingLanguage 1.00\n")?;
    Ok(())
}

/// Appends the line of the shader's kind and name.
pub(crate) fn write_shader(raw: &Raw, out: &mut Vec<u8>) -> Result<(), Memory>
    requires { All IsDatum raw.now.metas }
    ensures { OnOk result (out.new.items ≡ out.old.items ++ line_text (shader_line raw.now)) }
{
    out.extend_from_slice(kind_name(raw.kind))?;
    write_spaced(raw.name.bytes(), out)?;
    write_metas(raw.metas.as_slice(), out)?;
    out.push(b'\n')?;
    Ok(())
}

/// Appends what a symbol starts at, if it has a value.
fn write_start(start: &Option<Value>, out: &mut Vec<u8>) -> Result<(), Memory>
    ensures { OnOk result (out.new.items ≡ out.old.items ++ behind 32 (start_words start.now)) }
{
    match start {
        None => Ok(()),
        Some(value) => write_value(value, out),
    }
}

/// Appends the line of a symbol.
pub(crate) fn write_symbol(symbol: &Symbol, out: &mut Vec<u8>) -> Result<(), Memory>
    requires { HasData symbol.now }
    ensures { OnOk result (out.new.items ≡ out.old.items ++ line_text (symbol_line symbol.now)) }
{
    out.extend_from_slice(class_name(symbol.class))?;
    out.push(b' ')?;
    write_type(symbol.ty, out)?;
    write_spaced(symbol.name.bytes(), out)?;
    write_start(&symbol.value, out)?;
    write_metas(symbol.metas.as_slice(), out)?;
    out.push(b'\n')?;
    Ok(())
}

/// The name of the symbol of a number.
fn name_at(symbols: &[Symbol], number: u32) -> &[u8]
    ensures { result.now ≡ name_at symbols.now number }
{
    match symbols.get(number as usize) {
        Some(symbol) => symbol.name.bytes(),
        None => &[],
    }
}

/// Appends the names of symbols, each after a space.
fn write_args(symbols: &[Symbol], args: &[u32], out: &mut Vec<u8>) -> Result<(), Memory>
    ensures { OnOk result (out.new.items ≡ out.old.items
        ++ behind 32 (map (name_at symbols.now) args.now)) }
{
    for arg in args {
        write_spaced(name_at(symbols, *arg), out)?;
    }
    Ok(())
}

/// Appends ops' numbers, each after a space.
fn write_jumps(jumps: &[u32], out: &mut Vec<u8>) -> Result<(), Memory>
    ensures { OnOk result (out.new.items ≡ out.old.items ++ behind 32 (map decimal jumps.now)) }
{
    for jump in jumps {
        out.push(b' ')?;
        write_decimal(*jump, out)?;
    }
    Ok(())
}

/// Appends the line of an op.
pub(crate) fn write_op(symbols: &[Symbol], op: &Op, out: &mut Vec<u8>) -> Result<(), Memory>
    ensures { OnOk result (out.new.items ≡ out.old.items ++ line_text (op_line symbols.now op.now)) }
{
    out.extend_from_slice(op.name.name().as_bytes())?;
    write_args(symbols, op.args.as_slice(), out)?;
    write_jumps(op.jumps.as_slice(), out)?;
    out.push(b'\n')?;
    Ok(())
}

/// Appends the line at which a section begins: that of a parameter, or that of the body.
pub(crate) fn write_section_head(
    symbols: &[Symbol],
    param: Option<u32>,
    out: &mut Vec<u8>,
) -> Result<(), Memory>
    ensures { OnOk result (out.new.items ≡ out.old.items
        ++ line_text (codes "code" ∷ section_name symbols.now param ∷ [])) }
{
    let name = match param {
        None => b"___main___".as_slice(),
        Some(number) => name_at(symbols, number),
    };
    out.extend_from_slice(b"code")?;
    write_spaced(name, out)?;
    out.push(b'\n')?;
    Ok(())
}

/// Appends the line that ends the code.
pub(crate) fn write_end(out: &mut Vec<u8>) -> Result<(), Memory>
    ensures { OnOk result (out.new.items ≡ out.old.items ++ line_text (codes "end" ∷ [])) }
{
    out.extend_from_slice(b"end\n")?;
    Ok(())
}
