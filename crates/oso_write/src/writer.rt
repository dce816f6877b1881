//! The text of a shader.

ghost use Rattle.std.specs.Prelude.{◌≡◌, ◌++◌, map, OnOk, IfOk};
ghost use Rattle.std.specs.List.{All, flat_map};
ghost use Rattle.oso_write.specs.Lines.{symbol_line, op_line, section_lines};
ghost use Rattle.oso_write.specs.Canon.{line_text, canon};
ghost use Rattle.oso_write.specs.Fits.{IsDatum, HasData, IsInside};

use crate::line::{
    write_end, write_header, write_op, write_section_head, write_shader, write_symbol,
};
use osl_value::Memory;
use oso_code::{Op, Raw, Section, Shader, Symbol};
use std::alloc::Global;

/// Appends the lines of symbols.
fn write_symbols(symbols: &[Symbol], out: &mut Vec<u8>) -> Result<(), Memory>
    requires { All HasData symbols.now }
    ensures { OnOk result (out.new.items ≡ out.old.items
        ++ flat_map line_text (map symbol_line symbols.now)) }
{
    for symbol in symbols {
        write_symbol(symbol, out)?;
    }
    Ok(())
}

/// Appends the lines of ops.
fn write_ops(symbols: &[Symbol], ops: &[Op], out: &mut Vec<u8>) -> Result<(), Memory>
    ensures { OnOk result (out.new.items ≡ out.old.items
        ++ flat_map line_text (map (op_line symbols.now) ops.now)) }
{
    for op in ops {
        write_op(symbols, op, out)?;
    }
    Ok(())
}

/// Appends the lines of a section.
fn write_section(raw: &Raw, section: &Section, out: &mut Vec<u8>) -> Result<(), Memory>
    requires { IsInside raw.now.ops section.now }
    ensures { OnOk result (out.new.items ≡ out.old.items
        ++ flat_map line_text (section_lines raw.now section.now)) }
{
    let symbols = raw.symbols.as_slice();
    write_section_head(symbols, section.param, out)?;
    let ops = raw.ops.as_slice();
    write_ops(
        symbols,
        &ops[section.start as usize..section.end as usize],
        out,
    )
}

/// Appends the lines of all sections.
fn write_sections(raw: &Raw, out: &mut Vec<u8>) -> Result<(), Memory>
    requires { All (IsInside raw.now.ops) raw.now.sections }
    ensures { OnOk result (out.new.items ≡ out.old.items
        ++ flat_map line_text (flat_map (section_lines raw.now) raw.now.sections)) }
{
    for section in raw.sections.as_slice() {
        write_section(raw, section, out)?;
    }
    Ok(())
}

/// Appends the text of code.
fn write_raw(raw: &Raw, out: &mut Vec<u8>) -> Result<(), Memory>
    requires metas { All IsDatum raw.now.metas }
    requires symbols { All HasData raw.now.symbols }
    requires sections { All (IsInside raw.now.ops) raw.now.sections }
    ensures { OnOk result (out.new.items ≡ out.old.items ++ canon raw.now) }
{
    write_header(out)?;
    write_shader(raw, out)?;
    write_symbols(raw.symbols.as_slice(), out)?;
    write_sections(raw, out)?;
    write_end(out)
}

/// The one canonical text of a shader.
pub fn write(alloc: Global, shader: &Shader) -> Result<Vec<u8>, Memory>
    ensures { IfOk result (λ text. text.items ≡ canon shader.now) }
{
    let mut out = Vec::new(alloc);
    write_raw(shader.raw(), &mut out)?;
    Ok(out)
}
