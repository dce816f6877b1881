//! Words, appended to a text.

ghost use Rattle.std.specs.Prelude.{◌≡◌, ◌∷◌, ◌++◌, [], map, OnOk};
ghost use Rattle.std.specs.Fmt.{decimal};
ghost use Rattle.std.specs.List.{flat_map, All};
ghost use Rattle.osl_value.specs.Plain.{IsNumberOf};
ghost use Rattle.osl_valuetext.specs.Words.{len_text, type_text, octal, escape, string_text, number_text, value_words, behind};

use itoa::Buffer;
use osl_decimal::{write_fx, write_int};
use osl_value::{Base, Fx, Memory, Text, Ty, Value};

/// Appends a number without a sign, in its canonical text.
pub fn write_decimal(n: u32, out: &mut Vec<u8>) -> Result<(), Memory>
    ensures { OnOk result (out.new.items ≡ out.old.items ++ decimal n) }
{
    out.extend_from_slice(Buffer::new().format(n).as_bytes())?;
    Ok(())
}

/// Appends an array's length in brackets, if there is one.
fn write_len(len: u32, out: &mut Vec<u8>) -> Result<(), Memory>
    ensures { OnOk result (out.new.items ≡ out.old.items ++ len_text len) }
{
    if len == 0 {
        return Ok(());
    }
    out.push(b'[')?;
    write_decimal(len, out)?;
    out.push(b']')?;
    Ok(())
}

/// Appends the canonical text of a type. The words of `closure color` have one space between them.
pub fn write_type(ty: Ty, out: &mut Vec<u8>) -> Result<(), Memory>
    ensures { OnOk result (out.new.items ≡ out.old.items ++ type_text ty) }
{
    out.extend_from_slice(ty.base.name().as_bytes())?;
    write_len(ty.len, out)
}

/// Appends a byte as it is written in a string.
fn write_escaped(byte: u8, out: &mut Vec<u8>) -> Result<(), Memory>
    ensures { OnOk result (out.new.items ≡ out.old.items ++ escape byte) }
{
    match byte {
        b'"' | b'\\' => out.extend_from_slice(&[b'\\', byte])?,
        b'\n' => out.extend_from_slice(b"\\n")?,
        b'\t' => out.extend_from_slice(b"\\t")?,
        b'\r' => out.extend_from_slice(b"\\r")?,
        b' '..=b'~' => out.push(byte)?,
        _ => out.extend_from_slice(&[
            b'\\',
            b'0' + byte / 64,
            b'0' + byte / 8 % 8,
            b'0' + byte % 8,
        ])?,
    }
    Ok(())
}

/// Appends a string in quotes: `"` and `\` after `\`; line feed, tab and carriage return as `\n`, `\t` and `\r`; other bytes
/// below 32 or above 126 as `\` and three octal digits.
pub fn write_string(bytes: &[u8], out: &mut Vec<u8>) -> Result<(), Memory>
    ensures { OnOk result (out.new.items ≡ out.old.items ++ string_text bytes.now) }
{
    out.push(b'"')?;
    for byte in bytes {
        write_escaped(*byte, out)?;
    }
    out.push(b'"')?;
    Ok(())
}

/// Appends the canonical text of a number of a type: an int, or a float by its units.
pub fn write_number(base: Base, n: i64, out: &mut Vec<u8>) -> Result<(), Memory>
    requires { IsNumberOf base n }
    ensures { OnOk result (out.new.items ≡ out.old.items ++ number_text base n) }
{
    if base == Base::Int {
        write_int(n as i32, out)
    } else {
        write_fx(Fx::from_units(n), out)
    }
}

/// Appends numbers of a type, each after a mark.
pub fn write_numbers(mark: u8, base: Base, nums: &[i64], out: &mut Vec<u8>) -> Result<(), Memory>
    requires { All (IsNumberOf base) nums.now }
    ensures { OnOk result (out.new.items ≡ out.old.items ++ behind mark (map (number_text base) nums.now)) }
{
    for n in nums {
        out.push(mark)?;
        write_number(base, *n, out)?;
    }
    Ok(())
}

/// Appends the strings of a value, each after a space.
fn write_texts(texts: &[Text], out: &mut Vec<u8>) -> Result<(), Memory>
    ensures { OnOk result (out.new.items ≡ out.old.items ++ behind 32 (map string_text texts.now)) }
{
    for text in texts {
        out.push(b' ')?;
        write_string(text.bytes(), out)?;
    }
    Ok(())
}

/// Appends the canonical words of a value, its numbers or its strings, each after a space.
pub fn write_value(value: &Value, out: &mut Vec<u8>) -> Result<(), Memory>
    ensures { OnOk result (out.new.items ≡ out.old.items
        ++ behind 32 (value_words value.now.ty.base value.now.nums value.now.texts)) }
{
    let ty = value.ty();
    write_numbers(b' ', ty.base, value.nums(), out)?;
    write_texts(value.texts(), out)
}
