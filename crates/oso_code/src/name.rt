//! Names in code.

ghost use Rattle.std.specs.Prelude.{◌≡◌};
ghost use Rattle.std.specs.List.{list_all};
ghost use Rattle.std.specs.Str.{bytes_eq};
ghost use Rattle.oso_code.specs.Names.{is_joiner, begins_name, continues_name, is_name, main_name};

/// The most bytes of a name.
pub const LONGEST_NAME: usize = 255;

/// The name of the section of a shader's body. No parameter has it.
pub const MAIN_NAME: &[u8] = b"___main___";

/// Whether it is a name: a letter, `_` or `$`, and then letters, digits, `_`, `$` and points, at most 255 bytes.
pub fn is_name(name: &[u8]) -> bool
    ensures { result ≡ is_name name.now }
{
    match name {
        [first, rest @ ..] => {
            begins_name(*first) && continue_name(rest) && name.len() <= LONGEST_NAME
        }
        [] => false,
    }
}

/// Whether it is the name of the section of the body.
pub fn is_main_name(name: &[u8]) -> bool
    ensures { result ≡ bytes_eq name.now main_name }
{
    name == MAIN_NAME
}

fn is_joiner(byte: u8) -> bool
    ensures { result ≡ is_joiner byte }
{
    byte == b'_' || byte == b'$'
}

fn begins_name(byte: u8) -> bool
    ensures { result ≡ begins_name byte }
{
    byte.is_ascii_alphabetic() || is_joiner(byte)
}

/// Whether the byte may come in a name after its first: a letter, a digit, `_`, `$` or a point.
pub fn continues_name(byte: u8) -> bool
    ensures { result ≡ continues_name byte }
{
    byte.is_ascii_alphanumeric() || is_joiner(byte) || byte == b'.'
}

fn continue_name(bytes: &[u8]) -> bool
    ensures { result ≡ list_all continues_name bytes.now }
{
    bytes.iter().all(|byte| continues_name(*byte))
}
