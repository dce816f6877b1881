ghost use Rattle.std.specs.Prelude.{◌≡◌, ◌≤◌, IfSome};
ghost use Rattle.osl_lex.specs.Signs.{one_byte_mark, mark_with_equals, doubled_mark, two_byte_mark, three_byte_mark, longest_mark};

use crate::bytes::byte_at;
use osl_tree::Punct;

/// The mark of one byte.
fn one_byte_mark(byte: u8) -> Option<Punct>
    ensures { result ≡ one_byte_mark byte }
{
    Some(match byte {
        b'(' => Punct::OpenParen,
        b')' => Punct::CloseParen,
        b'{' => Punct::OpenBrace,
        b'}' => Punct::CloseBrace,
        b'[' => Punct::OpenBracket,
        b']' => Punct::CloseBracket,
        b',' => Punct::Comma,
        b';' => Punct::Semicolon,
        b'.' => Punct::Dot,
        b'?' => Punct::Question,
        b':' => Punct::Colon,
        b'=' => Punct::Assign,
        b'<' => Punct::Less,
        b'>' => Punct::Greater,
        b'+' => Punct::Plus,
        b'-' => Punct::Minus,
        b'*' => Punct::Star,
        b'/' => Punct::Slash,
        b'%' => Punct::Percent,
        b'&' => Punct::And,
        b'|' => Punct::Or,
        b'^' => Punct::Xor,
        b'~' => Punct::Tilde,
        b'!' => Punct::Bang,
        _ => return None,
    })
}

/// The mark of a byte and a `=`.
fn mark_with_equals(byte: u8) -> Option<Punct>
    ensures { result ≡ mark_with_equals byte }
{
    Some(match byte {
        b'=' => Punct::Equal,
        b'!' => Punct::NotEqual,
        b'<' => Punct::LessEqual,
        b'>' => Punct::GreaterEqual,
        b'+' => Punct::PlusAssign,
        b'-' => Punct::MinusAssign,
        b'*' => Punct::StarAssign,
        b'/' => Punct::SlashAssign,
        b'&' => Punct::AndAssign,
        b'|' => Punct::OrAssign,
        b'^' => Punct::XorAssign,
        _ => return None,
    })
}

/// The mark of a byte twice.
fn doubled_mark(byte: u8) -> Option<Punct>
    ensures { result ≡ doubled_mark byte }
{
    Some(match byte {
        b'[' => Punct::OpenMeta,
        b'<' => Punct::ShiftLeft,
        b'>' => Punct::ShiftRight,
        b'+' => Punct::Increment,
        b'-' => Punct::Decrement,
        b'&' => Punct::AndAnd,
        b'|' => Punct::OrOr,
        _ => return None,
    })
}

/// The mark of two bytes.
fn two_byte_mark(first: u8, second: u8) -> Option<Punct>
    ensures { result ≡ two_byte_mark first second }
{
    if second == b'=' {
        mark_with_equals(first)
    } else if first == second {
        doubled_mark(first)
    } else {
        None
    }
}

/// The mark of three bytes.
fn three_byte_mark(first: u8, second: u8, third: u8) -> Option<Punct>
    ensures { result ≡ three_byte_mark first second third }
{
    if first != second || third != b'=' {
        return None;
    }
    match first {
        b'<' => Some(Punct::ShiftLeftAssign),
        b'>' => Some(Punct::ShiftRightAssign),
        _ => None,
    }
}

/// The longest mark at the front, with its length.
pub(crate) fn longest_mark(bytes: &[u8]) -> Option<(Punct, usize)>
    ensures value { result ≡ longest_mark bytes.now }
    ensures short { IfSome result (λ found. found.1 ≤ 3) }
{
    let first = byte_at(bytes, 0);
    let second = byte_at(bytes, 1);
    let third = byte_at(bytes, 2);
    if let Some(mark) = three_byte_mark(first, second, third) {
        Some((mark, 3))
    } else if let Some(mark) = two_byte_mark(first, second) {
        Some((mark, 2))
    } else {
        one_byte_mark(first).map(|mark| (mark, 1))
    }
}
