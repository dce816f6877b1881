//! Words that are types.

ghost use Rattle.std.specs.Prelude.{◌≡◌, true, length, drop, position, IfSome};
ghost use Rattle.std.specs.List.{before_first};
ghost use Rattle.osl_valuetext.specs.Literals.{is_plain_type};
ghost use Rattle.osl_valuetext.specs.Types.{base_named, opens_length, length_at, length_or_none, type_at};

use crate::number::read_decimal;
use osl_value::{Base, Ty};

/// The most elements that an array has.
const LONGEST_ARRAY: u32 = 1024;

/// Whether a type has values: it is no closure, and no array longer than 1,024.
pub fn is_plain_type(ty: Ty) -> bool
    ensures { result ≡ is_plain_type ty }
{
    ty.len <= LONGEST_ARRAY && ty.base != Base::Closure
}

/// The base types that have values.
const BASES: [Base; 8] = [
    Base::Int,
    Base::Float,
    Base::Color,
    Base::Point,
    Base::Vector,
    Base::Normal,
    Base::Matrix,
    Base::Str,
];

/// The base type of a name.
fn base_named(name: &[u8]) -> Option<Base>
    ensures { result ≡ base_named name.now }
{
    BASES
        .iter()
        .copied()
        .find(|base| name == base.name().as_bytes())
}

fn length_place(word: &[u8]) -> Option<usize>
    ensures { result ≡ position opens_length word.now }
{
    word.iter().position(|byte| *byte == b'[')
}

/// A type's name, and its array's length after it.
fn split_length(word: &[u8]) -> (&[u8], &[u8])
    ensures name { result.0.now ≡ before_first opens_length word.now }
    ensures rest { result.1.now ≡ drop (length (before_first opens_length word.now)) word.now }
{
    match length_place(word) {
        Some(at) => word.split_at(at),
        None => (word, &[]),
    }
}

/// The array's length in brackets.
#[tactic(auto, unfolding(crate::specs::Types::length_at))]
fn length_at(text: &[u8]) -> Option<u32>
    ensures { result ≡ length_at text.now }
{
    let [b'[', inside @ .., b']'] = text else {
        return None;
    };
    match read_decimal(inside) {
        None | Some(0) => None,
        Some(len) => Some(len),
    }
}

fn length_or_none(text: &[u8]) -> Option<u32>
    ensures { result ≡ length_or_none text.now }
{
    if text.is_empty() {
        Some(0)
    } else {
        length_at(text)
    }
}

/// The type that a word writes: a base type but `closure color`, with `[n]` attached for an array, n from 1 to 1024 in its
/// canonical spelling. `None` comes where the word is none.
#[tactic(auto, unfolding(crate::specs::Types::type_at))]
pub fn read_type(word: &[u8]) -> Option<Ty>
    ensures value { result ≡ type_at word.now }
    ensures fits { IfSome result (λ ty. is_plain_type ty ≡ true) }
{
    let (name, len) = split_length(word);
    let base = base_named(name)?;
    let len = length_or_none(len)?;
    let ty = Ty { base, len };
    if is_plain_type(ty) { Some(ty) } else { None }
}
