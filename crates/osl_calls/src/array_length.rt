//! `arraylength`, which takes an array of any type and length: for each it is a function of its own.

ghost use Rattle.std.specs.Prelude.{◌≡◌, codes, bytes_eq};
ghost use Rattle.osl_value.specs.AnyValue as values;
ghost use Rattle.osl_typed.specs.Operators.{is_type};
ghost use Rattle.osl_calls.specs.Calling.{own_kind};

use osl_overload::Kind;
use osl_typed::types;

fn is_array_length(word: &[u8]) -> bool
    ensures { result ≡ bytes_eq word.now (codes "arraylength") }
{
    word == b"arraylength".as_slice()
}

/// Whether a kind is an array. No structure is one.
fn is_array(kind: Kind) -> bool
    ensures { result ≡ is_type values.is_array kind }
{
    match kind {
        Kind::Value(ty) => types::is_array(ty),
        Kind::Structure(_) | Kind::Void => false,
    }
}

/// The kind of the array that `arraylength` is called with, where the word means it, and the one argument is of this kind.
pub(crate) fn own_kind(word: &[u8], sole: Option<Kind>) -> Option<Kind>
    ensures { result ≡ own_kind word.now sole }
{
    let kind = sole?;
    if is_array_length(word) && is_array(kind) {
        Some(kind)
    } else {
        None
    }
}
