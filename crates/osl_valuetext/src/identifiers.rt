//! Names in the texts of groups, points and edits.

ghost use Rattle.std.specs.Prelude.{◌≡◌, ◌++◌, option_map, position, OnOk};
ghost use Rattle.std.specs.List.{list_all, before_first, after_first};
ghost use Rattle.osl_valuetext.specs.Identifiers.{begins_identifier, continues_identifier, is_identifier, is_point, pair_at, pair_text};

use osl_value::Memory;

/// The most bytes of a name.
const LONGEST_IDENTIFIER: usize = 255;

fn begins_identifier(byte: u8) -> bool
    ensures { result ≡ begins_identifier byte }
{
    byte.is_ascii_alphabetic() || byte == b'_'
}

fn continues_identifier(byte: u8) -> bool
    ensures { result ≡ continues_identifier byte }
{
    byte.is_ascii_alphanumeric() || byte == b'_'
}

fn continue_identifier(bytes: &[u8]) -> bool
    ensures { result ≡ list_all continues_identifier bytes.now }
{
    bytes.iter().all(|byte| continues_identifier(*byte))
}

/// Whether it is a name: a letter or `_`, and then letters, digits and `_`, at most 255 bytes.
pub fn is_identifier(word: &[u8]) -> bool
    ensures { result ≡ is_identifier word.now }
{
    match word {
        [first, rest @ ..] => {
            begins_identifier(*first)
                && continue_identifier(rest)
                && word.len() <= LONGEST_IDENTIFIER
        }
        [] => false,
    }
}

fn point_place(word: &[u8]) -> Option<usize>
    ensures { result ≡ position is_point word.now }
{
    word.iter().position(|byte| *byte == b'.')
}

/// What is before the first point, and what is after it.
fn split_point(word: &[u8]) -> (&[u8], &[u8])
    ensures before { result.0.now ≡ before_first is_point word.now }
    ensures after { result.1.now ≡ after_first is_point word.now }
{
    match point_place(word) {
        Some(at) => (&word[..at], &word[at + 1..]),
        None => (word, &[]),
    }
}

/// The names of a layer and of its parameter, of a word `LAYER.PARAM`. `None` comes where the word is none.
#[tactic(auto, unfolding(crate::specs::Identifiers::pair_at))]
pub fn read_pair(word: &[u8]) -> Option<(&[u8], &[u8])>
    ensures { option_map (λ pair. record { layer = pair.0.now; param = pair.1.now }) result ≡ pair_at word.now }
{
    let (layer, param) = split_point(word);
    if is_identifier(layer) && is_identifier(param) {
        Some((layer, param))
    } else {
        None
    }
}

/// Appends the names of a layer and of its parameter, with a point between.
pub fn write_pair(layer: &[u8], param: &[u8], out: &mut Vec<u8>) -> Result<(), Memory>
    ensures { OnOk result (out.new.items ≡ out.old.items ++ pair_text (record { layer = layer.now; param = param.now })) }
{
    out.extend_from_slice(layer)?;
    out.push(b'.')?;
    out.extend_from_slice(param)?;
    Ok(())
}
