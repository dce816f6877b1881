//! The statement of words.

ghost use Rattle.std.specs.Prelude.{◌≡◌, true, false, option_map, take, drop, IfOk};
ghost use Rattle.std.specs.Cmp.Lexicographic.{pointwise};
ghost use Rattle.std.specs.Str.{bytes_eq};
ghost use Rattle.osl_valuetext.specs.Scan.{spoken};
ghost use Rattle.osl_valuetext.specs.Unread.{Tells};
ghost use Rattle.osl_valuetext.specs.Identifiers.{is_identifier, pair_at};
ghost use Rattle.osl_grouptext.specs.Seen.{pair_seen};
ghost use Rattle.osl_grouptext.specs.Statements.{lock_words, connection, only_word, name_at, lock_at, word_count, valued_at, param_at, shader_at, connect_at, output_at, statement_at};

use osl_network::Statement;
use osl_value::{Base, Memory, Text, Ty};
use osl_valuetext::{Spelling, Unread, is_identifier, read_pair, read_type, read_value};
use std::alloc::Global;

/// The one word that there is.
fn only_word<'a>(words: &[&'a [u8]]) -> Option<&'a [u8]>
    ensures { option_map (λ word. word.now) result ≡ only_word (spoken words.now) }
{
    match words {
        [] => None,
        [word, rest @ ..] => { if rest.is_empty() { Some(*word) } else { None } }
    }
}

/// A text of the bytes of a name.
fn text_of(alloc: Global, name: &[u8]) -> Result<Text, Memory>
    requires { is_identifier name.now ≡ true }
    ensures { IfOk result (λ text. text ≡ name.now) }
{
    let mut bytes = Vec::new(alloc);
    bytes.extend_from_slice(name)?;
    match Text::new(bytes) {
        Some(text) => Ok(text),
        None => unreachable!(),
    }
}

/// A name, as a text of its own.
fn name_text(alloc: Global, name: &[u8]) -> Result<Text, Unread>
    ensures { Tells (λ text. text) result (name_at name.now) }
{
    if !is_identifier(name) {
        return Err(Unread::Misspelled);
    }
    Ok(text_of(alloc, name)?)
}

/// The words by which a parameter is not locked, and those by which it is.
const UNLOCKED: [&[u8]; 6] = [b"[[", b"int", b"lockgeom", b"=", b"0", b"]]"];

const LOCKED: [&[u8]; 6] = [b"[[", b"int", b"lockgeom", b"=", b"1", b"]]"];

fn unlocks(words: &[&[u8]]) -> bool
    ensures { result ≡ pointwise bytes_eq (spoken words.now) (lock_words false) }
{
    words == UNLOCKED.as_slice()
}

fn locks(words: &[&[u8]]) -> bool
    ensures { result ≡ pointwise bytes_eq (spoken words.now) (lock_words true) }
{
    words == LOCKED.as_slice()
}

/// Whether the words after a parameter's values say that it is locked.
fn lock_at(words: &[&[u8]]) -> Option<Option<bool>>
    ensures { result ≡ lock_at (spoken words.now) }
{
    if words.is_empty() {
        Some(None)
    } else if unlocks(words) {
        Some(Some(false))
    } else if locks(words) {
        Some(Some(true))
    } else {
        None
    }
}

/// How many words a value has.
fn word_count(ty: Ty) -> usize
    ensures { result ≡ word_count ty }
{
    if ty.base == Base::Str {
        ty.text_count()
    } else {
        ty.number_count()
    }
}

/// The words up to a count.
fn front_words<'w, 'a>(words: &'w [&'a [u8]], count: usize) -> &'w [&'a [u8]]
    ensures { spoken result.now ≡ take count (spoken words.now) }
{
    if count < words.len() {
        &words[..count]
    } else {
        words
    }
}

/// The words after a count of them.
fn later_words<'w, 'a>(words: &'w [&'a [u8]], count: usize) -> &'w [&'a [u8]]
    ensures { spoken result.now ≡ drop count (spoken words.now) }
{
    if count < words.len() {
        &words[count..]
    } else {
        &words[words.len()..]
    }
}

/// The values of a parameter, and whether it is locked.
#[tactic(auto, unfolding(crate::specs::Statements::valued_at))]
fn valued_at(alloc: Global, name: Text, ty: Ty, words: &[&[u8]]) -> Result<Statement, Unread>
    ensures { Tells (λ statement. statement) result (valued_at name ty (spoken words.now)) }
{
    let count = word_count(ty);
    let value = read_value(alloc, Spelling::Free, ty, front_words(words, count))?;
    match lock_at(later_words(words, count)) {
        None => Err(Unread::Misspelled),
        Some(lockgeom) => Ok(Statement::Param {
            name,
            value,
            lockgeom,
        }),
    }
}

/// `TYPE NAME VALUES`, and whether the parameter is locked.
#[tactic(auto, unfolding(crate::specs::Statements::param_at))]
fn param_at(alloc: Global, words: &[&[u8]]) -> Result<Statement, Unread>
    ensures { Tells (λ statement. statement) result (param_at (spoken words.now)) }
{
    let [ty, name, rest @ ..] = words else {
        return Err(Unread::Misspelled);
    };
    match read_type(ty) {
        None => Err(Unread::Misspelled),
        Some(ty) => {
            let name = name_text(alloc, name)?;
            valued_at(alloc, name, ty, rest)
        }
    }
}

/// `SHADER LAYER`.
#[tactic(auto, unfolding(crate::specs::Statements::shader_at))]
fn shader_at(alloc: Global, words: &[&[u8]]) -> Result<Statement, Unread>
    ensures { Tells (λ statement. statement) result (shader_at (spoken words.now)) }
{
    let [shader, rest @ ..] = words else {
        return Err(Unread::Misspelled);
    };
    let shader = name_text(alloc, shader)?;
    match only_word(rest) {
        None => Err(Unread::Misspelled),
        Some(layer) => {
            let layer = name_text(alloc, layer)?;
            Ok(Statement::Shader { shader, layer })
        }
    }
}

/// The names of a layer and of its parameter.
#[derive(Debug, Drop)]
struct PairTexts {
    layer: Text,
    param: Text,
}

/// The names of `LAYER.PARAM`.
fn pair_texts(alloc: Global, word: &[u8]) -> Result<PairTexts, Unread>
    ensures { Tells pair_seen result (pair_at word.now) }
{
    match read_pair(word) {
        None => Err(Unread::Misspelled),
        Some((layer, param)) => {
            let layer = text_of(alloc, layer)?;
            let param = text_of(alloc, param)?;
            Ok(PairTexts { layer, param })
        }
    }
}

/// A statement that connects two parameters.
fn connection(src: PairTexts, dst: PairTexts) -> Statement
    ensures { result ≡ connection (pair_seen src) (pair_seen dst) }
{
    Statement::Connect {
        src_layer: src.layer,
        src_param: src.param,
        dst_layer: dst.layer,
        dst_param: dst.param,
    }
}

/// `LAYER.PARAM LAYER.PARAM`.
#[tactic(auto, unfolding(crate::specs::Statements::connect_at))]
fn connect_at(alloc: Global, words: &[&[u8]]) -> Result<Statement, Unread>
    ensures { Tells (λ statement. statement) result (connect_at (spoken words.now)) }
{
    let [src, rest @ ..] = words else {
        return Err(Unread::Misspelled);
    };
    let src = pair_texts(alloc, src)?;
    match only_word(rest) {
        None => Err(Unread::Misspelled),
        Some(dst) => {
            let dst = pair_texts(alloc, dst)?;
            Ok(connection(src, dst))
        }
    }
}

/// `LAYER.PARAM`.
#[tactic(auto, unfolding(crate::specs::Statements::output_at))]
fn output_at(alloc: Global, words: &[&[u8]]) -> Result<Statement, Unread>
    ensures { Tells (λ statement. statement) result (output_at (spoken words.now)) }
{
    match only_word(words) {
        None => Err(Unread::Misspelled),
        Some(word) => {
            let pair = pair_texts(alloc, word)?;
            Ok(Statement::Output {
                layer: pair.layer,
                param: pair.param,
            })
        }
    }
}

/// The statement of words, which its `;` follows. `Misspelled` comes where they are none.
#[tactic(auto, unfolding(crate::specs::Statements::statement_at))]
pub(crate) fn read_statement(alloc: Global, words: &[&[u8]]) -> Result<Statement, Unread>
    ensures { Tells (λ statement. statement) result (statement_at (spoken words.now)) }
{
    let [kind, rest @ ..] = words else {
        return Err(Unread::Misspelled);
    };
    if *kind == b"param".as_slice() {
        param_at(alloc, rest)
    } else if *kind == b"shader".as_slice() {
        shader_at(alloc, rest)
    } else if *kind == b"connect".as_slice() {
        connect_at(alloc, rest)
    } else if *kind == b"output".as_slice() {
        output_at(alloc, rest)
    } else {
        Err(Unread::Misspelled)
    }
}
