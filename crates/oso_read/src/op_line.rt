//! The lines of ops, and those at which a section begins and at which the code ends.

ghost use Rattle.std.specs.Prelude.{codes, ◌≡◌, ◌≤◌, length, option_map};
ghost use Rattle.std.specs.List.{prefix_len};
ghost use Rattle.oso_code.specs.Names.{is_name};
ghost use Rattle.oso_read.specs.Text.{only_word};
ghost use Rattle.oso_read.specs.OpLine.{op_words, op_at, code_words, code_at, is_end, is_code_line, is_end_line};
ghost use Rattle.oso_read.specs.Said.{seen, op_words_of};
ghost use Rattle.osl_valuetext.specs.Scan.{spoken};
ghost use Rattle.osl_valuetext.specs.Unread.{Tells};

use crate::hints::{Said, lacks_metadata};
use crate::jumps::decimals_at;
use osl_valuetext::Unread;
use oso_code::name::is_name;
use std::alloc::Global;

/// An operation's name, the names of its arguments, and its jumps.
#[derive(Debug, Drop)]
pub(crate) struct OpLine<'w, 'a> {
    pub(crate) name: &'a [u8],
    pub(crate) args: &'w [&'a [u8]],
    pub(crate) jumps: Vec<u32>,
}

/// How many names stand at the front.
fn name_count(words: &[&[u8]]) -> usize
    ensures count { result ≡ prefix_len is_name (spoken words.now) }
    ensures within { result ≤ length words.now }
{
    for (at, word) in words.iter().enumerate() {
        if !is_name(word) {
            return at;
        }
    }
    words.len()
}

/// A name, names and jumps.
#[tactic(auto, unfolding(crate::specs::OpLine::op_words))]
fn op_words<'w, 'a>(alloc: Global, words: &'w [&'a [u8]]) -> Result<OpLine<'w, 'a>, Unread>
    ensures { Tells op_words_of result (op_words (spoken words.now)) }
{
    let [name, words @ ..] = words else {
        return Err(Unread::Misspelled);
    };
    if !is_name(name) {
        return Err(Unread::Misspelled);
    }
    let (args, jumps) = words.split_at(name_count(words));
    match decimals_at(alloc, jumps) {
        Ok(jumps) => Ok(OpLine { name, args, jumps }),
        Err(unread) => Err(unread),
    }
}

/// What an op's line says.
#[tactic(auto, unfolding(crate::specs::OpLine::op_at))]
pub(crate) fn op_at<'w, 'a>(alloc: Global, said: Said<'w, 'a>) -> Result<OpLine<'w, 'a>, Unread>
    ensures { Tells op_words_of result (op_at (seen said.entry)) }
{
    if !lacks_metadata(said) {
        return Err(Unread::Misspelled);
    }
    op_words(alloc, said.words)
}

/// The one word that there is.
pub(crate) fn only_word<'a>(words: &[&'a [u8]]) -> Option<&'a [u8]>
    ensures { option_map (λ word. word.now) result ≡ only_word (spoken words.now) }
{
    let [first, rest @ ..] = words else {
        return None;
    };
    if rest.is_empty() { Some(*first) } else { None }
}

fn code_words<'a>(words: &[&'a [u8]]) -> Option<&'a [u8]>
    ensures { option_map (λ name. name.now) result ≡ code_words (spoken words.now) }
{
    let [_code, rest @ ..] = words else {
        return None;
    };
    let name = only_word(rest)?;
    if is_name(name) { Some(name) } else { None }
}

/// The name after `code`.
#[tactic(auto, unfolding(crate::specs::OpLine::code_at))]
pub(crate) fn code_at<'a>(said: Said<'_, 'a>) -> Option<&'a [u8]>
    ensures { option_map (λ name. name.now) result ≡ code_at (seen said.entry) }
{
    if !lacks_metadata(said) {
        return None;
    }
    code_words(said.words)
}

/// Whether nothing stands after `end`.
#[tactic(auto, unfolding(crate::specs::OpLine::is_end))]
pub(crate) fn is_end(said: Said) -> bool
    ensures { result ≡ is_end (seen said.entry) }
{
    lacks_metadata(said) && said.words.len() == 1
}

pub(crate) fn is_code_line(line: &[&[u8]]) -> bool
    ensures { result ≡ is_code_line (spoken line.now) }
{
    let [first, _rest @ ..] = line else {
        return false;
    };
    *first == b"code".as_slice()
}

pub(crate) fn is_end_line(line: &[&[u8]]) -> bool
    ensures { result ≡ is_end_line (spoken line.now) }
{
    let [first, _rest @ ..] = line else {
        return false;
    };
    *first == b"end".as_slice()
}
