//! A group's text, read.

ghost use Rattle.std.specs.Prelude.{◌≡◌, ◌+◌, ◌-◌, ◌<◌, ◌^◌, length, position, Ok, IfOk, IfErr};
ghost use Rattle.std.specs.List.{slice_split};
ghost use Rattle.osl_valuetext.specs.Scan.{spoken};
ghost use Rattle.osl_grouptext.specs.Pieces.{words};
ghost use Rattle.osl_grouptext.specs.Reading.{is_semicolon, reads, reading, Fails};

use crate::error::GroupTextError;
use crate::pieces::words;
use crate::statement::read_statement;
use crate::text::GroupText;
use osl_network::Statement;
use osl_valuetext::Unread;
use std::alloc::Global;

/// Where the statement at the front ends.
fn semicolon(words: &[&[u8]]) -> Option<usize>
    ensures { result ≡ position is_semicolon (spoken words.now) }
{
    for (at, word) in words.iter().enumerate() {
        if *word == b";".as_slice() {
            return Some(at);
        }
    }
    None
}

/// The statements of words.
fn read_statements(alloc: Global, words: &[&[u8]]) -> Result<Vec<Statement>, GroupTextError>
    requires { length words.now < 2 ^ 32 - 1 }
    ensures ok { IfOk result (λ statements. reads 1 (slice_split is_semicolon (spoken words.now)) ≡ Ok statements.items) }
    ensures err { IfErr result (λ e. Fails e (reads 1 (slice_split is_semicolon (spoken words.now)))) }
{
    let mut statements = Vec::new(alloc);
    let mut number: u32 = 1;
    let mut rest = words;
    while let Some(at) = semicolon(rest) {
        let statement = match read_statement(alloc, &rest[..at]) {
            Ok(statement) => statement,
            Err(Unread::Memory) => return Err(GroupTextError::Memory),
            Err(Unread::Misspelled) => return Err(GroupTextError::Syntax { statement: number }),
        };
        statements.push(statement)?;
        rest = &rest[at + 1..];
        number += 1;
    }
    if rest.is_empty() {
        Ok(statements)
    } else {
        Err(GroupTextError::Syntax { statement: number })
    }
}

/// The statements of a group's text, or the first that is not in the grammar.
#[tactic(auto, unfolding(crate::specs::Reading::reading))]
pub fn read_group(alloc: Global, text: &[u8]) -> Result<GroupText, GroupTextError>
    requires { length text.now < 2 ^ 32 - 1 }
    ensures ok { IfOk result (λ statements. reading text.now ≡ Ok statements) }
    ensures err { IfErr result (λ e. Fails e (reading text.now)) }
{
    let found = words(alloc, text)?;
    let statements = read_statements(alloc, found.as_slice())?;
    Ok(GroupText::of(statements))
}
