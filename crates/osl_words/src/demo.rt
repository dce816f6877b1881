//! `demo N` and `demo-text N`

ghost use Rattle.std.specs.Prelude.{◌≡◌, IfOk, map, string_bytes};
ghost use Rattle.clap.specs.Words.{app_of};
ghost use Rattle.osl_words.specs.Arguments.{command_with};
ghost use Rattle.osl_words.specs.Usage.{asked};
ghost use Rattle.osl_words.specs.Demo.{demo, demo_text, sized, size_of};

use crate::arguments::{bare, given, matched, number_in, required};
use crate::job::Job;
use clap::Command;
use osl_value::Memory;
use std::alloc::{AllocError, Global};

/// The job that the words ask for, where the first is `demo`.
pub fn read(alloc: Global, words: &[String]) -> Result<Option<Job>, Memory>
    ensures { IfOk result (λ job. job ≡ asked demo (map string_bytes words.now)) }
{
    match size(alloc, "demo", words)? {
        Some(n) => Ok(Some(Job::Demo(n))),
        None => Ok(None),
    }
}

/// The job that the words ask for, where the first is `demo-text`.
pub fn read_text(alloc: Global, words: &[String]) -> Result<Option<Job>, Memory>
    ensures { IfOk result (λ job. job ≡ asked demo_text (map string_bytes words.now)) }
{
    match size(alloc, "demo-text", words)? {
        Some(n) => Ok(Some(Job::DemoText(n))),
        None => Ok(None),
    }
}

/// The N of the words.
fn size<'a>(alloc: Global, name: &'a str, words: &'a [String]) -> Result<Option<u32>, Memory>
    ensures { IfOk result (λ n. n ≡ size_of name.entry.now (map string_bytes words.entry.now)) }
{
    match matched(command(alloc, name)?, words)? {
        Some(matches) => match given(&matches, "n") {
            Some(text) => Ok(number_in(text, 1, 256)),
            None => Ok(None),
        },
        None => Ok(None),
    }
}

fn command<'a>(alloc: Global, name: &'a str) -> Result<Command<'a>, AllocError>
    ensures { IfOk result (λ command. app_of command ≡ command_with name.entry.now sized) }
{
    let command = bare(alloc, name);
    let command = command.arg(required(alloc, "n"))?;
    Ok(command)
}
