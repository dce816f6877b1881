//! `oslc IN OUT`

ghost use Rattle.std.specs.Prelude.{◌≡◌, IfOk, map, string_bytes};
ghost use Rattle.clap.specs.Words.{app_of, found_of, rows_of};
ghost use Rattle.osl_words.specs.Arguments.{command_with};
ghost use Rattle.osl_words.specs.Usage.{asked};
ghost use Rattle.osl_words.specs.Oslc.{oslc, oslc_job};

use crate::arguments::{bare, given, matched, required};
use crate::job::{Job, Name};
use clap::{ArgMatches, Command};
use osl_value::Memory;
use std::alloc::{AllocError, Global};

/// The job that the words ask for, where the first is `oslc`.
pub fn read(alloc: Global, words: &[String]) -> Result<Option<Job>, Memory>
    ensures { IfOk result (λ job. job ≡ asked oslc (map string_bytes words.now)) }
{
    match matched(command(alloc)?, words)? {
        Some(matches) => job(alloc, &matches),
        None => Ok(None),
    }
}

fn command<'a>(alloc: Global) -> Result<Command<'a>, AllocError>
    ensures { IfOk result (λ command. app_of command ≡ command_with oslc.name oslc.arguments) }
{
    let command = bare(alloc, "oslc");
    let command = command.arg(required(alloc, "in"))?;
    let command = command.arg(required(alloc, "out"))?;
    Ok(command)
}

fn job(alloc: Global, matches: &ArgMatches<'_>) -> Result<Option<Job>, Memory>
    ensures { IfOk result (λ job. job ≡ oslc_job (rows_of (found_of matches.now))) }
{
    let Some(input) = given(matches, "in") else {
        return Ok(None);
    };
    let Some(output) = given(matches, "out") else {
        return Ok(None);
    };
    let input = Name::from_str(alloc, input)?;
    let output = Name::from_str(alloc, output)?;
    Ok(Some(Job::Oslc { input, output }))
}
