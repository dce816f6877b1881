//! `shade GROUP POINTS [--edits FILE] [--workers N] [--budget B] [--settle] [--serial] [--from osl|oso]`

ghost use Rattle.std.specs.Prelude.{◌≡◌, IfOk, map, string_bytes, option_map};
ghost use Rattle.clap.specs.Words.{app_of, found_of, rows_of};
ghost use Rattle.osl_words.specs.Arguments.{command_with};
ghost use Rattle.osl_words.specs.Usage.{asked};
ghost use Rattle.osl_words.specs.Shade.{shade, shade_job, from_oso, names_flag, agrees};

use crate::arguments::{bare, flag, given, is_set, matched, number_or, option, required};
use crate::job::{Job, Name, ShadeJob};
use clap::{ArgMatches, Command};
use osl_value::Memory;
use std::alloc::{AllocError, Global};

/// The job that the words ask for, where the first is `shade`.
pub fn read(alloc: Global, words: &[String]) -> Result<Option<Job>, Memory>
    ensures { IfOk result (λ job. job ≡ asked shade (map string_bytes words.now)) }
{
    match matched(command(alloc)?, words)? {
        Some(matches) => job(alloc, &matches),
        None => Ok(None),
    }
}

fn command<'a>(alloc: Global) -> Result<Command<'a>, AllocError>
    ensures { IfOk result (λ command. app_of command ≡ command_with shade.name shade.arguments) }
{
    let command = bare(alloc, "shade");
    let command = command.arg(required(alloc, "group"))?;
    let command = command.arg(required(alloc, "points"))?;
    let command = command.arg(option(alloc, "edits"))?;
    let command = command.arg(option(alloc, "workers"))?;
    let command = command.arg(option(alloc, "budget"))?;
    let command = command.arg(flag(alloc, "settle"))?;
    let command = command.arg(flag(alloc, "serial"))?;
    let command = command.arg(option(alloc, "from"))?;
    Ok(command)
}

fn job(alloc: Global, matches: &ArgMatches<'_>) -> Result<Option<Job>, Memory>
    ensures { IfOk result (λ job. job ≡ shade_job (rows_of (found_of matches.now))) }
{
    let Some(group) = given(matches, "group") else {
        return Ok(None);
    };
    let Some(points) = given(matches, "points") else {
        return Ok(None);
    };
    let many = given(matches, "workers");
    let has_workers = many.is_some();
    let Some(workers) = number_or(many, 4, 1, 16) else {
        return Ok(None);
    };
    let Some(budget) = number_or(given(matches, "budget"), 65_536, 1, 1_000_000) else {
        return Ok(None);
    };
    let Some(from_oso) = from_oso(given(matches, "from")) else {
        return Ok(None);
    };
    let edits = given(matches, "edits");
    let settle = is_set(matches, "settle");
    let serial = is_set(matches, "serial");
    if !agrees(group, points, edits, has_workers, settle, serial) {
        return Ok(None);
    }
    Ok(Some(Job::Shade(ShadeJob {
        group: Name::from_str(alloc, group)?,
        points: Name::from_str(alloc, points)?,
        edits: name_of(alloc, edits)?,
        workers,
        budget,
        settle,
        serial,
        from_oso,
    })))
}

fn name_of(alloc: Global, text: Option<&str>) -> Result<Option<Name>, Memory>
    ensures { IfOk result (λ name. name ≡ option_map (λ s. s.now) text.entry) }
{
    match text {
        Some(text) => Ok(Some(Name::from_str(alloc, text)?)),
        None => Ok(None),
    }
}

/// Whether the shaders are oso texts; they are sources where nothing else is said.
fn from_oso(given: Option<&str>) -> Option<bool>
    ensures { result ≡ from_oso (option_map (λ s. s.now) given.entry) }
{
    match given {
        None | Some("osl") => Some(false),
        Some("oso") => Some(true),
        Some(_) => None,
    }
}

/// Whether the values go together: no file is named as the flag `--serial` is, and one thread settles nothing and has no
/// workers.
fn agrees(
    group: &str,
    points: &str,
    edits: Option<&str>,
    has_workers: bool,
    settle: bool,
    serial: bool,
) -> bool
    ensures { result ≡ agrees group.now points.now (option_map (λ s. s.now) edits.entry) has_workers settle serial }
{
    let names_edits = match edits {
        Some(edits) => names_flag(edits),
        None => false,
    };
    !(names_flag(group) || names_flag(points) || names_edits)
        && !(serial && (settle || has_workers))
}

fn names_flag(text: &str) -> bool
    ensures { result ≡ names_flag text.now }
{
    text == "--serial"
}
