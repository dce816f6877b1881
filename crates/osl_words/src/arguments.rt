//! What the commands' arguments are made of, and how their values are read.

ghost use Rattle.std.specs.Prelude.{◌≡◌, IfOk, map, string_bytes, option_map, true, false, []};
ghost use Rattle.clap.specs.Words.{app_of, found_of, rows_of, rule_of};
ghost use Rattle.clap.specs.Faults.{is_simple_and_free};
ghost use Rattle.osl_words.specs.Arguments.{required, option, flag, command_with, matched, given, is_set, number_in, number_or};

use clap::error::ErrorKind;
use clap::{Arg, ArgAction, ArgMatches, Command};
use osl_value::Memory;
use std::alloc::Global;

/// `ID`, which must be there.
pub fn required<'a>(alloc: Global, id: &'a str) -> Arg<'a>
    ensures rule { rule_of result ≡ required id.entry.now }
    ensures local { result.global ≡ false }
{
    Arg::new(alloc, id).required(true).action(ArgAction::Set)
}

/// `[--ID VALUE]`.
pub fn option<'a>(alloc: Global, id: &'a str) -> Arg<'a>
    ensures rule { rule_of result ≡ option id.entry.now }
    ensures local { result.global ≡ false }
{
    Arg::new(alloc, id).long(id).action(ArgAction::Set)
}

/// `[--ID]`.
pub fn flag<'a>(alloc: Global, id: &'a str) -> Arg<'a>
    ensures rule { rule_of result ≡ flag id.entry.now }
    ensures local { result.global ≡ false }
{
    Arg::new(alloc, id).long(id).action(ArgAction::SetTrue)
}

/// A command with no arguments yet, and no help flag.
pub fn bare<'a>(alloc: Global, name: &'a str) -> Command<'a>
    ensures { app_of result ≡ command_with name.entry.now [] }
{
    Command::new(alloc, name).disable_help_flag(true)
}

/// What clap makes of the words, or nothing where it refuses them.
#[tactic(auto, unfolding(crate::specs::Arguments::matched))]
pub fn matched<'a>(
    command: Command<'a>,
    words: &'a [String],
) -> Result<Option<ArgMatches<'a>>, Memory>
    requires { is_simple_and_free (app_of command) ≡ true }
    ensures { IfOk result (λ found. option_map (λ m. rows_of (found_of m)) found
        ≡ matched (app_of command.entry) (map string_bytes words.entry.now)) }
{
    match command.try_get_matches_from(words) {
        Ok(matches) => Ok(Some(matches)),
        Err(error) => {
            if error.kind() == ErrorKind::OutOfMemory {
                Err(Memory)
            } else {
                Ok(None)
            }
        }
    }
}

/// The value of an argument.
pub fn given<'a>(matches: &ArgMatches<'a>, id: &str) -> Option<&'a str>
    ensures { option_map (λ s. s.now) result ≡ given id.now (rows_of (found_of matches.now)) }
{
    matches.get_str(id)
}

/// Whether a flag is there.
pub fn is_set(matches: &ArgMatches<'_>, id: &str) -> bool
    ensures { result ≡ is_set id.now (rows_of (found_of matches.now)) }
{
    match given(matches, id) {
        Some(value) => value == "true",
        None => false,
    }
}

/// The number that a text writes, if it is from `least` to `most`.
pub fn number_in(text: &str, least: u32, most: u32) -> Option<u32>
    ensures { result ≡ number_in least most text.now }
{
    match text.parse::<u32>() {
        Ok(number) => {
            if least <= number && number <= most {
                Some(number)
            } else {
                None
            }
        }
        Err(_) => None,
    }
}

/// The number that is given, if it is from `least` to `most`, or the default where none is given.
pub fn number_or(given: Option<&str>, default: u32, least: u32, most: u32) -> Option<u32>
    ensures { result ≡ number_or default least most (option_map (λ s. s.now) given.entry) }
{
    match given {
        Some(text) => number_in(text, least, most),
        None => Some(default),
    }
}
