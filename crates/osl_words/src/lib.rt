//! The words of the command line, read as jobs.
//!
//! Each command is read by clap, whose stated functions say which words it accepts and what they mean. A command's usage
//! is defined in a file of its own in `specs/`, and `job_of`, in `specs/Words.antt`, finds the usage that the first word
//! names. A further command is one more usage in its list, one more arm in `read_words`, and one more word in
//! `proofs/read_words/Answers.antt`: that a name for which no arm is meant is not the command's. `laws` says which jobs are
//! serial, and in which ranges a job's numbers are.
#![tactic(auto)]

ghost use Rattle.std.specs.Prelude.{◌≡◌, IfOk, map, string_bytes};
ghost use Rattle.osl_words.specs.Words.{job_of};

use osl_value::Memory;
use std::alloc::Global;

mod arguments;
mod demo;
pub mod job;
pub mod laws;
mod oslc;
mod shade;

pub use job::{Job, Name, ShadeJob};

/// The job that the words ask for, the first of which names the command. `None` comes exactly where they ask for none.
///
/// # Errors
/// `Memory` where clap's tables or the names of the job cannot be had.
pub fn read_words(alloc: Global, words: &[String]) -> Result<Option<Job>, Memory>
    ensures { IfOk result (λ job. job ≡ job_of (map string_bytes words.now)) }
{
    let Some(name) = words.first() else {
        return Ok(None);
    };
    match name.as_str() {
        "shade" => shade::read(alloc, words),
        "oslc" => oslc::read(alloc, words),
        "demo" => demo::read(alloc, words),
        "demo-text" => demo::read_text(alloc, words),
        _ => Ok(None),
    }
}
