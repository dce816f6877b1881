//! How a job ends, and the lines that it prints.

ghost use Rattle.std.specs.Prelude.{◌≡◌, ◌++◌, IfOk, OnOk, OnErr, IsErrOf};
ghost use Rattle.osl_store.specs.Counts.{Rose};
ghost use Rattle.osl_store.specs.Views.{SinkStaysFaultless};
ghost use Rattle.osl_store.specs.Written.{Wrote, WroteFront};
ghost use Rattle.osl_job.specs.Status.{code_of, refusal_code};
ghost use Rattle.osl_job.specs.Verdict.{line};
ghost use Rattle.osl_job.specs.Run.{text_of};

use osl_store::laws::puts_add_up;
use osl_store::{PutError, Sink};
use osl_value::Memory;
use std::alloc::Global;

/// Why a job is refused.
#[derive(Clone, Copy, Debug, PartialEq, Eq)]
pub enum Refusal {
    /// The words spell no job.
    Usage,
    /// A shader text has no tokens, no tree, or no typing.
    Shader,
    /// A file is absent.
    Absent,
    /// A file is too large.
    TooLarge,
    /// The words or a file ask for a form that is not built yet.
    NotBuilt,
}

/// How a job ends, where nothing cuts it short.
#[derive(Clone, Copy, Debug, PartialEq, Eq)]
pub enum ExitStatus {
    Done,
    Refused(Refusal),
    /// A file could not be read.
    ReadFault,
}

impl Refusal {
    fn code(self) -> u8
        ensures { result ≡ refusal_code self }
    {
        match self {
            Refusal::Usage => 2,
            Refusal::Shader => 3,
            Refusal::Absent => 6,
            Refusal::TooLarge => 10,
            Refusal::NotBuilt => 11,
        }
    }
}

impl ExitStatus {
    /// The number that the program ends with.
    pub fn code(self) -> u8
        ensures { result ≡ code_of self }
    {
        match self {
            ExitStatus::Done => 0,
            ExitStatus::Refused(why) => why.code(),
            ExitStatus::ReadFault => 7,
        }
    }
}

/// What a job comes to: a status, and the lines to print.
#[derive(Drop)]
pub struct Report {
    pub status: ExitStatus,
    pub lines: Vec<Vec<u8>>,
}

impl Report {
    /// A report of one line, of these two pieces.
    pub fn of_line(
        alloc: Global,
        status: ExitStatus,
        first: &[u8],
        second: &[u8],
    ) -> Result<Report, Memory>
        ensures status { IfOk result (λ r. r.status ≡ status) }
        ensures lines { IfOk result (λ r. text_of r.lines.items ≡ line (first.now ++ second.now)) }
    {
        let mut bytes = Vec::from_slice(alloc, first)?;
        bytes.extend_from_slice(second)?;
        bytes.extend_from_slice(b"\n")?;
        let mut lines = Vec::new(alloc);
        lines.push(bytes)?;
        Ok(Report { status, lines })
    }
}

/// Prints the lines, one `put` for each.
pub fn print<K: Sink>(lines: &[Vec<u8>], out: &mut K) -> Result<(), PutError>
    ensures all { OnOk result (Wrote (K.seen out.old) (K.seen out.new) (text_of lines.now)) }
    ensures front { OnErr result (WroteFront (K.seen out.old) (K.seen out.new) (text_of lines.now)) }
    ensures fault { IsErrOf result PutError.Fault → Rose (K.seen out.old).faults (K.seen out.new).faults }
    ensures faultless { SinkStaysFaultless (K.seen out.old) (K.seen out.new) }
{
    puts_add_up();
    for line in lines {
        match out.put(line.as_slice()) {
            Ok(()) => {}
            Err(error) => return Err(error),
        }
    }
    Ok(())
}
