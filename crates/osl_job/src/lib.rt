//! The top call: a job of the program, from its words to the lines that it prints and the status that it ends with.
//!
//! Definitions in `specs/`: `Jobs` says which jobs are built; `Plan` the files that a job reads, in order, and the
//! verdict over given files; `ShaderTexts` what the text of a shader is; `Verdict` what may be printed of an accepted job;
//! `Status` and `Run` the words of the contract. `Small` is the small form of shaders that is built today, `SmallNames` and
//! `SmallRun` what such a shader means, `Text`, `Reader` and `GroupText` the forms of groups and points, and `Code` what
//! the ops do that a shader becomes. Readers and ops are private.
#![tactic(auto)]

ghost use Rattle.std.specs.Prelude.{◌≡◌, ◌⊎◌, None};
ghost use Rattle.osl_store.specs.Counts.{Rose};
ghost use Rattle.osl_store.specs.Views.{SameFiles, StaysFaultless, SinkStaysFaultless};
ghost use Rattle.osl_job.specs.declared.report.Refusal.{Refusal};
ghost use Rattle.osl_job.specs.Status.{done, usage, read_fault, write_fault, out_of_memory, not_built, refusal_code, IsCutShort, IsExitStatus, ComesExactly};
ghost use Rattle.osl_job.specs.Jobs.{job_for, IsUnbuilt};
ghost use Rattle.osl_job.specs.Plan.{plan_for};
ghost use Rattle.osl_job.specs.Run.{OverTold, Prints, PrintsFront, IsDone, IsRefusal, IsReadFault, IsText, IsStatus, HasCause, NoFaultRose};

use osl_store::laws::puts_add_up;
use osl_store::{PutError, Sink, Store};
use std::alloc::Global;

mod code;
mod group;
pub mod laws;
mod names;
mod report;
mod shader;
mod shader_text;
mod small;
mod steps;
mod text;
mod tokens;

use laws::one_verdict;
use report::print;
use steps::work;

/// A put failed.
const WRITE_FAULT: u8 = 8;

/// An allocation failed.
const OUT_OF_MEMORY: u8 = 9;

/// Does what the words ask for, and answers the status. All printing follows the work, and each printed line is
/// one `put`.
///
/// The status is 0 where the job is done; 2 where the words spell no job; 3 where a shader text has no tokens, no tree
/// or no typing; 6 where a file is absent; 7 where a read failed; 8 where a put failed; 9 where an allocation failed; 10
/// where a file is too large; 11 where the words or a file ask for a form that is not built yet.
pub fn run_plain<S: Store, K: Sink>(
    alloc: Global,
    words: &[String],
    store: &mut S,
    out: &mut K,
) -> u8
    // Over told files: the text of a job that is done, the line of its refusal, or that of a read that failed was written.
    ensures done { result ≡ done → Prints IsDone (plan_for words.now) (S.seen store.old) (K.seen out.old) (K.seen out.new) }
    ensures refused { (why : Refusal) → result ≡ refusal_code why
        → Prints (IsRefusal why) (plan_for words.now) (S.seen store.old) (K.seen out.old) (K.seen out.new) }
    ensures read_fault { result ≡ read_fault → Prints IsReadFault (plan_for words.now) (S.seen store.old) (K.seen out.old) (K.seen out.new) }
    ensures cut_short { IsCutShort result
        → PrintsFront (IsText (S.seen store.old) (S.seen store.new)) (plan_for words.now) (S.seen store.old) (K.seen out.old) (K.seen out.new) }

    // Over every store and sink: the statuses that there are, which count rose, and what is a matter of words alone.
    ensures known { IsExitStatus result }
    ensures cause { HasCause result (S.seen store.old) (S.seen store.new) }
    ensures write_fault { result ≡ write_fault → Rose (K.seen out.old).faults (K.seen out.new).faults }
    ensures usage { ComesExactly usage result (job_for words.now ≡ None) }
    ensures unbuilt { IsUnbuilt (job_for words.now) → (result ≡ not_built) ⊎ IsCutShort result }

    // Where no count of faults rose, the status is the verdict's, unless an allocation failed. Where no call fails, none rises.
    ensures complete { NoFaultRose (S.seen store.old) (S.seen store.new) (K.seen out.old) (K.seen out.new) → OverTold (S.seen store.old)
        (λ files. (result ≡ out_of_memory) ⊎ IsStatus (plan_for words.now) files result) }
    ensures faultless_store { StaysFaultless (S.seen store.old) (S.seen store.new) }
    ensures faultless_sink { SinkStaysFaultless (K.seen out.old) (K.seen out.new) }
    ensures files { SameFiles (S.seen store.old) (S.seen store.new) }
{
    let Ok(report) = work(alloc, words, store) else {
        // Nothing is a front of the text of the one verdict.
        puts_add_up();
        one_verdict();
        return OUT_OF_MEMORY;
    };
    match print(report.lines.as_slice(), out) {
        Ok(()) => report.status.code(),
        Err(PutError::Fault) => WRITE_FAULT,
        Err(PutError::Memory) => OUT_OF_MEMORY,
    }
}
