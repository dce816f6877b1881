//! The steps of a job, from its words to its report. Nothing is printed yet.

ghost use Rattle.std.specs.Prelude.{◌≡◌, ◌<◌, ◌≤◌, ◌↔◌, ◌++◌, ◌&&◌, ◌==◌, not, codes, string_bytes, None, Some, IfOk, length, true, option_map, is_some};
ghost use Rattle.osl_decimal.specs.Canonical.{fx_text};
ghost use Rattle.osl_job.specs.SmallNames.{is_tied};
ghost use Rattle.osl_job.specs.Plan.{after_group, after_source, plan_for, shade_plan, source_name};
ghost use Rattle.osl_job.specs.Run.{Fetches, FetchesWithin, FetchHasCause, HasCause, IsRefused, IsShown, OnlyRead, OverTold, Reports, ComesTo};
ghost use Rattle.osl_job.specs.declared.report.Refusal.{Refusal};
ghost use Rattle.osl_job.specs.declared.shader_text.ShaderText.TheVariants as sources;
ghost use Rattle.osl_job.specs.Jobs.{job_for, has_no_option, built_of, IsUnbuilt};
ghost use Rattle.osl_job.specs.Status.{code_of, usage, not_built};
ghost use Rattle.osl_job.specs.Verdict.{line};

use crate::code::value_of;
use crate::group::{Group, is_one_point, read_group};
use crate::report::{ExitStatus, Refusal, Report};
use crate::shader_text::{ShaderText, read_shader_text};
use crate::small::{SmallShader, find_output};
use crate::text::ReadStop;
use osl_decimal::write_fx;
use osl_store::{ReadError, Store};
use osl_value::{Fx, Memory};
use osl_words::{Job, Name, ShadeJob, read_words};
use std::alloc::Global;

/// The most bytes of a source or a group text.
const SOURCE_LIMIT: u32 = 1_048_576;

/// The most bytes of a point file.
const POINT_LIMIT: u32 = 16_777_216;

/// What the words come to.
pub fn work<S: Store>(alloc: Global, words: &[String], store: &mut S) -> Result<Report, Memory>
    ensures report { IfOk result (λ r. OverTold (S.seen store.old) (λ files. ComesTo (plan_for words.now) files r)) }
    ensures cause { IfOk result (λ r. HasCause (code_of r.status) (S.seen store.old) (S.seen store.new)) }
    ensures usage { IfOk result (λ r. (code_of r.status ≡ usage) ↔ (job_for words.now ≡ None)) }
    ensures unbuilt { IfOk result (λ r. IsUnbuilt (job_for words.now) → code_of r.status ≡ not_built) }
    ensures store { OnlyRead (S.seen store.old) (S.seen store.new) }
{
    let Some(job) = read_words(alloc, words)? else {
        return Ok(refused(alloc, Refusal::Usage, b"usage", b"")?);
    };
    match built(&job) {
        Some(job) => Ok(shade(alloc, &job.group, &job.points, store)?),
        None => Ok(refused(alloc, Refusal::NotBuilt, b"not built", b"")?),
    }
}

/// The job that is done, where it is built.
fn built(job: &Job) -> Option<&ShadeJob>
    ensures { option_map (λ j. j.now) result ≡ built_of job.now }
{
    match job {
        Job::Shade(job) => { if has_no_option(job) { Some(job) } else { None } }
        Job::Oslc { .. } | Job::Demo(_) | Job::DemoText(_) => None,
    }
}

/// Whether a job has no edits, and what it would have with no option of each other kind.
fn has_no_option(job: &ShadeJob) -> bool
    ensures { result ≡ has_no_option job.now }
{
    job.edits.is_none()
        && job.workers == 4
        && job.budget == 65_536
        && !job.settle
        && !job.serial
        && !job.from_oso
}

/// `shade` reads the group, its shader, and the points.
fn shade<S: Store>(
    alloc: Global,
    group_file: &Name,
    point_file: &Name,
    store: &mut S,
) -> Result<Report, Memory>
    ensures report { IfOk result (Reports (shade_plan group_file.now point_file.now) (S.seen store.old) (S.seen store.new)) }
    ensures store { OnlyRead (S.seen store.old) (S.seen store.new) }
{
    match fetch(alloc, group_file.as_str(), SOURCE_LIMIT, store)? {
        Fetched::Stops(report) => Ok(report),
        Fetched::Bytes(text) => match read_group(alloc, text.as_slice()) {
            Ok(group) => Ok(with_group(alloc, group_file, point_file, &group, store)?),
            Err(ReadStop::NotBuilt) => Ok(not_built(alloc, group_file.as_str())?),
            Err(ReadStop::Memory) => Err(Memory),
        },
    }
}

/// A file whose form is not built yet.
fn not_built(alloc: Global, file: &str) -> Result<Report, Memory>
    ensures { IfOk result (IsRefused Refusal.NotBuilt (file.now ++ codes ": not built")) }
{
    Ok(refused(alloc, Refusal::NotBuilt, file.as_bytes(), b": not built")?)
}

/// Reads the shader of the group, and goes on with it.
fn with_group<S: Store>(
    alloc: Global,
    group_file: &Name,
    point_file: &Name,
    group: &Group,
    store: &mut S,
) -> Result<Report, Memory>
    ensures report { IfOk result (Reports (after_group group_file.now point_file.now (Some group.now)) (S.seen store.old) (S.seen store.new)) }
    ensures store { OnlyRead (S.seen store.old) (S.seen store.new) }
{
    let name = source_name(alloc, group.shader.as_slice())?;
    match fetch(alloc, name.as_str(), SOURCE_LIMIT, store)? {
        Fetched::Stops(report) => Ok(report),
        Fetched::Bytes(text) => match read_shader_text(alloc, text.as_slice())? {
            ShaderText::NoTokens => Ok(refused_source(alloc, name.as_str(), b": lex")?),
            ShaderText::NoTree => Ok(refused_source(alloc, name.as_str(), b": syntax")?),
            ShaderText::NoTyping => Ok(refused_source(alloc, name.as_str(), b": types")?),
            ShaderText::NotBuilt => Ok(not_built(alloc, name.as_str())?),
            ShaderText::Shader(shader) => {
                Ok(with_shader(alloc, group_file, point_file, group, &shader, store)?)
            }
        },
    }
}

/// A source that is refused at this stage.
fn refused_source(alloc: Global, file: &str, stage: &[u8]) -> Result<Report, Memory>
    ensures { IfOk result (IsRefused Refusal.Shader (file.now ++ stage.now)) }
{
    Ok(refused(alloc, Refusal::Shader, file.as_bytes(), stage)?)
}

/// Reads the points, where the asked parameter is an output, and goes on with them.
fn with_shader<S: Store>(
    alloc: Global,
    group_file: &Name,
    point_file: &Name,
    group: &Group,
    shader: &SmallShader,
    store: &mut S,
) -> Result<Report, Memory>
    requires tied { is_tied shader.now ≡ true }
    requires few { length shader.now.params ≤ 16 }
    ensures report { IfOk result (Reports (after_source group_file.now point_file.now group.now (sources.Shader shader.now)) (S.seen store.old) (S.seen store.new)) }
    ensures store { OnlyRead (S.seen store.old) (S.seen store.new) }
{
    let Some(output) = find_output(shader.params.as_slice(), group.param.as_slice()) else {
        return Ok(not_built(alloc, group_file.as_str())?);
    };
    match fetch(alloc, point_file.as_str(), POINT_LIMIT, store)? {
        Fetched::Stops(report) => Ok(report),
        Fetched::Bytes(text) => {
            if is_one_point(text.as_slice()) {
                Ok(shown(alloc, group, shader, output)?)
            } else {
                Ok(not_built(alloc, point_file.as_str())?)
            }
        }
    }
}

/// The report of a job that is done.
fn shown(alloc: Global, group: &Group, shader: &SmallShader, output: u32) -> Result<Report, Memory>
    requires tied { is_tied shader.now ≡ true }
    requires few { length shader.now.params ≤ 16 }
    requires within { output < length shader.now.params }
    ensures { IfOk result (IsShown (record { shader = shader.now; layer = group.now.layer; param = group.now.param; output = output })) }
{
    let value = value_of(alloc, shader, output)?;
    let mut lines = Vec::new(alloc);
    lines.push(Vec::from_slice(alloc, b"freeze 0\n")?)?;
    lines.push(Vec::from_slice(alloc, b"point 0 worker 0 after 0\n")?)?;
    lines.push(out_line(alloc, group, value)?)?;
    lines.push(Vec::from_slice(alloc, b"end\n")?)?;
    Ok(Report {
        status: ExitStatus::Done,
        lines,
    })
}

/// The line of the asked output.
fn out_line(alloc: Global, group: &Group, value: Fx) -> Result<Vec<u8>, Memory>
    ensures { IfOk result (λ l. l.items ≡ line (codes " out " ++ group.now.layer ++ codes "." ++ group.now.param ++ codes " " ++ fx_text value)) }
{
    let mut bytes = Vec::from_slice(alloc, b" out ")?;
    bytes.extend_from_slice(group.layer.as_slice())?;
    bytes.extend_from_slice(b".")?;
    bytes.extend_from_slice(group.param.as_slice())?;
    bytes.extend_from_slice(b" ")?;
    write_fx(value, &mut bytes)?;
    bytes.extend_from_slice(b"\n")?;
    Ok(bytes)
}

/// The name of a shader's file. A group's text names shaders in ASCII, so the bytes are text.
fn source_name(alloc: Global, shader: &[u8]) -> Result<String, Memory>
    ensures { IfOk result (λ name. string_bytes name ≡ source_name shader.now) }
{
    let mut bytes = Vec::from_slice(alloc, shader)?;
    bytes.extend_from_slice(b".osl")?;
    match String::from_utf8(bytes) {
        Ok(name) => Ok(name),
        Err(_) => Err(Memory),
    }
}

/// A refusal, with a line of two pieces.
fn refused(alloc: Global, why: Refusal, first: &[u8], second: &[u8]) -> Result<Report, Memory>
    ensures { IfOk result (λ r. IsRefused why (first.now ++ second.now) r) }
{
    Ok(Report::of_line(alloc, ExitStatus::Refused(why), first, second)?)
}

/// A file's bytes, or the report that ends the job.
#[derive(Drop)]
enum Fetched {
    Bytes(Vec<u8>),
    Stops(Report),
}

/// Reads a file.
fn fetch<S: Store>(alloc: Global, name: &str, limit: u32, store: &mut S) -> Result<Fetched, Memory>
    ensures fetched { IfOk result (λ f. OverTold (S.seen store.old) (λ files. Fetches name.now limit files f)) }
    ensures within { IfOk result (FetchesWithin limit) }
    ensures cause { IfOk result (FetchHasCause (S.seen store.old) (S.seen store.new)) }
    ensures store { OnlyRead (S.seen store.old) (S.seen store.new) }
{
    let mut bytes = Vec::new(alloc);
    match store.read(name, limit, &mut bytes) {
        Ok(()) => Ok(Fetched::Bytes(bytes)),
        Err(ReadError::Absent) => {
            Ok(Fetched::Stops(refused(alloc, Refusal::Absent, name.as_bytes(), b": absent")?))
        }
        Err(ReadError::Failed) => {
            Ok(Fetched::Stops(Report::of_line(
                alloc,
                ExitStatus::ReadFault,
                name.as_bytes(),
                b": read fault",
            )?))
        }
        Err(ReadError::TooLarge) => {
            Ok(Fetched::Stops(refused(alloc, Refusal::TooLarge, name.as_bytes(), b": too large")?))
        }
        Err(ReadError::Memory) => Err(Memory),
    }
}
