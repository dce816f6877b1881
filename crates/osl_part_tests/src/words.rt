//! The words of commands.

use osl_words::{Job, Name, read_words};
use std::alloc::{AllocError, Global};
use std::test::Fail;

/// The words of a line, with one blank between two.
fn words(alloc: Global, line: &str) -> Result<Vec<String>, AllocError> {
    let mut words = Vec::new(alloc);
    for word in line.split(' ') {
        words.push(String::from_str(alloc, word)?)?;
    }
    Ok(words)
}

fn shown_name(name: &Option<Name>) -> &str {
    match name {
        Some(name) => name.as_str(),
        None => "none",
    }
}

/// A job as one line.
fn shown(alloc: Global, job: &Job) -> Result<String, AllocError> {
    match job {
        Job::Shade(job) => {
            let group = job.group.as_str();
            let points = job.points.as_str();
            let edits = shown_name(&job.edits);
            let (workers, budget) = (job.workers, job.budget);
            let (settle, serial, from_oso) = (job.settle, job.serial, job.from_oso);
            format!(in alloc;
                "shade {group} {points} {edits} {workers} {budget} {settle} {serial} {from_oso}"
            )
        }
        Job::Oslc { input, output } => {
            let (input, output) = (input.as_str(), output.as_str());
            format!(in alloc; "oslc {input} {output}")
        }
        Job::Demo(n) => format!(in alloc; "demo {n}"),
        Job::DemoText(n) => format!(in alloc; "demo-text {n}"),
    }
}

fn answer(alloc: Global, line: &str) -> Result<String, Fail> {
    let words = words(alloc, line)?;
    match read_words(alloc, words.as_slice())? {
        Some(job) => Ok(shown(alloc, &job)?),
        None => Ok(String::from_str(alloc, "none")?),
    }
}

#[test]
fn words_that_ask_for_a_job(rt: HostRuntime) -> Result<(), Fail> {
    let rows = [
        ("shade g p", "shade g p none 4 65536 false false false"),
        (
            "shade g p --edits e --workers 16 --budget 1000000 --settle --from oso",
            "shade g p e 16 1000000 true false true",
        ),
        (
            "shade --workers=1 --budget=1 g --from osl p",
            "shade g p none 1 1 false false false",
        ),
        (
            "shade g p --workers 04",
            "shade g p none 4 65536 false false false",
        ),
        (
            "shade g p --workers +4 --edits=",
            "shade g p  4 65536 false false false",
        ),
        (
            "shade g p --serial",
            "shade g p none 4 65536 false true false",
        ),
        (
            "shade g --serial p --edits=e --budget 7",
            "shade g p e 4 7 false true false",
        ),
        ("shade  p", "shade  p none 4 65536 false false false"),
        (
            "shade -- -g --settle",
            "shade -g --settle none 4 65536 false false false",
        ),
        ("oslc a.osl a.oso", "oslc a.osl a.oso"),
        ("demo 1", "demo 1"),
        ("demo 256", "demo 256"),
        ("demo-text 1", "demo-text 1"),
        ("demo-text 7", "demo-text 7"),
        ("demo-text 256", "demo-text 256"),
    ];
    for (line, job) in rows {
        let answer = answer(rt.alloc(), line)?;
        assert_eq!(rt; answer.as_str(), job, "{line}");
    }
    Ok(())
}

// Command lines that ask for no job.
static NO_JOBS: [&str; 43] = [
    "",
    "shade",
    "shade g",
    "shade g p q",
    "shade g p --workers 17",
    "shade g p --workers 0",
    "shade g p --workers",
    "shade g p --workers four",
    "shade g p --workers 2 --workers 3",
    "shade g p --budget 0",
    "shade g p --budget 1000001",
    "shade g p --from c",
    "shade g p --edits",
    "shade g p --edit e",
    "shade g p --settle --settle",
    "shade g p --serial --settle",
    "shade g p --serial --workers 4",
    "shade g p --help",
    "shade g p -h",
    "shade g p --version",
    "shade --version",
    "shade g p --settle=true",
    "shade g p --edits e --edits f",
    "shade -- g --serial",
    "shade -- --serial p",
    "shade g p --edits=--serial",
    "shade g p --edits --serial",
    "oslc a",
    "oslc a b c",
    "demo",
    "demo 0",
    "demo 257",
    "demo -1",
    "demo 1 2",
    "demo seven",
    "demo-text",
    "demo-text 0",
    "demo-text 257",
    "demo-text -1",
    "demo-text 1 2",
    "demo-text seven",
    "demo-texts 7",
    "help",
];

#[test]
fn words_that_ask_for_none(rt: HostRuntime) -> Result<(), Fail> {
    for &line in &NO_JOBS {
        let answer = answer(rt.alloc(), line)?;
        assert_eq!(rt; answer.as_str(), "none", "{line}");
    }
    assert!(rt; read_words(rt.alloc(), &[])?.is_none());
    Ok(())
}
