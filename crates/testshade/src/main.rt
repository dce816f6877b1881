//! The program: it hands its words, the system's files and standard output to the top call, and ends with the status
//! that the call answers. What it does is the top call's; nothing is promised of what real files hold.
#![tactic(auto)]

use osl_job::run_plain;
use osl_store::{FileStore, StdSink};
use std::env;
use std::io::ErrorKind;
use std::process::ExitCode;

/// Memory was refused before the work began.
const NO_MEMORY: u8 = 9;

fn main(rt: HostRuntime) -> ExitCode {
    let alloc = rt.alloc();
    let words = match env::args(&rt) {
        Ok(args) => args.skip(1).collect::<Vec<String>>(alloc),
        Err(error) if error.kind() == ErrorKind::OutOfMemory => return ExitCode::from(NO_MEMORY),
        // Words that are no text spell no job, as no words do.
        Err(_) => Ok(Vec::new(alloc)),
    };
    let Ok(words) = words else {
        return ExitCode::from(NO_MEMORY);
    };
    let mut store = FileStore::new(&rt);
    let mut out = StdSink::new(&rt);
    ExitCode::from(run_plain(alloc, words.as_slice(), &mut store, &mut out))
}
