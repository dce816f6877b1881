//! A stored run of standard output: 100,000 bytes in one put, which takes several calls of the system where it is a pipe.
#![tactic(auto)]

use osl_store::{Sink, StdSink};
use std::alloc::AllocError;

/// The alphabet over and over, in lines of 100 bytes.
fn lines(into: &mut Vec<u8>) -> Result<(), AllocError> {
    for k in 0..100_000u32 {
        into.push(if k % 100 == 99 {
            b'\n'
        } else {
            b'a' + (k % 26) as u8
        })?;
    }
    Ok(())
}

fn main(rt: HostRuntime) {
    let mut bytes = Vec::new(rt.alloc());
    let mut sink = StdSink::new(&rt);
    if lines(&mut bytes).is_ok() {
        let _is_put = sink.put(bytes.as_slice());
    }
}
