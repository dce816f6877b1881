//! A stored run of the system's files: one that is read, and each way in which a read is refused. The gate runs it as a
//! user who may not open a file that is closed to all.
#![tactic(auto)]

use osl_store::{FileStore, ReadError, Store};
use std::fs::Permissions;
use std::os::unix::fs::PermissionsExt;
use std::{fs, io};

/// A name of 256 bytes, one more than the system's file names have.
const LONG_NAME: &str = "0123456789abcdef0123456789abcdef0123456789abcdef0123456789abcdef\
    0123456789abcdef0123456789abcdef0123456789abcdef0123456789abcdef\
    0123456789abcdef0123456789abcdef0123456789abcdef0123456789abcdef\
    0123456789abcdef0123456789abcdef0123456789abcdef0123456789abcdef";

fn main(rt: HostRuntime) -> io::Result<()> {
    fs::write(&rt, "closed", "bytes")?;
    fs::set_permissions(&rt, "closed", Permissions::from_mode(0))?;
    let mut store = FileStore::new(&rt);
    for (file, name) in [
        ("open", "open"),
        ("long", "long"),
        ("closed", "closed"),
        ("folder", "."),
        ("missing", "missing"),
        ("under a file", "open/below"),
        ("of a name too long", LONG_NAME),
    ] {
        let mut bytes = Vec::new(rt.alloc());
        let answer = match store.read(name, 10, &mut bytes) {
            Ok(()) => "read",
            Err(ReadError::Absent) => "absent",
            Err(ReadError::Failed) => "read fault",
            Err(ReadError::TooLarge) => "too large",
            Err(ReadError::Memory) => "out of memory",
        };
        println!(rt; "{file}: {answer}")?;
    }
    Ok(())
}
