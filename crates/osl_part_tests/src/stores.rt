//! Files in memory and on the disk, and output.

use osl_store::{
    FileStore, MemorySink, MemoryStore, PutError, ReadError, Sink, StdSink, Store, WriteError,
};
use std::alloc::{AllocError, Global};
use std::test::Fail;

fn two_files(alloc: Global) -> Result<Vec<(String, Vec<u8>)>, AllocError> {
    let mut files = Vec::new(alloc);
    for (name, bytes) in [("a", b"first"), ("b", b"other"), ("a", b"later")] {
        let name = String::from_str(alloc, name)?;
        let bytes = Vec::from_slice(alloc, bytes)?;
        files.push((name, bytes))?;
    }
    Ok(files)
}

/// Each read: the file, the limit, what it answers, and the bytes that stand behind "<" afterwards.
#[test]
fn reads_of_memory(rt: HostRuntime) -> Result<(), Fail> {
    let alloc = rt.alloc();
    let mut store = MemoryStore::new(two_files(alloc)?, vec![in alloc; 3]?, Vec::new(alloc));
    let rows = [
        ("a", 5u32, Ok(()), "<first"),
        ("a", 4, Err(ReadError::TooLarge), "<"),
        ("a", 5, Err(ReadError::Failed), "<"),
        ("c", 5, Err(ReadError::Absent), "<"),
        ("b", 5, Ok(()), "<other"),
    ];
    for (name, limit, answer, text) in rows {
        let mut into = Vec::from_slice(alloc, b"<")?;
        assert_eq!(rt;
            store.read(name, limit, &mut into),
            answer,
            "{name} {limit}"
        );
        assert_eq!(rt; into.as_slice(), text.as_bytes(), "{name} {limit}");
    }
    Ok(())
}

#[test]
fn writes_to_memory(rt: HostRuntime) -> Result<(), Fail> {
    let alloc = rt.alloc();
    let mut store = MemoryStore::new(two_files(alloc)?, Vec::new(alloc), vec![in alloc; 2]?);
    assert_eq!(rt; store.write("a", b"new"), Ok(()));
    assert_eq!(rt; store.write("b", b"new"), Err(WriteError::Failed));
    assert_eq!(rt; store.write("c", b"made"), Ok(()));
    assert!(rt; store.file("a") == Some(b"new"));
    assert!(rt; store.file("b") == Some(b"other"));
    assert!(rt; store.file("c") == Some(b"made"));
    assert!(rt; store.file("d").is_none());
    Ok(())
}

#[test]
fn puts_to_memory(rt: HostRuntime) -> Result<(), Fail> {
    let alloc = rt.alloc();
    let mut sink = MemorySink::new(alloc, vec![in alloc; 2]?);
    assert_eq!(rt; sink.put(b"one "), Ok(()));
    assert_eq!(rt; sink.put(b"two "), Err(PutError::Fault));
    assert_eq!(rt; sink.put(b"three"), Ok(()));
    assert_eq!(rt; sink.bytes(), b"one three".as_slice());
    Ok(())
}

/// A file of the system is written, read back, and found too large, and one that is not there is absent.
#[test]
fn files_of_the_system(rt: HostRuntime) -> Result<(), Fail> {
    let mut store = FileStore::new(&rt);
    let mut into = Vec::new(rt.alloc());
    let name = "osl_store_test_file";
    assert_eq!(rt; store.write(name, b"bytes"), Ok(()));
    assert_eq!(rt; store.read(name, 5, &mut into), Ok(()));
    assert_eq!(rt; store.read(name, 4, &mut into), Err(ReadError::TooLarge));
    assert_eq!(rt; into.as_slice(), b"bytes".as_slice());
    std::fs::remove_file(&rt, name)?;
    assert_eq!(rt; store.read(name, 5, &mut into), Err(ReadError::Absent));
    assert_eq!(rt; store.read(".", 5, &mut into), Err(ReadError::Failed));
    assert_eq!(rt; store.write(".", b"bytes"), Err(WriteError::Failed));
    Ok(())
}

/// A file that takes several calls of the system, and is longer than what is read of it at once.
#[test]
fn a_long_file_of_the_system(rt: HostRuntime) -> Result<(), Fail> {
    let alloc = rt.alloc();
    let mut bytes = Vec::new(alloc);
    for k in 0..100_000u32 {
        bytes.push((k % 251) as u8)?;
    }
    let mut store = FileStore::new(&rt);
    let mut into = Vec::from_slice(alloc, b"<")?;
    let name = "osl_store_long_test_file";
    assert_eq!(rt; store.write(name, bytes.as_slice()), Ok(()));
    assert_eq!(rt;
        store.read(name, 99_999, &mut into),
        Err(ReadError::TooLarge)
    );
    assert_eq!(rt; into.as_slice(), b"<".as_slice());
    assert_eq!(rt; store.read(name, 100_000, &mut into), Ok(()));
    assert_eq!(rt; into.len(), 100_001);
    assert!(rt; &into[1..] == bytes.as_slice());
    std::fs::remove_file(&rt, name)?;
    Ok(())
}

#[test]
fn standard_output(rt: HostRuntime) {
    let mut sink = StdSink::new(&rt);
    assert_eq!(rt; sink.put(b"a line\n"), Ok(()));
    assert_eq!(rt; sink.put(b""), Ok(()));
}
