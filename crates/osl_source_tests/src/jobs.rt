//! Jobs in tables, over files in memory: the status, and what is printed.

use osl_job::run_plain;
use osl_store::{MemorySink, MemoryStore};
use std::alloc::{AllocError, Global};
use std::test::Fail;

const ADD1: &str = "shader add1(float a = 2, output float r = 0) { r = a + 0.5; }";

const GROUP: &str = "shader add1 a ; output a.r ;";

/// Words, group, shader (where its file is there) and points; the status, and what is printed.
type Row = (
    &'static str,
    &'static str,
    &'static str,
    &'static str,
    u8,
    &'static str,
);

static ROWS: [Row; 36] = [
    (
        "shade g p",
        GROUP,
        ADD1,
        "point\n",
        0,
        "freeze 0\npoint 0 worker 0 after 0\n out a.r 2.5\nend\n",
    ),
    (
        "shade g p",
        GROUP,
        "shader add1(float a = 9223372036.854775807, output float r = 0) { r = a + 0.5; }",
        "point",
        0,
        "freeze 0\npoint 0 worker 0 after 0\n out a.r 9223372036.854775807\nend\n",
    ),
    (
        "shade g p",
        "shader add1 s ; output s.r ;",
        "shader add1(float a = 1, float b = 2, float c = 3, output float r = 0) { r = a - b - c; }",
        "point",
        0,
        "freeze 0\npoint 0 worker 0 after 0\n out s.r -4\nend\n",
    ),
    (
        "shade g p",
        "# one layer\nshader add1 top;output top.r;",
        "shader add1(float a = 1, float b = 2, float c = 0x3, output float r = 0) { r = a - b - c; r = r + r; }",
        "# one point\n\tpoint \r\n",
        0,
        "freeze 0\npoint 0 worker 0 after 0\n out top.r -8\nend\n",
    ),
    (
        "shade g p",
        GROUP,
        "/* a comment */ shader add1(output float r = 0) { // and another\n r = 0.12345678949999999999; }",
        "point",
        0,
        "freeze 0\npoint 0 worker 0 after 0\n out a.r 0.123456789\nend\n",
    ),
    (
        "shade g p",
        GROUP,
        "shader add1(output float r = 0) { r = 0.1234567895; }",
        "point",
        0,
        "freeze 0\npoint 0 worker 0 after 0\n out a.r 0.12345679\nend\n",
    ),
    (
        "shade g p",
        GROUP,
        "shader add1(output float r = 0) { r = 1e-9; }",
        "point",
        0,
        "freeze 0\npoint 0 worker 0 after 0\n out a.r 0.000000001\nend\n",
    ),
    (
        "shade g p",
        GROUP,
        "shader add1(output float r = 0xffffffff) { r = r + 2.5e1f; }",
        "point",
        0,
        "freeze 0\npoint 0 worker 0 after 0\n out a.r 24\nend\n",
    ),
    ("shade none p", GROUP, ADD1, "point", 6, "none: absent\n"),
    ("shade g p", GROUP, "", "point", 6, "add1.osl: absent\n"),
    ("shade g none", GROUP, ADD1, "point", 6, "none: absent\n"),
    (
        "shade g p",
        "shader add1 a ; output b.r ;",
        ADD1,
        "point",
        11,
        "g: not built\n",
    ),
    (
        "shade g p",
        "shader add1 a ; output a.r",
        ADD1,
        "point",
        11,
        "g: not built\n",
    ),
    (
        "shade g p",
        "shader add1 a ; output a.a ;",
        ADD1,
        "point",
        11,
        "g: not built\n",
    ),
    ("shade g p", GROUP, ADD1, "", 11, "p: not built\n"),
    (
        "shade g p",
        GROUP,
        ADD1,
        "point point",
        11,
        "p: not built\n",
    ),
    (
        "shade g p",
        GROUP,
        "#include \"stdosl.h\"",
        "point",
        3,
        "add1.osl: lex\n",
    ),
    (
        "shade g p",
        GROUP,
        "shader add1(output float r = 0) { r = 1e10; }",
        "point",
        3,
        "add1.osl: lex\n",
    ),
    (
        "shade g p",
        GROUP,
        "shader add1(output float r = 0) { /* }",
        "point",
        3,
        "add1.osl: lex\n",
    ),
    (
        "shade g p",
        GROUP,
        "shader add1(",
        "point",
        3,
        "add1.osl: syntax\n",
    ),
    (
        "shade g p",
        GROUP,
        "shader add1(output float r = 0) { r = ; }",
        "point",
        3,
        "add1.osl: syntax\n",
    ),
    (
        "shade g p",
        GROUP,
        "shader add1(output float r = 0) { break; }",
        "point",
        3,
        "add1.osl: types\n",
    ),
    (
        "shade g p",
        GROUP,
        "float f(float a, int b) { return a; } float f(int a, float b) { return b; } surface add1(output float r = 0) { r = f(1, 1); }",
        "point",
        3,
        "add1.osl: types\n",
    ),
    (
        "shade g p",
        GROUP,
        "void sw(output float a, output float b) { float t = a; a = b; b = t; } shader add1(output float r = 0) { float x = 1; sw(x, x); r = x; }",
        "point",
        3,
        "add1.osl: types\n",
    ),
    (
        "shade g p",
        GROUP,
        "shader add1(float P = 2, output float r = 0) { r = P + 0.5; }",
        "point",
        3,
        "add1.osl: types\n",
    ),
    (
        "shade g p",
        GROUP,
        "shader add1(output float r = 0,) { }",
        "point",
        11,
        "add1.osl: not built\n",
    ),
    (
        "shade g p",
        GROUP,
        "shader add1() { }",
        "point",
        11,
        "add1.osl: not built\n",
    ),
    (
        "shade g p",
        GROUP,
        "surface add1(output float r = 0) { }",
        "point",
        11,
        "add1.osl: not built\n",
    ),
    (
        "shade g p",
        GROUP,
        "shader add1(float a = 2) { a = 1.0; }",
        "point",
        3,
        "add1.osl: types\n",
    ),
    (
        "shade g p",
        GROUP,
        "shader add1(output float r = 0) { r = 1; }",
        "point",
        11,
        "add1.osl: not built\n",
    ),
    (
        "shade g p",
        GROUP,
        "shader add1(output float r = 0) { r = a; }",
        "point",
        3,
        "add1.osl: types\n",
    ),
    (
        "shade g p",
        GROUP,
        "shader add1(output float r = 0, float r = 1) { }",
        "point",
        3,
        "add1.osl: types\n",
    ),
    (
        "shade g p",
        GROUP,
        "shader add1(output float r = -1) { }",
        "point",
        11,
        "add1.osl: not built\n",
    ),
    (
        "shade g p",
        GROUP,
        "shader add1(output float r = 0) { r = r / r; }",
        "point",
        11,
        "add1.osl: not built\n",
    ),
    (
        "shade g p",
        GROUP,
        "shader add1(output float r = 0) { r = (r); }",
        "point",
        11,
        "add1.osl: not built\n",
    ),
    (
        "shade g p",
        GROUP,
        "shader add1(output float r = 0, float a23456789012345678901234567890123 = 1) { }",
        "point",
        11,
        "add1.osl: not built\n",
    ),
];

/// Words over the files of the first row; the status, and what is printed.
static WORDS: [(&str, u8, &str); 21] = [
    ("", 2, "usage\n"),
    ("shade", 2, "usage\n"),
    ("shade g", 2, "usage\n"),
    ("shade g p more", 2, "usage\n"),
    ("shade -g p", 2, "usage\n"),
    ("shade g p --workers 17", 2, "usage\n"),
    ("shade g p --serial --settle", 2, "usage\n"),
    ("shade g -- --serial", 2, "usage\n"),
    ("oslc in", 2, "usage\n"),
    ("demo 0", 2, "usage\n"),
    ("paint g p", 2, "usage\n"),
    ("shade g p --serial", 11, "not built\n"),
    ("shade g p --settle", 11, "not built\n"),
    ("shade g p --edits e", 11, "not built\n"),
    ("shade g p --workers 1", 11, "not built\n"),
    ("shade g p --budget 1", 11, "not built\n"),
    ("shade g p --from oso", 11, "not built\n"),
    ("oslc in out", 11, "not built\n"),
    ("demo 1", 11, "not built\n"),
    ("demo-text 1", 11, "not built\n"),
    ("shade --workers 4 -- none p", 6, "none: absent\n"),
];

fn words_of(alloc: Global, line: &str) -> Result<Vec<String>, AllocError> {
    let mut words = Vec::new(alloc);
    for word in line.split_whitespace() {
        words.push(String::from_str(alloc, word)?)?;
    }
    Ok(words)
}

fn add_file(
    alloc: Global,
    files: &mut Vec<(String, Vec<u8>)>,
    name: &str,
    text: &str,
) -> Result<(), AllocError> {
    let bytes = Vec::from_slice(alloc, text.as_bytes())?;
    files.push((String::from_str(alloc, name)?, bytes))?;
    Ok(())
}

/// The files of a row, of whose reads one may fail.
fn store_of(alloc: Global, row: &Row, fail_read: u64) -> Result<MemoryStore, AllocError> {
    let mut files = Vec::new(alloc);
    add_file(alloc, &mut files, "g", row.1)?;
    if !row.2.is_empty() {
        add_file(alloc, &mut files, "add1.osl", row.2)?;
    }
    add_file(alloc, &mut files, "p", row.3)?;
    Ok(MemoryStore::new(files, vec![in alloc; fail_read]?, Vec::new(alloc)))
}

#[test]
fn each_form_and_each_refusal(rt: HostRuntime) -> Result<(), Fail> {
    let alloc = rt.alloc();
    for row in &ROWS {
        let words = words_of(alloc, row.0)?;
        let mut store = store_of(alloc, row, 0)?;
        let mut out = MemorySink::new(alloc, Vec::new(alloc));
        let status = run_plain(alloc, words.as_slice(), &mut store, &mut out);
        assert_eq!(rt; status, row.4, "{} {}", row.0, row.5);
        assert_eq!(rt; out.bytes(), row.5.as_bytes(), "{} {}", row.0, row.5);
    }
    Ok(())
}

#[test]
fn each_kind_of_words(rt: HostRuntime) -> Result<(), Fail> {
    let alloc = rt.alloc();
    for row in &WORDS {
        let words = words_of(alloc, row.0)?;
        let mut store = store_of(alloc, &ROWS[0], 0)?;
        let mut out = MemorySink::new(alloc, Vec::new(alloc));
        let status = run_plain(alloc, words.as_slice(), &mut store, &mut out);
        assert_eq!(rt; status, row.1, "{}", row.0);
        assert_eq!(rt; out.bytes(), row.2.as_bytes(), "{}", row.0);
    }
    Ok(())
}

/// The first row, of which a read or a put fails, or whose shader is too large: the status, and what is printed.
#[test]
fn faults(rt: HostRuntime) -> Result<(), Fail> {
    let alloc = rt.alloc();
    let rows = [
        (1u64, 0u64, 7u8, "g: read fault\n"),
        (2, 0, 7, "add1.osl: read fault\n"),
        (3, 0, 7, "p: read fault\n"),
        (0, 1, 8, ""),
        (0, 2, 8, "freeze 0\n"),
        (0, 3, 8, "freeze 0\npoint 0 worker 0 after 0\n"),
        (
            0,
            4,
            8,
            "freeze 0\npoint 0 worker 0 after 0\n out a.r 2.5\n",
        ),
        (
            0,
            5,
            0,
            "freeze 0\npoint 0 worker 0 after 0\n out a.r 2.5\nend\n",
        ),
        (2, 1, 8, ""),
        (2, 2, 7, "add1.osl: read fault\n"),
    ];
    let words = words_of(alloc, "shade g p")?;
    for (fail_read, fail_put, status, text) in rows {
        let mut store = store_of(alloc, &ROWS[0], fail_read)?;
        let mut out = MemorySink::new(alloc, vec![in alloc; fail_put]?);
        let answer = run_plain(alloc, words.as_slice(), &mut store, &mut out);
        assert_eq!(rt; answer, status, "{text}");
        assert_eq!(rt; out.bytes(), text.as_bytes(), "{text}");
    }
    Ok(())
}

#[test]
fn a_shader_that_is_too_large(rt: HostRuntime) -> Result<(), Fail> {
    let alloc = rt.alloc();
    let mut files = Vec::new(alloc);
    add_file(alloc, &mut files, "g", GROUP)?;
    files.push((
        String::from_str(alloc, "add1.osl")?,
        vec![in alloc; b' '; 1_048_577]?,
    ))?;
    let mut store = MemoryStore::new(files, Vec::new(alloc), Vec::new(alloc));
    let mut out = MemorySink::new(alloc, Vec::new(alloc));
    let words = words_of(alloc, "shade g p")?;
    let status = run_plain(alloc, words.as_slice(), &mut store, &mut out);
    assert_eq!(rt; status, 10);
    assert_eq!(rt; out.bytes(), b"add1.osl: too large\n".as_slice());
    Ok(())
}
