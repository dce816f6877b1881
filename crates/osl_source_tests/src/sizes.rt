//! Rows of sources with the sizes of their typed trees, counted by hand: what every shader has is 64; a node is 4 and one
//! slot, and a value's slots count twice.

ghost use Rattle.std.specs.Prelude.{◌≤◌, length};

use crate::LIMIT;
use crate::typing::typed_of;
use osl_typed::Sizes;
use osl_typed::typed::measure;
use osl_value::Memory;
use std::alloc::Global;
use std::test::Fail;

/// The sizes of a source, if it has a typing.
fn sizes_of(alloc: Global, source: &str) -> Result<Option<Sizes>, Memory>
    requires { length source.now ≤ LIMIT }
{
    match typed_of(alloc, source)? {
        Ok(typed) => Ok(Some(measure(&typed))),
        Err(_) => Ok(None),
    }
}

/// A source, its size, its slots, and the most functions that are open at once in it.
type Row = (&'static str, u32, u32, u32);

static ROWS: [Row; 26] = [
    ("shader s() { }", 64, 64, 0),
    ("shader s() { ; { } }", 64 + 8, 64 + 2, 0),
    // A parameter, the promotion, and the int.
    ("shader s(float a = 0) { }", 64 + 12, 64 + 3 + 1 + 3, 0),
    ("shader s() { int a; }", 64 + 8, 64 + 1 + 3, 0),
    ("shader s() { color c[2]; }", 64 + 8, 64 + 1 + 13, 0),
    (
        "shader s() { string t = \"ab\"; }",
        64 + 12,
        64 + 1 + 65 + 65,
        0,
    ),
    // The zero is promoted.
    (
        "shader s() { closure color c = 0; }",
        64 + 16,
        64 + 1 + 3 + 1 + 3,
        0,
    ),
    // The declaration has 4 nodes; the assignment has 4: statement, assignment, target, variable.
    (
        "shader s() { float a = 1; a = a; }",
        64 + 32,
        64 + 8 + 10,
        0,
    ),
    // A structure of two leaves has the size of two nodes; the variable and the field of it hold a float's slots alone.
    (
        "struct pair { float x; color y; }; shader s() { pair p; p.x = 1; }",
        64 + 12 + 28,
        64 + 10 + 12,
        0,
    ),
    // Both indices of a matrix are one node.
    (
        "shader s() { matrix m; float f = m[1][2]; }",
        64 + 8 + 24,
        64 + 34 + 14,
        0,
    ),
    // An element and its component are a node each.
    (
        "shader s() { color c[2]; c[1].r = 1; }",
        64 + 8 + 32,
        64 + 14 + 22,
        0,
    ),
    (
        "shader s() { int i; ++i; i++; }",
        64 + 8 + 24,
        64 + 4 + 14,
        0,
    ),
    (
        "shader s() { int i = (1) ? 2 : 3; }",
        64 + 28,
        64 + 4 + 15,
        0,
    ),
    // A list is a node of no value.
    (
        "shader s() { float a[2] = { 1, 2.0 }; }",
        64 + 24,
        64 + 6 + 1 + 7,
        0,
    ),
    // A constructor takes numbers as they are.
    (
        "shader s() { vector v = vector(1, 2, 3); }",
        64 + 24,
        64 + 8 + 7 + 9,
        0,
    ),
    // A call has 8 for each parameter, and the body of the function each time.
    (
        "void f(float a, output float r) { r = a + 0.5; }
        shader s(float a = 0, output float r = 0) { f(a, r); f(a, r); }",
        64 + 24 + 2 * 56,
        64 + 14 + 2 * 28,
        1,
    ),
    // A function that is not called counts nowhere.
    (
        "int f() { return 1; } int g() { return f(); } shader s() { }",
        64,
        64,
        0,
    ),
    // A structure passed has 8 for each leaf, and its slots twice; the body is a return, a field and its variable.
    (
        "struct p { float x; color y; }; float f(p a) { return a.x; } shader s() { p b; float r = f(b); }",
        64 + 64,
        64 + 39,
        1,
    ),
    // Calls, of which one is the argument of the other, are not open at once.
    (
        "int f(int a) { return a; } shader s(int x = f(f(1))) { }",
        64 + 48,
        64 + 24,
        1,
    ),
    // A structure without fields has no leaves.
    ("struct e { }; shader s() { e a; }", 64 + 4, 64 + 2, 0),
    // The operation is the assignment's, not a node.
    ("shader s() { int i; i += 2; }", 64 + 8 + 16, 64 + 4 + 10, 0),
    (
        "shader s() { int i; if (i && 1) i = 2; else ; }",
        64 + 8 + 36,
        64 + 4 + 9 + 12,
        0,
    ),
    ("shader s() { while (0) break; }", 64 + 12, 64 + 3 + 2, 0),
    // The variable of the head is no statement.
    (
        "shader s() { for (int i = 0; i < 2; ++i) ; }",
        64 + 36,
        64 + 9 + 14,
        0,
    ),
    ("shader s() { exit(); }", 64 + 8, 64 + 2, 0),
    // Metadata does not count.
    (
        "shader s [[string help = \"h\"]] (int a = 0 [[int lockgeom = 1]]) { }",
        64 + 8,
        64 + 6,
        0,
    ),
];

#[test]
fn sizes_are_counted(rt: HostRuntime) -> Result<(), Fail> {
    let alloc = rt.alloc();
    for &(source, size, slots, calls) in &ROWS {
        assert!(rt; source.len() <= LIMIT);
        match sizes_of(alloc, source)? {
            Some(sizes) => {
                assert_eq!(rt;
                    (sizes.size, sizes.slots, sizes.calls),
                    (size, slots, calls),
                    "{source}"
                );
            }
            None => assert!(rt; false, "{source}"),
        }
    }
    Ok(())
}

/// So many functions, of which each calls the one before it twice, and a call of the last: the calls, whose number
/// doubles at each, are not walked one by one.
static CHAINS: [(usize, u32, u32, u32); 6] = [
    (1, 64 + 8, 64 + 2, 1),
    (2, 64 + 8 + 16, 64 + 2 + 4, 2),
    (12, 64 + 8 + 16 * 2047, 64 + 2 + 4 * 2047, 12),
    (16, 65_537, 65_537, 16),
    (17, 65_537, 65_537, 17),
    (200, 65_537, 65_537, 17),
];

#[test]
fn sizes_stop_above_their_limits(rt: HostRuntime) -> Result<(), Fail> {
    let alloc = rt.alloc();
    for &(count, size, slots, calls) in &CHAINS {
        let mut source = format!(in alloc; "void f0() {{ }}")?;
        for n in 1..count {
            let before = n - 1;
            source = format!(in alloc; "{source} void f{n}() {{ f{before}(); f{before}(); }}")?;
        }
        let last = count - 1;
        let source = format!(in alloc; "{source} shader s() {{ f{last}(); }}")?;
        assert!(rt; source.len() <= LIMIT);
        match sizes_of(alloc, source.as_str())? {
            Some(sizes) => {
                assert_eq!(rt;
                    (sizes.size, sizes.slots, sizes.calls),
                    (size, slots, calls),
                    "{count}"
                );
            }
            None => assert!(rt; false, "{count}"),
        }
    }
    Ok(())
}

/// A source, the bytes of its longest string outside metadata, and of its longest name.
static LONGEST: [(&str, u32, u32); 5] = [
    ("shader s() { }", 0, 1),
    ("shader shade(string text = \"four\") { }", 4, 5),
    (
        "shader s(string t = \"\\n\" [[string help = \"longer than any\"]]) { }",
        1,
        4,
    ),
    (
        "void unused() { string t = \"12345\"; } shader s() { }",
        5,
        6,
    ),
    // A name of 300 bytes: the count stops one above the limit.
    (
        "shader s() { int nnnnnnnnnnnnnnnnnnnnnnnnnnnnnnnnnnnnnnnnnnnnnnnnnnnnnnnnnnnnnnnnnnnnnnnnnnnnnnnnnnnnnnnnnnnnnnnnnnnnnnnnnnnnnnnnnnnnnnnnnnnnnnnnnnnnnnnnnnnnnnnnnnnnnnnnnnnnnnnnnnnnnnnnnnnnnnnnnnnnnnnnnnnnnnnnnnnnnnnnnnnnnnnnnnnnnnnnnnnnnnnnnnnnnnnnnnnnnnnnnnnnnnnnnnnnnnnnnnnnnnnnnnnnnnnnnnnnnnnnnnnnnnnnnnnnnnnnnnnn; }",
        0,
        256,
    ),
];

#[test]
fn the_longest_are_found(rt: HostRuntime) -> Result<(), Fail> {
    let alloc = rt.alloc();
    for &(source, text, word) in &LONGEST {
        assert!(rt; source.len() <= LIMIT);
        match sizes_of(alloc, source)? {
            Some(sizes) => {
                assert_eq!(rt;
                    (sizes.longest_text, sizes.longest_word),
                    (text, word),
                    "{source}"
                );
            }
            None => assert!(rt; false, "{source}"),
        }
    }
    Ok(())
}
