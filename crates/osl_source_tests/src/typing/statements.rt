//! Statements (OSL specification, section "Statements").

use super::{BEFORE, Verdict, all_have_behind};
use std::test::Fail;

/// Statements that are taken.
static TAKEN: [&str; 28] = [
    ";",
    "{}",
    "f;",
    "1;",
    "t;",
    "k;",
    "q;",
    "fs;",
    "exit();",
    "if (i) {}",
    "if (f) ; else ;",
    "if (i < f) f = 1; else if (f) f = 2;",
    "while (i) {}",
    "while (f) break;",
    "do ; while (f);",
    "do { continue; } while (i);",
    "for (;;) {}",
    "for (i = 0; f; i++) {}",
    "for (f; i; f) {}",
    "while (i) { if (f) break; else continue; }",
    "for (;;) { while (i) break; continue; }",
    "while (i) { { break; } }",
    "do break; while (i);",
    "while (1) if (i) continue;",
    "return;",
    "if (i) return;",
    "while (i) return;",
    "{ return; } return;",
];

/// Statements that are refused.
static REFUSED: [&str; 37] = [
    "break;",
    "continue;",
    "if (i) break;",
    "{ continue; }",
    "while (i) {} break;",
    "for (;;) {} continue;",
    "do ; while (i); break;",
    "if (i) {} else continue;",
    "return 1;",
    "return f;",
    "return exit();",
    "return (0);",
    "if (c) {}",
    "if (t) {}",
    "if (k) {}",
    "if (m) {}",
    "if (q) {}",
    "if (fs) {}",
    "if (m[0]) {}",
    "if (exit()) {}",
    "while (c) {}",
    "while (t) {}",
    "do ; while (k);",
    "do ; while (p);",
    "for (; m; ) {}",
    "for (; c; ) {}",
    "if (missing) {}",
    "for (missing; ; ) {}",
    "for (; ; missing) {}",
    "for (; ; m[0]) {}",
    "m[0];",
    "missing;",
    "if (i) missing; else f = 1;",
    "if (i) f = 1; else missing;",
    "while (i) missing;",
    "do missing; while (i);",
    "do int j = 1; while (j);",
];

#[test]
fn statements_stand_where_they_may(rt: HostRuntime) -> Result<(), Fail> {
    all_have_behind(&rt, rt.alloc(), BEFORE, &TAKEN, Verdict::Typed)?;
    all_have_behind(&rt, rt.alloc(), BEFORE, &REFUSED, Verdict::Untyped)
}
