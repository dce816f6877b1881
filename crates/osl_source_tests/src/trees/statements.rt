//! Declarations, names in blocks, and statements.

use super::{Row, all_say_behind};
use std::test::Fail;

static DECLARATIONS: [Row; 4] = [
    (
        "float x; int y = 1, z; float o = y; string b = \"x\"; closure color a = 0;",
        "(declare $21:float) (declare (let $22:int 1) $23:int) (declare (let $24:float (promote float $22:int))) (declare (let $25:string \"x\")) (declare (let $26:closure (promote closure 0)))",
    ),
    (
        "float x[3] = {i, g}; color y[2] = {f}; pair z = {1, f}; nest o = {2, q, p}; pair a = {f, c, q.c}; float b[3] = fs; pair b2 = q;",
        "(declare (let $21:float[3] (list (promote float $1:int) $4:float))) (declare (let $22:color[2] (list (promote color $3:float)))) (declare (let $23:struct0 (list (promote float 1) (promote color $3:float)))) (declare (let $24:struct1 (list 2 $19:struct0 (promote vector $7:point)))) (declare (let $25:struct0 (list $3:float $5:color $19.2:int[2]))) (declare (let $26:float[3] $17:float[3])) (declare (let $27:struct0 $19:struct0))",
    ),
    (
        "float x = f; { int f = 2; { color f = f; f.r = x; } f = 3; } f = 4; float f = f; f = 5;",
        "(declare (let $21:float $3:float)) (block (declare (let $22:int 2)) (block (declare (let $23:color (promote color $22:int))) (set (part $23:color .0) $21:float)) (set $22:int 3)) (set $3:float (promote float 4)) (declare (let $24:float $3:float)) (set $24:float (promote float 5))",
    ),
    (
        "{ int x; } { int x; x = 1; } { float u = u; u = 1; } u;",
        "(block (declare $21:int)) (block (declare $22:int) (set $22:int 1)) (block (declare (let $23:float u:float)) (set $23:float (promote float 1))) u:float",
    ),
];

static FLOW: [Row; 6] = [
    (
        "; { } { ; i; } return; if (f) return;",
        "empty (block) (block empty $1:int) (return _) (if $3:float (return _))",
    ),
    (
        "if (i) f = 1; if (f) i = 1; else j = 2; if (i) { } else ; if (i) if (j) f = 1; else g = 2;",
        "(if $1:int (set $3:float (promote float 1))) (if $3:float (set $1:int 1) (set $2:int 2)) (if $1:int (block) empty) (if $1:int (if $2:int (set $3:float (promote float 1)) (set $4:float (promote float 2))))",
    ),
    (
        "if (i) int f = 1; else color f; f; while (i) string f; f; do color f; while (f); f;",
        "(if $1:int (declare (let $21:int 1)) (declare $22:color)) $3:float (while $1:int (declare $23:string)) $3:float (do (declare $24:color) $3:float) $3:float",
    ),
    (
        "while (i) --i; while (f) { break; } do continue; while (j); do { ++i; if (i > j) break; } while (i < 3);",
        "(while $1:int (--x int $1)) (while $3:float (block break)) (do continue $2:int) (do (block (++x int $1) (if (gt int $1:int $2:int) break)) (lt int $1:int 3))",
    ),
    (
        "for (;;) break; for (i = 0; i < j; i++) f = i; for (; f; ) continue; for (; ; --j) { }",
        "(for _ _ _ break) (for (set $1:int 0) (lt int $1:int $2:int) (x++ int $1) (set $3:float (promote float $1:int))) (for _ $3:float _ continue) (for _ _ (--x int $2) (block))",
    ),
    (
        "for (int i = 0, x = i; i < j; ++i) { int i = x; j = i; } i = 1; for (float i = i; ; ) int i; i = 2;",
        "(for (declare (let $21:int 0) (let $22:int $21:int)) (lt int $21:int $2:int) (++x int $21) (block (declare (let $23:int $22:int)) (set $2:int $23:int))) (set $1:int 1) (for (declare (let $24:float (promote float $1:int))) _ _ (declare $25:int)) (set $1:int 2)",
    ),
];

#[test]
fn declarations_say_their_numbers(rt: HostRuntime) -> Result<(), Fail> {
    all_say_behind(&rt, rt.alloc(), &DECLARATIONS)
}

#[test]
fn statements_say_their_parts(rt: HostRuntime) -> Result<(), Fail> {
    all_say_behind(&rt, rt.alloc(), &FLOW)
}
