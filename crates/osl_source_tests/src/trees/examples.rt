//! The sources whose typed trees are written by hand, and run, in `proofs/ExamplesRun.antt` of `osl_typed`: their
//! typing says those trees, node by node.

use super::{Row, all_say};
use std::test::Fail;

static EXAMPLES: [Row; 16] = [
    (
        "shader add1(float a = 2, output float r = 0) { r = a + 0.5; }",
        "(shader add1 (input float a (promote float 2)) (output float r (promote float 0)) (frame float float) (set $1:float (add float $0:float 0.5f)))",
    ),
    (
        "shader checker(float scale = 4, color c1 = 1, color c2 = 0, output color Cout = 0) { int a = (int) floor(u * scale); int b = (int) floor(v * scale); Cout = (a + b) % 2 ? c2 : c1; }",
        "(shader checker (input float scale (promote float 4)) (input color c1 (promote color 1)) (input color c2 (promote color 0)) (output color Cout (promote color 0)) (frame float color color color int int) (declare (let $4:int (toint int (floor float (mul float u:float $0:float))))) (declare (let $5:int (toint int (floor float (mul float v:float $0:float))))) (set $3:color (choose color (irem int (paren int (add int $4:int $5:int)) 2) $2:color $1:color)))",
    ),
    (
        "surface gloss(color Cs = 0.8, float Ks = 0.1) { normal Nf = normalize(N); Ci = (1 - Ks) * Cs * diffuse(Nf) + Ks * reflection(Nf, 1.5); }",
        "(surface gloss (input color Cs (promote color 0.8f)) (input float Ks 0.1f) (frame color float normal) (declare (let $2:normal (normalize normal N:normal))) (set Ci:closure (add closure (mul closure (mul color (promote color (paren float (sub float (promote float 1) $1:float))) $0:color) (cl_diffuse closure $2:normal)) (mul closure $1:float (cl_reflection closure $2:normal 1.5f)))))",
    ),
    (
        "shader turns(int n = 0, output int r = 0) { for (int i = 0; i < n; ++i) r = r + 1; }",
        "(shader turns (input int n 0) (output int r 0) (frame int int int) (for (declare (let $2:int 0)) (lt int $2:int $0:int) (++x int $2) (set $1:int (add int $1:int 1))))",
    ),
    (
        "shader spin(output float r = 0) { while (1) { } }",
        "(shader spin (output float r (promote float 0)) (frame float) (while 1 (block)))",
    ),
    (
        "surface pick(int on = 0, float a = 0, output float r = 0) { if (on) r = a; else r = 2; }",
        "(surface pick (input int on 0) (input float a (promote float 0)) (output float r (promote float 0)) (frame int float float) (if $0:int (set $2:float $1:float) (set $2:float (promote float 2))))",
    ),
    (
        "shader places(output float low = 0, output float high = 0) { float t[3] = {1, 2, 3}; low = t[-1]; high = t[3]; }",
        "(shader places (output float low (promote float 0)) (output float high (promote float 0)) (frame float float float[3]) (declare (let $2:float[3] (list (promote float 1) (promote float 2) (promote float 3)))) (set $0:float (part $2:float[3] (neg int 1))) (set $1:float (part $2:float[3] 3)))",
    ),
    (
        "void sw(output float a, output float b) { float t = a; a = b; b = t; } shader swaps(output float x = 1, output float y = 2) { sw(x, y); }",
        "(function void (formals (out float) (out float)) (frame float float float) (declare (let $2:float $0:float)) (set $0:float $1:float) (set $1:float $2:float)) (shader swaps (output float x (promote float 1)) (output float y (promote float 2)) (frame float float) (call 0 void (out $0:float) (out $1:float)))",
    ),
    (
        "void leave(output float a) { a = 5; exit(); } shader leaves(output float r = 1) { leave(r); r = 7; }",
        "(function void (formals (out float)) (frame float) (set $0:float (promote float 5)) exit) (shader leaves (output float r (promote float 1)) (frame float) (call 0 void (out $0:float)) (set $0:float (promote float 7)))",
    ),
    (
        "surface mixer(float a = 3, float b = 0, output float r = 0) { r = mix(a, b, 0); }",
        "(surface mixer (input float a (promote float 3)) (input float b (promote float 0)) (output float r (promote float 0)) (frame float float float) (set $2:float (mix float $0:float $1:float (promote float 0))))",
    ),
    (
        "surface weighs() { Ci = 3 * (0.333333333 * (0.5 * diffuse(N))) + 0 * emission(); }",
        "(surface weighs (frame) (set Ci:closure (add closure (mul closure 3 (paren closure (mul closure 0.333333333f (paren closure (mul closure 0.5f (cl_diffuse closure N:normal)))))) (mul closure 0 (cl_emission closure)))))",
    ),
    (
        "struct pair { float x; int n; }; pair twice(pair a) { pair b = a; b.x *= 2; b.n += 1; return b; } shader pairs(output float r = 0, output int k = 0) { pair p = {1, 2}; p = twice(p); r = p.x; k = twice(p).n; }",
        "(struct float int) (function struct0 (formals struct0) (frame struct0 struct0) (declare (let $1:struct0 $0:struct0)) (update mul float $1.0:float (promote float 2)) (update add int $1.1:int 1) (return $1:struct0)) (shader pairs (output float r (promote float 0)) (output int k 0) (frame float int struct0) (declare (let $2:struct0 (list (promote float 1) 2))) (set $2:struct0 (call 0 struct0 $2:struct0)) (set $0:float $2.0:float) (set $1:int (part_of struct0 (call 0 struct0 $2:struct0) it.1:int)))",
    ),
    (
        "shader skips(output int r = 0) { int i = 0; do { ++i; if (i == 2) continue; if (i > 3) break; r += i; } while (1); }",
        "(shader skips (output int r 0) (frame int int) (declare (let $1:int 0)) (do (block (++x int $1) (if (eq int $1:int 2) continue) (if (gt int $1:int 3) break) (update add int $0:int $1:int)) 1))",
    ),
    (
        "shader counts(output int before = 0, output int after = 0) { int i = 3; before = i++; after = i; }",
        "(shader counts (output int before 0) (output int after 0) (frame int int int) (declare (let $2:int 3)) (set $0:int (x++ int $2)) (set $1:int $2:int))",
    ),
    (
        "shader guards(output int a = 0, output int b = 0, output int c = 0, output int d = 0, output int n = 0) { a = 0 && ++n; b = 2 || ++n; c = 3 && ++n; d = 0 || ++n; }",
        "(shader guards (output int a 0) (output int b 0) (output int c 0) (output int d 0) (output int n 0) (frame int int int int int) (set $0:int (and 0 (++x int $4))) (set $1:int (or 2 (++x int $4))) (set $2:int (and 3 (++x int $4))) (set $3:int (or 0 (++x int $4))))",
    ),
    (
        "float stop() { exit(); return 1; } shader early(output float p = 4, float a = stop(), output float r = 2) { r = 3; }",
        "(function float (formals) (frame) exit (return (promote float 1))) (shader early (output float p (promote float 4)) (input float a (call 0 float)) (output float r (promote float 2)) (frame float float float) (set $2:float (promote float 3)))",
    ),
];

#[test]
fn examples_say_their_trees(rt: HostRuntime) -> Result<(), Fail> {
    all_say(&rt, rt.alloc(), &EXAMPLES)
}
