//! Whole sources: kinds of shaders, parameters with defaults and metadata, structures and functions.

use super::{Row, all_say};
use std::test::Fail;

static SHADERS: [Row; 10] = [
    (
        "displacement bump(float by = 0.1) { P += by * N; N = normalize(N); N.x = P.y; }",
        "(displacement bump (input float by 0.1f) (frame float) (update add vector P:point (promote vector (mul normal (promote normal $0:float) N:normal))) (set N:normal (normalize normal N:normal)) (set (part N:normal .0) (part P:point .1)))",
    ),
    (
        "volume fog(color tint = 1, float depth = 0) { Ci = tint * emission() + depth * transparent(); }",
        "(volume fog (input color tint (promote color 1)) (input float depth (promote float 0)) (frame color float) (set Ci:closure (add closure (mul closure $0:color (cl_emission closure)) (mul closure $1:float (cl_transparent closure)))))",
    ),
    (
        "shader begins(output float a = u, float b = a = 2, color c = a - b, float d[3] = {1, b}, closure color e = 0, string f = \"x\", matrix g = matrix(1), float h = d[1]) { a = h; }",
        "(shader begins (output float a u:float) (input float b (set $0:float (promote float 2))) (input color c (promote color (sub float $0:float $1:float))) (input float[3] d (list (promote float 1) $1:float)) (input closure e (promote closure 0)) (input string f \"x\") (input matrix g (matrix matrix 1)) (input float h (part $3:float[3] 1)) (frame float float color float[3] closure string matrix float) (set $0:float $7:float))",
    ),
    (
        "surface tells [[string help = \"a b\", int n[2] = {1, -2}]] (float a = 1 [[int lockgeom = 0, color tint = color(1, 0.5, 0)]], output color b = 0 [[float min = 1]]) { }",
        "(surface tells (datum string help \"a b\") (datum int[2] n (list 1 (neg int 2))) (input float a (promote float 1) (datum int lockgeom 0) (datum color tint (triple color 1 0.5f 0))) (output color b (promote color 0) (datum float min (promote float 1))) (frame float color))",
    ),
    (
        "struct edge { float x, y[2]; string z; }; struct box { int n; edge one; color c[3]; edge two; }; box make(edge from, int n) { box made = {n, from}; made.two.y[1] = from.x; return made; } shader nests(output float r = 0) { edge q = {1}; box p = make(q, 2); p.two = p.one; p.c[1].g = p.one.y[0]; r = make(p.two, p.n).two.y[1]; }",
        "(struct float float[2] string) (struct int struct0 color[3] struct0) (function struct1 (formals struct0 int) (frame struct0 int struct1) (declare (let $2:struct1 (list $1:int $0:struct0))) (set (part $2.3.1:float[2] 1) $0.0:float) (return $2:struct1)) (shader nests (output float r (promote float 0)) (frame float struct0 struct1) (declare (let $1:struct0 (list (promote float 1)))) (declare (let $2:struct1 (call 0 struct1 $1:struct0 2))) (set $2.3:struct0 $2.1:struct0) (set (part $2.2:color[3] 1 .1) (part $2.1.1:float[2] 0)) (set $0:float (part_of struct1 (call 0 struct1 $2.3:struct0 $2.0:int) it.3.1:float[2] 1)))",
    ),
    (
        "float half(float x) { return x / 2; } color half(color x) { return x / 2; } float both(float a, color b) { float a = half(a); { int a = 1; } return a + half(b).r; } shader calls(output float r = 0) { r = both(half(1), half(u)); }",
        "(function float (formals float) (frame float) (return (div float $0:float (promote float 2)))) (function color (formals color) (frame color) (return (div color $0:color (promote color 2)))) (function float (formals float color) (frame float color float int) (declare (let $2:float (call 0 float $0:float))) (block (declare (let $3:int 1))) (return (add float $2:float (part_of color (call 1 color $1:color) it:color .0)))) (shader calls (output float r (promote float 0)) (frame float) (set $0:float (call 2 float (call 0 float (promote float 1)) (promote color (call 0 float u:float)))))",
    ),
    (
        "string min(int a, float b) { return \"x\"; } float glow(closure color a) { return 1; } int glow(float a) { return 2; } surface chooses() { min(1, 1.5); min(1, 1); min(1.5, 1.5); glow(0); glow(0 * emission()); glow(2); }",
        "(function string (formals int float) (frame int float) (return \"x\")) (function float (formals closure) (frame closure) (return (promote float 1))) (function int (formals float) (frame float) (return 2)) (surface chooses (frame) (call 0 string 1 1.5f) (min int 1 1) (min float 1.5f 1.5f) (call 2 int (promote float 0)) (call 1 float (mul closure 0 (cl_emission closure))) (call 2 int (promote float 2)))",
    ),
    (
        "color tint(int a) { if (a) return a; else return 0.5; } closure color glow(float a) { if (a < 0) return 0; return a * emission(); } void stop(int a) { while (a) return; } surface gives() { Ci = glow(tint(1).g); stop(2); }",
        "(function color (formals int) (frame int) (if $0:int (return (promote color $0:int)) (return (promote color 0.5f)))) (function closure (formals float) (frame float) (if (lt int $0:float (promote float 0)) (return (promote closure 0))) (return (mul closure $0:float (cl_emission closure)))) (function void (formals int) (frame int) (while $0:int (return _))) (surface gives (frame) (set Ci:closure (call 1 closure (part_of color (call 0 color 1) it:color .1))) (call 2 void 2))",
    ),
    (
        "void scale(output float all[2], float by, output color last) { int i; for (i = 0; i < arraylength(all); ++i) all[i] *= by; last = all[1] * u; } shader scales(output float r[2] = {1, 2}, output color c = 0) { scale(r, 3, c); }",
        "(function void (formals (out float[2]) float (out color)) (frame float[2] float color int) (declare $3:int) (for (set $3:int 0) (lt int $3:int (arraylength int $0:float[2])) (++x int $3) (update mul float (part $0:float[2] $3:int) $1:float)) (set $2:color (promote color (mul float (part $0:float[2] 1) u:float)))) (shader scales (output float[2] r (list (promote float 1) (promote float 2))) (output color c (promote color 0)) (frame float[2] color) (call 0 void (out $0:float[2]) (promote float 3) (out $1:color)))",
    ),
    (
        "shader hides(float abs = 1, output float r = 0) { r = abs(abs); { int abs = 2; r = abs(abs) - abs; } }",
        "(shader hides (input float abs (promote float 1)) (output float r (promote float 0)) (frame float float int) (set $1:float (abs float $0:float)) (block (declare (let $2:int 2)) (set $1:float (promote float (sub int (abs int $2:int) $2:int)))))",
    ),
];

#[test]
fn shaders_say_their_trees(rt: HostRuntime) -> Result<(), Fail> {
    all_say(&rt, rt.alloc(), &SHADERS)
}
