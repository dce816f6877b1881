//! Calls: which function or operation is meant, and what it is passed.

use super::{Row, all_say_behind};
use std::test::Fail;

/// Calls of declared functions, with output arguments of each kind.
static DECLARED: [Row; 4] = [
    (
        "made(i); give(f); give(r); give(c.g); give(fs[i]); give(cs[i].b); give(cs[i][j]); give(m[i][j]);",
        "(call 0 struct0 (promote float $1:int)) (call 1 void (out $3:float)) (call 1 void (out $0:float)) (call 1 void (out (part $5:color .1))) (call 1 void (out (part $17:float[3] $1:int))) (call 1 void (out (part $18:color[2] $1:int .2))) (call 1 void (out (part $18:color[2] $1:int $2:int))) (call 1 void (out (part $10:matrix $1:int $2:int)))",
    ),
    (
        "give(q.a); give(q.b.r); give(e.p.a); give(e.p.b[i]); give(e.w.x); swap(f, g); swap(g, c.r); none();",
        "(call 1 void (out $19.0:float)) (call 1 void (out (part $19.1:color .0))) (call 1 void (out $20.1.0:float)) (call 1 void (out (part $20.1.1:color $1:int))) (call 1 void (out (part $20.2:vector .0))) (call 2 void (out $3:float) (out $4:float)) (call 2 void (out $4:float) (out (part $5:color .0))) (call 8 void)",
    ),
    (
        "fill(q, fs, i); fill(e.p, fs, j); take(0, k); take(h, Ci); take(k * 2, k);",
        "(call 3 void (out $19:struct0) (out $17:float[3]) $1:int) (call 3 void (out $20.1:struct0) (out $17:float[3]) $2:int) (call 4 void (promote closure 0) (out $14:closure)) (call 4 void $15:closure (out Ci:closure)) (call 4 void (mul closure $14:closure 2) (out $14:closure))",
    ),
    (
        "pick(f, i); pick(i, f); pick(1.5, 2); pick(c, d); pick(c, f); pick(f, g);",
        "(call 5 float $3:float $1:int) (call 6 int $1:int $3:float) (call 5 float 1.5f 2) (call 7 color $5:color $6:color) (call 7 color $5:color (promote color $3:float)) (call 7 color (promote color $3:float) (promote color $4:float))",
    ),
];

/// Calls of built-in functions, with the operation and the promotions that the least cost chooses.
static BUILT_IN: [Row; 7] = [
    (
        "abs(i); abs(f); abs(c); abs(p); min(i, j); min(i, f); max(c, f); clamp(i, 0, j); clamp(f, 0, 1);",
        "(abs int $1:int) (abs float $3:float) (abs color $5:color) (abs point $7:point) (min int $1:int $2:int) (min float (promote float $1:int) $3:float) (max color $5:color (promote color $3:float)) (clamp int $1:int 0 $2:int) (clamp float $3:float (promote float 0) (promote float 1))",
    ),
    (
        "mix(c, d, f); mix(c, d, c); mix(c, f, g); mix(f, g, 0); mix(v, v, i);",
        "(mix color $5:color $6:color $3:float) (mix color $5:color $6:color $5:color) (mix color $5:color (promote color $3:float) $4:float) (mix float $3:float $4:float (promote float 0)) (mix vector $8:vector $8:vector (promote float $1:int))",
    ),
    (
        "fmod(f, g); mod(f, g); step(f, g); step(f, c); smoothstep(f, g, 1);",
        "(fmod float $3:float $4:float) (mod float $3:float $4:float) (step float $3:float $4:float) (step color (promote color $3:float) $5:color) (smoothstep float $3:float $4:float (promote float 1))",
    ),
    (
        "sign(f); floor(f); ceil(f); round(f); trunc(c); sqrt(4); inversesqrt(f);",
        "(sign float $3:float) (floor float $3:float) (ceil float $3:float) (round float $3:float) (trunc color $5:color) (sqrt float (promote float 4)) (inversesqrt float $3:float)",
    ),
    (
        "dot(p, v); cross(v, n); length(n); distance(p, v); normalize(v); normalize(n); transform(m, p); transform(m, v); transpose(m);",
        "(dot float (promote vector $7:point) $8:vector) (cross vector $8:vector (promote vector $9:normal)) (length float (promote vector $9:normal)) (distance float $7:point (promote point $8:vector)) (normalize vector $8:vector) (normalize normal $9:normal) (transform point $10:matrix $7:point) (transform vector $10:matrix $8:vector) (transpose matrix $10:matrix)",
    ),
    (
        "concat(t, w); strlen(t); startswith(t, w); endswith(t, w); substr(t, i, j); substr(t, i); getchar(t, i); arraylength(fs); arraylength(q.c);",
        "(concat string $12:string $13:string) (strlen int $12:string) (startswith int $12:string $13:string) (endswith int $12:string $13:string) (substr string $12:string $1:int $2:int) (substr string $12:string $1:int 512) (getchar int $12:string $1:int) (arraylength int $17:float[3]) (arraylength int $19.2:int[2])",
    ),
    (
        "emission(); background(); holdout(); transparent(); diffuse(n); translucent(v); oren_nayar(n, f); reflection(N, i); refraction(p, f); debug(t); exit();",
        "(cl_emission closure) (cl_background closure) (cl_holdout closure) (cl_transparent closure) (cl_diffuse closure $9:normal) (cl_translucent closure (promote normal $8:vector)) (cl_oren_nayar closure $9:normal $3:float) (cl_reflection closure N:normal (promote float $1:int)) (cl_refraction closure (promote normal $7:point) $3:float) (cl_debug closure $12:string) exit",
    ),
];

#[test]
fn calls_say_the_function_and_its_arguments(rt: HostRuntime) -> Result<(), Fail> {
    all_say_behind(&rt, rt.alloc(), &DECLARED)
}

#[test]
fn built_in_calls_say_the_operation(rt: HostRuntime) -> Result<(), Fail> {
    all_say_behind(&rt, rt.alloc(), &BUILT_IN)
}
