//! Operators, choices, steps, assignments, casts and constructors.

use super::{Row, all_say_behind};
use std::test::Fail;

/// Operators, with the order of their operands and what these are promoted to.
static OPERATORS: [Row; 10] = [
    (
        "i + j; i - j; i * j; i / j; i % j;",
        "(add int $1:int $2:int) (sub int $1:int $2:int) (mul int $1:int $2:int) (div int $1:int $2:int) (irem int $1:int $2:int)",
    ),
    (
        "i << j; i >> j; i & j; i | j; i ^ j;",
        "(shl int $1:int $2:int) (shr int $1:int $2:int) (bitand int $1:int $2:int) (bitor int $1:int $2:int) (xor int $1:int $2:int)",
    ),
    (
        "f < g; f <= g; f > g; f >= g; f == g; f != g;",
        "(lt int $3:float $4:float) (le int $3:float $4:float) (gt int $3:float $4:float) (ge int $3:float $4:float) (eq int $3:float $4:float) (neq int $3:float $4:float)",
    ),
    (
        "i && f; f || i; i && j || f && g;",
        "(and $1:int $3:float) (or $3:float $1:int) (or (and $1:int $2:int) (and $3:float $4:float))",
    ),
    (
        "-i; -f; -c; +p; ~i; !f; !i; - -i;",
        "(neg int $1:int) (neg float $3:float) (neg color $5:color) (assign point $7:point) (compl int $1:int) (not int $3:float) (not int $1:int) (neg int (neg int $1:int))",
    ),
    (
        "f - g - 1; f - (g - 1); i - j * 2; (i - j) * 2;",
        "(sub float (sub float $3:float $4:float) (promote float 1)) (sub float $3:float (paren float (sub float $4:float (promote float 1)))) (sub int $1:int (mul int $2:int 2)) (mul int (paren int (sub int $1:int $2:int)) 2)",
    ),
    (
        "i - f; f - i; c / f; f / c; i * c; c - i;",
        "(sub float (promote float $1:int) $3:float) (sub float $3:float (promote float $1:int)) (div color $5:color (promote color $3:float)) (div color (promote color $3:float) $5:color) (mul color (promote color $1:int) $5:color) (sub color $5:color (promote color $1:int))",
    ),
    (
        "p - v; v - p; p - n; p - p; n - N; p + f;",
        "(sub vector (promote vector $7:point) $8:vector) (sub vector $8:vector (promote vector $7:point)) (sub vector (promote vector $7:point) (promote vector $9:normal)) (sub point $7:point $7:point) (sub normal $9:normal N:normal) (add point $7:point (promote point $3:float))",
    ),
    (
        "i < f; f >= i; c == f; p != n; t == w; m != l;",
        "(lt int (promote float $1:int) $3:float) (ge int $3:float (promote float $1:int)) (eq int $5:color (promote color $3:float)) (neq int (promote vector $7:point) (promote vector $9:normal)) (eq int $12:string $13:string) (neq int $10:matrix $11:matrix)",
    ),
    (
        "m * l; k + h; k * f; f * k; c * k; k * c; i * h;",
        "(mul matrix $10:matrix $11:matrix) (add closure $14:closure $15:closure) (mul closure $14:closure $3:float) (mul closure $3:float $14:closure) (mul closure $5:color $14:closure) (mul closure $14:closure $5:color) (mul closure $1:int $15:closure)",
    ),
];

static CHOICES: [Row; 2] = [
    (
        "i ? f : g; f ? i : g; i ? c : f; j ? p : n; i ? f : j ? g : 1;",
        "(choose float $1:int $3:float $4:float) (choose float $3:float (promote float $1:int) $4:float) (choose color $1:int $5:color (promote color $3:float)) (choose vector $2:int (promote vector $7:point) (promote vector $9:normal)) (choose float $1:int $3:float (choose float $2:int $4:float (promote float 1)))",
    ),
    (
        "i ? k : 0; i ? 0 : k; i ? q : e.p; i ? exit() : none();",
        "(choose closure $1:int $14:closure (promote closure 0)) (choose closure $1:int (promote closure 0) $14:closure) (choose struct0 $1:int $19:struct0 $20.1:struct0) (choose void $1:int exit (call 8 void))",
    ),
];

/// Assignments and steps.
static CHANGES: [Row; 7] = [
    (
        "i = j; f = i; c = f; c = i; p = v; k = h; t = w; m = l; fs = fs; q = e.p;",
        "(set $1:int $2:int) (set $3:float (promote float $1:int)) (set $5:color (promote color $3:float)) (set $5:color (promote color $1:int)) (set $7:point (promote point $8:vector)) (set $14:closure $15:closure) (set $12:string $13:string) (set $10:matrix $11:matrix) (set $17:float[3] $17:float[3]) (set $19:struct0 $20.1:struct0)",
    ),
    (
        "k = 0; f = g = i; i = (j = 2); f = c.r = 1; Ci = k; r = f;",
        "(set $14:closure (promote closure 0)) (set $3:float (set $4:float (promote float $1:int))) (set $1:int (paren int (set $2:int 2))) (set $3:float (set (part $5:color .0) (promote float 1))) (set Ci:closure $14:closure) (set $0:float $3:float)",
    ),
    (
        "c.g = i; fs[i] = g; cs[i].b = f; cs[0] = c; m[i][j] = 1; q.b = c; q.b.g = f; q.c[j] = i; e.p = q; e.p.c[i] = j; e.w.z = f;",
        "(set (part $5:color .1) (promote float $1:int)) (set (part $17:float[3] $1:int) $4:float) (set (part $18:color[2] $1:int .2) $3:float) (set (part $18:color[2] 0) $5:color) (set (part $10:matrix $1:int $2:int) (promote float 1)) (set $19.1:color $5:color) (set (part $19.1:color .1) $3:float) (set (part $19.2:int[2] $2:int) $1:int) (set $20.1:struct0 $19:struct0) (set (part $20.1.2:int[2] $1:int) $2:int) (set (part $20.2:vector .2) $3:float)",
    ),
    (
        "f += i; f -= g; c *= f; c /= d; p -= v; p -= n; n += p;",
        "(update add float $3:float (promote float $1:int)) (update sub float $3:float $4:float) (update mul color $5:color (promote color $3:float)) (update div color $5:color $6:color) (update sub vector $7:point $8:vector) (update sub vector $7:point (promote vector $9:normal)) (update add vector $9:normal (promote vector $7:point))",
    ),
    (
        "i <<= j; i >>= 2; i &= j; i |= j; i ^= j; m *= l; k += h; k *= f; k *= c; k *= 2;",
        "(update shl int $1:int $2:int) (update shr int $1:int 2) (update bitand int $1:int $2:int) (update bitor int $1:int $2:int) (update xor int $1:int $2:int) (update mul matrix $10:matrix $11:matrix) (update add closure $14:closure $15:closure) (update mul closure $14:closure $3:float) (update mul closure $14:closure $5:color) (update mul closure $14:closure 2)",
    ),
    (
        "c.g += i; fs[i] -= g; cs[i].b *= f; m[i][j] /= f; q.b -= d; q.c[j] ^= i; e.p.a *= 2; f += g *= i;",
        "(update add float (part $5:color .1) (promote float $1:int)) (update sub float (part $17:float[3] $1:int) $4:float) (update mul float (part $18:color[2] $1:int .2) $3:float) (update div float (part $10:matrix $1:int $2:int) $3:float) (update sub color $19.1:color $6:color) (update xor int (part $19.2:int[2] $2:int) $1:int) (update mul float $20.1.0:float (promote float 2)) (update add float $3:float (update mul float $4:float (promote float $1:int)))",
    ),
    (
        "++i; --i; i++; i--; ++f; f--; j = i++ - --j;",
        "(++x int $1) (--x int $1) (x++ int $1) (x-- int $1) (++x float $3) (x-- float $3) (set $2:int (sub int (x++ int $1) (--x int $2)))",
    ),
];

/// Literals, global variables, casts and constructors.
static VALUES: [Row; 5] = [
    (
        "1; 0x10; 0xffffffff; 1.5; 2.; 1e2; \"a b\";",
        "1 16 -1 1.5f 2f 100f \"a b\"",
    ),
    (
        "P; N; Ng; I; u; Ci; v;",
        "P:point N:normal Ng:normal I:vector u:float Ci:closure $8:vector",
    ),
    (
        "(int) f; (int) i; (float) i; (color) i; (color) f; (vector) p; (point) c; (int) (float) i; (float) i - f;",
        "(toint int $3:float) (assign int $1:int) (assign float $1:int) (assign color $1:int) (assign color $3:float) (assign vector $7:point) (assign point $5:color) (toint int (assign float $1:int)) (sub float (assign float $1:int) $3:float)",
    ),
    (
        "int(f); float(i); color(f); point(i); normal(v); color(i, f, 0.5); point(f, 1, g);",
        "(toint int $3:float) (assign float $1:int) (assign color $3:float) (assign point $1:int) (assign normal $8:vector) (triple color $1:int $3:float 0.5f) (triple point $3:float 1 $4:float)",
    ),
    (
        "matrix(f); matrix(1); matrix(0, 1, 2, 3, 4, i, 6, 7, 8, 9, f, 11, 12, 13, 14, 15.5);",
        "(matrix matrix $3:float) (matrix matrix 1) (matrix matrix 0 1 2 3 4 $1:int 6 7 8 9 $3:float 11 12 13 14 15.5f)",
    ),
];

#[test]
fn operators_say_their_operands_in_order(rt: HostRuntime) -> Result<(), Fail> {
    all_say_behind(&rt, rt.alloc(), &OPERATORS)?;
    all_say_behind(&rt, rt.alloc(), &CHOICES)
}

#[test]
fn assignments_say_their_target_and_value(rt: HostRuntime) -> Result<(), Fail> {
    all_say_behind(&rt, rt.alloc(), &CHANGES)
}

#[test]
fn casts_and_constructors_say_their_operations(rt: HostRuntime) -> Result<(), Fail> {
    all_say_behind(&rt, rt.alloc(), &VALUES)
}
