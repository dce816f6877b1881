//! Casts and constructors (OSL specification, section "Data types").

use super::{BEFORE, KINDS, Verdict, all_have_behind};
use std::test::Fail;

/// Casts and constructors that are taken.
static TAKEN: [&str; 33] = [
    "i = (int) f;",
    "f = (float) i;",
    "i = (int) i;",
    "f = (float) f;",
    "c = (color) i;",
    "c = (color) f;",
    "p = (point) f;",
    "v = (vector) p;",
    "n = (normal) c;",
    "c = (color) p;",
    "c = (color) c;",
    "p = (point) c;",
    "f = float(i);",
    "i = int(f);",
    "c = color(f);",
    "c = color(p);",
    "p = point(c);",
    "v = vector(1);",
    "n = normal(v);",
    "c = color(1, 2, 3);",
    "c = color(i, f, 1.5);",
    "p = point(1, 2, 3);",
    "v = vector(f, f, f);",
    "n = normal(0, 0, 1);",
    "m = matrix(1);",
    "m = matrix(f);",
    "m = matrix(1, 0, 0, 0, 0, 1, 0, 0, 0, 0, f, 0, i, 0, 0, 1);",
    "f = (float) (int) f;",
    "f = -(float) i;",
    "f = (float) m[0][0];",
    "f = color(1).r;",
    "f = matrix(1)[0][0];",
    "f = point(c)[2];",
];

/// Casts and constructors that are refused.
static REFUSED: [&str; 46] = [
    "(int) c;",
    "(float) c;",
    "(int) t;",
    "(float) t;",
    "(string) i;",
    "(string) t;",
    "(matrix) f;",
    "(matrix) m;",
    "(matrix) i;",
    "(closure color) 0;",
    "(closure color) k;",
    "(color) t;",
    "(color) m;",
    "(color) k;",
    "(point) q;",
    "(float) fs;",
    "(float) m[0];",
    "(color) exit();",
    "color();",
    "color(1, 2);",
    "color(1, 2, 3, 4);",
    "color(c, 1, 2);",
    "color(t);",
    "color(m);",
    "color(t, t, t);",
    "point(1, 2);",
    "point(p, p, p);",
    "matrix();",
    "matrix(1, 2);",
    "matrix(c);",
    "matrix(m);",
    "matrix(1, 0, 0, 0, 0, 1, 0, 0, 0, 0, 1, 0, 0, 0, 0);",
    "matrix(1, 0, 0, 0, 0, 1, 0, 0, 0, 0, 1, 0, 0, 0, 0, 1, 1);",
    "matrix(t, 0, 0, 0, 0, 1, 0, 0, 0, 0, 1, 0, 0, 0, 0, 1);",
    "float(c);",
    "float();",
    "int();",
    "float(1, 2);",
    "int(c);",
    "int(1, 2);",
    "string(t);",
    "string(1);",
    "closure color(0);",
    "closure color(k);",
    "color(m[0]);",
    "color(m[0], 1, 2);",
];

/// Casts and constructors with the type that they give.
static GIVEN: [&str; 6] = [
    "an_int = kind((int) f); an_int = kind(int(f)); a_float = kind((float) i); a_float = kind(float(i));",
    "a_color = kind((color) p); a_color = kind((color) f); a_color = kind(color(v)); a_color = kind(color(1)); a_color = kind(color(1, 2, 3));",
    "a_point = kind((point) c); a_point = kind((point) n); a_point = kind(point(v)); a_point = kind(point(1)); a_point = kind(point(1, 2, 3));",
    "a_vector = kind((vector) p); a_vector = kind((vector) c); a_vector = kind(vector(n)); a_vector = kind(vector(1)); a_vector = kind(vector(1, 2, 3));",
    "a_normal = kind((normal) v); a_normal = kind((normal) c); a_normal = kind(normal(p)); a_normal = kind(normal(1)); a_normal = kind(normal(1, 2, 3));",
    "a_matrix = kind(matrix(1)); a_matrix = kind(matrix(1, 0, 0, 0, 0, 1, 0, 0, 0, 0, 1, 0, 0, 0, 0, 1));",
];

/// Types that casts and constructors do not give.
static NOT_GIVEN: [&str; 7] = [
    "an_int = kind((float) i);",
    "a_float = kind(int(f));",
    "a_point = kind((vector) p);",
    "a_vector = kind((point) v);",
    "a_vector = kind(normal(v));",
    "a_point = kind(vector(1, 2, 3));",
    "a_vector = kind(point(1));",
];

#[test]
fn constructors_take_numbers_and_triples(rt: HostRuntime) -> Result<(), Fail> {
    all_have_behind(&rt, rt.alloc(), BEFORE, &TAKEN, Verdict::Typed)?;
    all_have_behind(&rt, rt.alloc(), BEFORE, &REFUSED, Verdict::Untyped)
}

#[test]
fn constructors_give_their_types(rt: HostRuntime) -> Result<(), Fail> {
    all_have_behind(&rt, rt.alloc(), KINDS, &GIVEN, Verdict::Typed)?;
    all_have_behind(&rt, rt.alloc(), KINDS, &NOT_GIVEN, Verdict::Untyped)
}
