//! Structures (OSL specification, section "Structures").

use super::{Verdict, all_have};
use std::test::Fail;

/// Sources whose structures are taken.
static TAKEN: [&str; 15] = [
    "struct r { }; surface s() { r a, b; a = b; }",
    "struct r { float a; }; surface s() {}",
    "struct r { float a, b[3]; color c; string d; matrix e; }; surface s() {}",
    "struct r { float a; }; struct q { r a; r b; int c; }; surface s() {}",
    "struct r { float a[1024]; }; surface s() {}",
    "struct r { float a; }; struct q { float a; }; surface s() {}",
    "struct r { float r; }; surface s() {}",
    "struct r { float P; int abs; }; surface s() {}",
    "struct r { float a; }; surface s() { r b; b.a = 1; r c = b; c = b; r d = {1}; float e = d.a; }",
    "struct r { float a; }; struct q { r b; float c[2]; }; surface s() { q d; d.b.a = 1; d.c[1] = d.b.a; r e = d.b; d.b = e; q g = {e, d.c}; q h = d; }",
    "struct r { color a; point b; }; surface s() { r c; c.a.r = 1; c.b.x = c.a[1]; c.a[2] = c.b[0]; }",
    "struct r { matrix a; }; surface s() { r c; c.a[0][1] = 1; float d = c.a[1][0]; }",
    "struct r { float a; }; r h(float b) { r c = {b}; return c; } surface s() { float d = h(1).a; r e = h(2); }",
    "struct r { float a; }; void h(output r b) { b.a = 1; } surface s() { r c; h(c); }",
    "struct r { float a; }; surface s() { float r = 1; r b; b.a = r; }",
];

/// Sources with a structure that is refused, or a use of one.
static REFUSED: [&str; 30] = [
    "struct r { }; surface s() { r a = {1}; }",
    "struct r { float a; }; struct r { int b; }; surface s() {}",
    "struct r { float a; int a; }; surface s() {}",
    "struct r { float a, a; }; surface s() {}",
    "struct r { float a; color b; float a[2]; }; surface s() {}",
    "struct r { closure color a; }; surface s() {}",
    "struct r { float a; closure color b; }; surface s() {}",
    "struct r { closure color a[2]; }; surface s() {}",
    "struct r { r a; }; surface s() {}",
    "struct r { q a; }; struct q { float a; }; surface s() {}",
    "struct r { missing a; }; surface s() {}",
    "struct r { float a; }; struct q { r a[2]; }; surface s() {}",
    "struct r { float a[0]; }; surface s() {}",
    "struct r { float a[1025]; }; surface s() {}",
    "struct r { float a; }; surface s() { r b[2]; }",
    "struct r { float a; }; surface s() { r b; b.c = 1; }",
    "struct r { float a; }; struct q { float a; }; surface s() { r b; q c = b; }",
    "struct r { float a; }; surface s() { r b = 1; }",
    "struct r { float a; }; surface s() { r b = {1, 2}; }",
    "struct r { float a; }; surface s() { r b = {\"x\"}; }",
    "struct r { float a; }; struct q { r b; }; surface s() { q c = {1}; }",
    "struct r { float a[2]; }; surface s() { r c = {1}; }",
    "struct r { float a; }; surface s() { r b; b[0] = 1; }",
    "struct r { float a; }; surface s() { r b; b + b; }",
    "struct r { float a; }; surface s() { r b, c; b == c; }",
    "struct r { float a; }; surface s() { r b; if (b) ; }",
    "struct r { float a; }; surface s() { float b; b.a = 1; }",
    "surface s() { r b; } ",
    "struct r { float a; }; surface s() { r = 1; }",
    "struct r { float a; }; surface s() { float b = r.a; }",
];

#[test]
fn structures_have_their_fields(rt: HostRuntime) -> Result<(), Fail> {
    all_have(&rt, rt.alloc(), &TAKEN, Verdict::Typed)?;
    all_have(&rt, rt.alloc(), &REFUSED, Verdict::Untyped)
}
