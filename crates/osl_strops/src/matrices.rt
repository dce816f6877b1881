ghost use Rattle.std.specs.Prelude.{◌≡◌, ◌≤◌, ◌<◌, if◌then◌else◌};
ghost use Rattle.osl_value.specs.Numbers.{fx_add, fx_mul};
ghost use Rattle.osl_value.specs.Geometry.{place, number_at, element_at, mat_mul, transpose, transform};

use osl_value::Fx;

/// The nearest place to `i` in a row of `len` items.
pub fn place(i: i32, len: u32) -> u32
    requires some { 1 ≤ len }
    requires short { len ≤ 1024 }
    ensures { result ≡ place i len }
{
    (i.max(0) as u32).min(len - 1)
}

/// The product of two matrices.
pub fn mat_mul(a: &[Fx; 16], b: &[Fx; 16]) -> [Fx; 16]
    ensures { result ≡ mat_mul a.now b.now }
{
    [
        product(a, b, 0, 0),
        product(a, b, 0, 1),
        product(a, b, 0, 2),
        product(a, b, 0, 3),
        product(a, b, 1, 0),
        product(a, b, 1, 1),
        product(a, b, 1, 2),
        product(a, b, 1, 3),
        product(a, b, 2, 0),
        product(a, b, 2, 1),
        product(a, b, 2, 2),
        product(a, b, 2, 3),
        product(a, b, 3, 0),
        product(a, b, 3, 1),
        product(a, b, 3, 2),
        product(a, b, 3, 3),
    ]
}

/// Rows and columns exchanged.
pub fn transpose(a: &[Fx; 16]) -> [Fx; 16]
    ensures { result ≡ transpose a.now }
{
    [
        a[0], a[4], a[8], a[12], a[1], a[5], a[9], a[13], a[2], a[6], a[10], a[14], a[3], a[7],
        a[11], a[15],
    ]
}

/// A triple times the matrix; a point is moved by the last row too.
pub fn transform(m: &[Fx; 16], p: &[Fx; 3], is_point: bool) -> [Fx; 3]
    ensures { result ≡ transform is_point m.now p.now }
{
    [
        transformed(m, p, is_point, 0),
        transformed(m, p, is_point, 1),
        transformed(m, p, is_point, 2),
    ]
}

/// The element in row i and column j.
fn element(m: &[Fx; 16], i: usize, j: usize) -> Fx
    requires row { i < 4 }
    requires column { j < 4 }
    ensures { result ≡ element_at m.now i j }
{
    m[4 * i + j]
}

/// Row i of a times column j of b, summed from left to right.
fn product(a: &[Fx; 16], b: &[Fx; 16], i: usize, j: usize) -> Fx
    requires row { i < 4 }
    requires column { j < 4 }
    ensures { result ≡ fx_add
        (fx_add
        (fx_add (fx_mul (element_at a.now i 0) (element_at b.now 0 j)) (fx_mul (element_at a.now i 1) (element_at b.now 1 j)))
        (fx_mul (element_at a.now i 2) (element_at b.now 2 j)))
        (fx_mul (element_at a.now i 3) (element_at b.now 3 j)) }
{
    let first = element(a, i, 0).mul(element(b, 0, j));
    let second = element(a, i, 1).mul(element(b, 1, j));
    let third = element(a, i, 2).mul(element(b, 2, j));
    let fourth = element(a, i, 3).mul(element(b, 3, j));
    first.add(second).add(third).add(fourth)
}

/// Component j of a triple times the upper three rows.
fn turned(m: &[Fx; 16], p: &[Fx; 3], j: usize) -> Fx
    requires { j < 4 }
    ensures { result ≡ fx_add
        (fx_add (fx_mul (number_at p.now 0) (element_at m.now 0 j)) (fx_mul (number_at p.now 1) (element_at m.now 1 j)))
        (fx_mul (number_at p.now 2) (element_at m.now 2 j)) }
{
    let first = component(p, 0).mul(element(m, 0, j));
    let second = component(p, 1).mul(element(m, 1, j));
    let third = component(p, 2).mul(element(m, 2, j));
    first.add(second).add(third)
}

/// The float at a place of a triple.
fn component(p: &[Fx; 3], i: usize) -> Fx
    requires { i < 3 }
    ensures { result ≡ number_at p.now i }
{
    p[i]
}

/// Component j of a triple times the matrix.
fn transformed(m: &[Fx; 16], p: &[Fx; 3], is_point: bool, j: usize) -> Fx
    requires { j < 3 }
    ensures { let turned = fx_add
        (fx_add (fx_mul (number_at p.now 0) (element_at m.now 0 j)) (fx_mul (number_at p.now 1) (element_at m.now 1 j)))
        (fx_mul (number_at p.now 2) (element_at m.now 2 j)) in
        result ≡ (if is_point then fx_add turned (element_at m.now 3 j) else turned) }
{
    let turned = turned(m, p, j);
    if is_point {
        turned.add(element(m, 3, j))
    } else {
        turned
    }
}
