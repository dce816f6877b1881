//! Operations on strings and matrices. The expected numbers were computed by whole-number arithmetic outside the
//! program.

use osl_strops::{
    concat, endswith, getchar, mat_mul, place, startswith, strlen, substr, transform, transpose,
};
use osl_value::{Fx, Text};
use std::alloc::Global;
use std::test::Fail;

fn text(alloc: Global, bytes: &[u8]) -> Result<Text, Fail> {
    let bytes = Vec::from_slice(alloc, bytes)?;
    Ok(Text::new(bytes).ok_or("long")?)
}

// The start, the length and the part of "shader" that they ask for.
static PARTS: [(i32, i32, &str); 10] = [
    (0, 6, "shader"),
    (2, 3, "ade"),
    (-3, 2, "de"),
    (-3, 512, "der"),
    (-9, 2, "sh"),
    (6, 2, ""),
    (9, 2, ""),
    (1, -1, ""),
    (i32::MIN, i32::MAX, "shader"),
    (i32::MAX, i32::MAX, ""),
];

#[test]
fn parts_of_a_string(rt: HostRuntime) -> Result<(), Fail> {
    let alloc = rt.alloc();
    let whole = text(alloc, b"shader")?;
    for &(start, len, want) in &PARTS {
        let part = substr(alloc, &whole, start, len)?;
        assert!(rt; part.bytes() == want.as_bytes(), "{start} {len}");
    }
    Ok(())
}

#[test]
fn strings_are_joined_and_compared(rt: HostRuntime) -> Result<(), Fail> {
    let alloc = rt.alloc();
    let first = text(alloc, b"osl")?;
    let second = text(alloc, b"sl")?;
    assert!(rt; concat(alloc, &first, &second)?.bytes() == b"oslsl".as_slice());
    let long = Text::new(vec![in alloc; 97; 511]?).ok_or("long")?;
    let joined = concat(alloc, &long, &first)?;
    assert_eq!(rt; strlen(&joined), 512);
    assert_eq!(rt; getchar(&joined, 511), 111);
    assert_eq!(rt;
        (startswith(&first, &second), endswith(&first, &second)),
        (0, 1)
    );
    assert_eq!(rt;
        (startswith(&joined, &long), endswith(&second, &first)),
        (1, 0)
    );
    Ok(())
}

// A place and the byte of "shader" there, and the place in a row of 4 that is nearest to it.
static PLACES: [(i32, i32, u32); 7] = [
    (0, 115, 0),
    (3, 100, 3),
    (5, 114, 3),
    (6, 0, 3),
    (-1, 0, 0),
    (i32::MAX, 0, 3),
    (i32::MIN, 0, 0),
];

#[test]
fn places(rt: HostRuntime) -> Result<(), Fail> {
    let whole = text(rt.alloc(), b"shader")?;
    for &(i, byte, near) in &PLACES {
        assert_eq!(rt; getchar(&whole, i), byte, "{i}");
        assert_eq!(rt; place(i, 4), near, "{i}");
    }
    Ok(())
}

// Two matrices in quarters, and their product in sixteenths.
static LEFT: [i64; 16] = [2, 4, 6, 8, 10, 12, 14, 16, 18, 20, 22, 24, 26, 28, 30, 32];

static RIGHT: [i64; 16] = [
    7, -10, -21, -26, -25, -18, -5, 14, 39, 70, 107, 150, 199, 254, 315, 382,
];

static PRODUCT: [i64; 16] = [
    1740, 2360, 3100, 3960, 3500, 4728, 6268, 8120, 5260, 7096, 9436, 12280, 7020, 9464, 12604,
    16440,
];

// The second with rows and columns exchanged.
static TURNED: [i64; 16] = [
    7, -25, 39, 199, -10, -18, 70, 254, -21, -5, 107, 315, -26, 14, 150, 382,
];

/// The matrix of these numbers of units, each times a scale.
fn matrix(numbers: &[i64; 16], scale: i64) -> [Fx; 16] {
    numbers.map(|n: i64| Fx::from_units(n.saturating_mul(scale)))
}

/// Three floats of so many eighths.
fn eighths(a: i64, b: i64, c: i64) -> [Fx; 3] {
    [a, b, c].map(|n: i64| Fx::from_units(n.saturating_mul(125_000_000)))
}

#[test]
fn matrices(rt: HostRuntime) {
    let left = matrix(&LEFT, 250_000_000);
    let right = matrix(&RIGHT, 250_000_000);
    assert!(rt; mat_mul(&left, &right) == matrix(&PRODUCT, 62_500_000));
    assert!(rt; transpose(&right) == matrix(&TURNED, 250_000_000));
    let triple = eighths(8, 16, -12);
    assert!(rt; transform(&right, &triple, true) == eighths(195, 206, 247));
    assert!(rt; transform(&right, &triple, false) == eighths(-203, -302, -383));
}

// Two rows of the greatest float, one of the least, and one of zeros.
static ENDS: [i64; 16] = [
    i64::MAX,
    i64::MAX,
    i64::MAX,
    i64::MAX,
    i64::MAX,
    i64::MAX,
    i64::MAX,
    i64::MAX,
    -i64::MAX,
    -i64::MAX,
    -i64::MAX,
    -i64::MAX,
    0,
    0,
    0,
    0,
];

#[test]
fn a_product_sums_from_left_to_right(rt: HostRuntime) {
    let product = mat_mul(&[Fx::ONE; 16], &matrix(&ENDS, 1));
    assert!(rt; product == [Fx::ZERO; 16]);
}
