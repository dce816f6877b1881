//! Operations on numbers. The expected numbers were computed by whole-number arithmetic outside the program.

use osl_ops::{geometric, ints, one, three, two};
use osl_value::{Fx, OpName};

#[test]
fn arithmetic_on_ints(rt: HostRuntime) {
    let found = [
        ints(OpName::Add, i32::MAX, 1),
        ints(OpName::Sub, i32::MIN, 1),
        ints(OpName::Mul, 65_537, 65_537),
        ints(OpName::Div, i32::MIN, -1),
        ints(OpName::Div, -7, 2),
        ints(OpName::Div, 7, 0),
        ints(OpName::IRem, -7, 2),
        ints(OpName::IRem, 7, 0),
        ints(OpName::IRem, i32::MIN, -1),
        ints(OpName::Neg, -3, 0),
        ints(OpName::Abs, -3, 0),
        ints(OpName::Abs, i32::MIN, 0),
    ];
    assert_eq!(rt;
        found,
        [
            i32::MIN,
            i32::MAX,
            131_073,
            i32::MIN,
            -3,
            0,
            -1,
            0,
            0,
            3,
            3,
            i32::MIN
        ]
    );
}

#[test]
fn bits_of_ints(rt: HostRuntime) {
    let found = [
        ints(OpName::Compl, 5, 0),
        ints(OpName::BitAnd, -12, 6),
        ints(OpName::BitOr, -12, 6),
        ints(OpName::Xor, -12, 6),
        ints(OpName::Shl, -7, 33),
        ints(OpName::Shl, 1, 31),
        ints(OpName::Shr, -7, 33),
        ints(OpName::Shr, -7, -31),
    ];
    assert_eq!(rt; found, [-6, 4, -10, -14, -14, i32::MIN, -4, -4]);
}

#[test]
fn comparisons_of_ints(rt: HostRuntime) {
    let found = [
        ints(OpName::Not, 0, 0),
        ints(OpName::Not, 7, 0),
        ints(OpName::Eq, 3, 3),
        ints(OpName::Neq, 3, 3),
        ints(OpName::Lt, -1, 0),
        ints(OpName::Gt, -1, 0),
        ints(OpName::Le, 0, 0),
        ints(OpName::Ge, -1, 0),
        ints(OpName::Min, -3, 2),
        ints(OpName::Max, -3, 2),
    ];
    assert_eq!(rt; found, [1, 0, 1, 0, 1, 0, 1, 0, -3, 2]);
}

/// Three floats of so many tenths.
fn tenths(a: i64, b: i64, c: i64) -> [Fx; 3] {
    [a, b, c].map(|n: i64| Fx::from_units(n.saturating_mul(100_000_000)))
}

#[test]
fn componentwise(rt: HostRuntime) {
    let triple = tenths(-15, 5, 20);
    let float = [Fx::from_units(500_000_000)];
    let mut out = [Fx::ZERO; 3];
    one(OpName::Round, &triple, &mut out);
    assert!(rt; out == tenths(-20, 10, 20));
    two(OpName::Mod, &triple, &float, &mut out);
    assert!(rt; out == tenths(0, 0, 0));
    two(OpName::Step, &float, &triple, &mut out);
    assert!(rt; out == tenths(0, 10, 10));
    three(OpName::Clamp, &triple, &float, &[Fx::ONE], &mut out);
    assert!(rt; out == tenths(5, 5, 10));
    let mut alone = [Fx::ONE];
    three(OpName::Mix, &float, &[Fx::ONE], &float, &mut alone);
    assert!(rt; alone == [Fx::from_units(750_000_000)]);
    one(OpName::Neg, &float, &mut out);
    assert!(rt; out == tenths(-5, -5, -5));
}

#[test]
fn geometry(rt: HostRuntime) {
    let a = tenths(30, -40, 120);
    let b = tenths(5, 20, -10);
    let mut float = [Fx::ZERO];
    geometric(OpName::Dot, &a, &b, &mut float);
    assert!(rt; float == [Fx::from_units(-18_500_000_000)]);
    geometric(OpName::Length, &a, &b, &mut float);
    assert!(rt; float == [Fx::from_units(13_000_000_000)]);
    geometric(OpName::Distance, &a, &b, &mut float);
    assert!(rt; float == [Fx::from_units(14_534_441_853)]);
    let mut triple = [Fx::ZERO; 3];
    geometric(OpName::Cross, &a, &b, &mut triple);
    assert!(rt; triple == tenths(-200, 90, 80));
    geometric(OpName::Normalize, &a, &b, &mut triple);
    assert!(rt; triple[0].units() == 230_769_230 && triple[2].units() == 923_076_923);
}
