//! Numbers, texts, values and their types. The expected numbers were computed by whole-number arithmetic outside the
//! program.

use osl_value::{Base, Fx, LayerValues, OpName, Part, PartList, Primitive, Text, Ty, Value};
use std::alloc::Global;
use std::test::Fail;

fn of_one(op: OpName, x: Fx) -> Fx {
    match op {
        OpName::Neg => x.neg(),
        OpName::Abs => x.abs(),
        OpName::Sign => x.sign(),
        OpName::Floor => x.floor(),
        OpName::Ceil => x.ceil(),
        OpName::Round => x.round(),
        OpName::Trunc => x.trunc(),
        OpName::Sqrt => x.sqrt(),
        _ => x.inversesqrt(),
    }
}

fn of_two(op: OpName, a: Fx, b: Fx) -> Fx {
    match op {
        OpName::Add => a.add(b),
        OpName::Sub => a.sub(b),
        OpName::Mul => a.mul(b),
        OpName::Div => a.div(b),
        OpName::Min => a.min(b),
        OpName::Max => a.max(b),
        OpName::Fmod => a.fmod(b),
        OpName::Mod => a.modulo(b),
        _ => a.step(b),
    }
}

fn of_three(op: OpName, a: Fx, b: Fx, c: Fx) -> Fx {
    match op {
        OpName::Clamp => a.clamp(b, c),
        OpName::Mix => a.mix(b, c),
        _ => Fx::smoothstep(a, b, c),
    }
}

// The units of 1.0, and of the largest float.
const ONE: i64 = 1_000_000_000;

const MOST: i64 = i64::MAX;

// The operation, its argument and its value, in units.
static OF_ONE: [(OpName, i64, i64); 62] = [
    (OpName::Neg, 0, 0),
    (OpName::Neg, 1, -1),
    (OpName::Neg, MOST, -MOST),
    (OpName::Neg, -MOST, MOST),
    (OpName::Abs, 0, 0),
    (OpName::Abs, -1, 1),
    (OpName::Abs, MOST, MOST),
    (OpName::Abs, -MOST, MOST),
    (OpName::Sign, 0, 0),
    (OpName::Sign, 1, ONE),
    (OpName::Sign, -1, -ONE),
    (OpName::Sign, MOST, ONE),
    (OpName::Sign, -MOST, -ONE),
    (OpName::Floor, 0, 0),
    (OpName::Floor, -1, -ONE),
    (OpName::Floor, 1, 0),
    (OpName::Floor, -500_000_000, -ONE),
    (OpName::Floor, ONE, ONE),
    (OpName::Floor, -ONE, -ONE),
    (OpName::Floor, MOST, 9_223_372_036_000_000_000),
    (OpName::Floor, -MOST, -MOST),
    (OpName::Floor, -9_223_372_036_500_000_000, -MOST),
    (OpName::Ceil, 0, 0),
    (OpName::Ceil, -1, 0),
    (OpName::Ceil, 1, ONE),
    (OpName::Ceil, 500_000_000, ONE),
    (OpName::Ceil, ONE, ONE),
    (OpName::Ceil, -ONE, -ONE),
    (OpName::Ceil, MOST, MOST),
    (OpName::Ceil, -MOST, -9_223_372_036_000_000_000),
    (OpName::Round, 0, 0),
    (OpName::Round, 500_000_000, ONE),
    (OpName::Round, 499_999_999, 0),
    (OpName::Round, -500_000_000, -ONE),
    (OpName::Round, -499_999_999, 0),
    (OpName::Round, 1_500_000_000, 2_000_000_000),
    (OpName::Round, -1_500_000_000, -2_000_000_000),
    (OpName::Round, 2_500_000_000, 3_000_000_000),
    (OpName::Round, MOST, MOST),
    (OpName::Round, -MOST, -MOST),
    (OpName::Round, 9_223_372_036_500_000_000, MOST),
    (OpName::Trunc, 0, 0),
    (OpName::Trunc, -1, 0),
    (OpName::Trunc, 999_999_999, 0),
    (OpName::Trunc, -999_999_999, 0),
    (OpName::Trunc, MOST, 9_223_372_036_000_000_000),
    (OpName::Trunc, -MOST, -9_223_372_036_000_000_000),
    (OpName::Sqrt, 2_000_000_000, 1_414_213_562),
    (OpName::Sqrt, 0, 0),
    (OpName::Sqrt, 1, 31_622),
    (OpName::Sqrt, -1, 0),
    (OpName::Sqrt, ONE, ONE),
    (OpName::Sqrt, 4_000_000_000, 2_000_000_000),
    (OpName::Sqrt, MOST, 96_038_388_349_944),
    (OpName::Sqrt, -MOST, 0),
    (OpName::Sqrt, 3, 54_772),
    (OpName::InverseSqrt, 4_000_000_000, 500_000_000),
    (OpName::InverseSqrt, 0, 0),
    (OpName::InverseSqrt, 1, 31_623_553_222_440),
    (OpName::InverseSqrt, -ONE, 0),
    (OpName::InverseSqrt, MOST, 10_412),
    (OpName::InverseSqrt, 2_000_000_000, 707_106_781),
];

#[test]
fn functions_of_one_float(rt: HostRuntime) {
    for &(op, x, want) in &OF_ONE {
        assert_eq!(rt; of_one(op, Fx::from_units(x)).units(), want, "{op:?} {x}");
    }
}

// The operation, its two arguments and its value.
static OF_TWO: [(OpName, i64, i64, i64); 73] = [
    (OpName::Add, ONE, 500_000_000, 1_500_000_000),
    (OpName::Add, MOST, 1, MOST),
    (OpName::Add, MOST, MOST, MOST),
    (OpName::Add, -MOST, -1, -MOST),
    (OpName::Add, -MOST, MOST, 0),
    (OpName::Add, 0, 0, 0),
    (OpName::Add, MOST, -MOST, 0),
    (OpName::Sub, ONE, 500_000_000, 500_000_000),
    (OpName::Sub, -MOST, 1, -MOST),
    (OpName::Sub, MOST, -MOST, MOST),
    (OpName::Sub, -MOST, MOST, -MOST),
    (OpName::Sub, MOST, MOST, 0),
    (OpName::Sub, 0, -MOST, MOST),
    (OpName::Sub, 0, 0, 0),
    (
        OpName::Mul,
        9_000_000_000_000_000_000,
        9_000_000_000_000_000_000,
        MOST,
    ),
    (
        OpName::Mul,
        -9_000_000_000_000_000_000,
        9_000_000_000_000_000_000,
        -MOST,
    ),
    (OpName::Mul, 1, 500_000_000, 0),
    (OpName::Mul, -1, 500_000_000, 0),
    (OpName::Mul, -3, 500_000_000, -1),
    (OpName::Mul, MOST, ONE, MOST),
    (OpName::Mul, -MOST, ONE, -MOST),
    (OpName::Mul, MOST, MOST, MOST),
    (OpName::Mul, -MOST, -MOST, MOST),
    (OpName::Mul, MOST, 0, 0),
    (OpName::Mul, MOST, 1, 9_223_372_036),
    (OpName::Mul, 999_999_999, 999_999_999, 999_999_998),
    (OpName::Mul, -1, 1, 0),
    (OpName::Div, ONE, 0, 0),
    (OpName::Div, -MOST, 0, 0),
    (OpName::Div, 0, 0, 0),
    (OpName::Div, ONE, 3_000_000_000, 333_333_333),
    (OpName::Div, -ONE, 3_000_000_000, -333_333_333),
    (OpName::Div, 2_000_000_000, -3_000_000_000, -666_666_666),
    (OpName::Div, MOST, ONE, MOST),
    (OpName::Div, MOST, 1, MOST),
    (OpName::Div, -MOST, 1, -MOST),
    (OpName::Div, 1, MOST, 0),
    (OpName::Div, MOST, MOST, ONE),
    (OpName::Div, MOST, -1, -MOST),
    (OpName::Div, -MOST, -1, MOST),
    (OpName::Div, 500_000_000, ONE, 500_000_000),
    (OpName::Min, MOST, -MOST, -MOST),
    (OpName::Min, 1, 0, 0),
    (OpName::Min, -1, -2, -2),
    (OpName::Max, MOST, -MOST, MOST),
    (OpName::Max, 1, 0, 1),
    (OpName::Max, -1, -2, -1),
    (OpName::Fmod, -ONE, 3_000_000_000, -ONE),
    (OpName::Fmod, ONE, -3_000_000_000, ONE),
    (OpName::Fmod, 7_000_000_000, 3_000_000_000, ONE),
    (OpName::Fmod, -7_000_000_000, -3_000_000_000, -ONE),
    (OpName::Fmod, 6_000_000_000, -3_000_000_000, 0),
    (OpName::Fmod, MOST, 0, 0),
    (OpName::Fmod, MOST, 1, 0),
    (OpName::Fmod, -MOST, MOST, 0),
    (OpName::Fmod, -MOST, 2_000_000_000, -854_775_807),
    (OpName::Fmod, MOST, -2, 1),
    (OpName::Mod, -ONE, 3_000_000_000, 2_000_000_000),
    (OpName::Mod, ONE, -3_000_000_000, -2_000_000_000),
    (OpName::Mod, 7_000_000_000, 3_000_000_000, ONE),
    (OpName::Mod, -7_000_000_000, -3_000_000_000, -ONE),
    (OpName::Mod, 6_000_000_000, -3_000_000_000, 0),
    (OpName::Mod, MOST, 0, 0),
    (OpName::Mod, 1, MOST, 1),
    (OpName::Mod, -1, MOST, 9_223_372_036_854_775_806),
    (OpName::Mod, 1, -MOST, -9_223_372_036_854_775_806),
    (OpName::Mod, -MOST, 2_000_000_000, 1_145_224_193),
    (OpName::Mod, MOST, -2, -1),
    (OpName::Step, 0, 0, ONE),
    (OpName::Step, 1, 0, 0),
    (OpName::Step, 0, 1, ONE),
    (OpName::Step, MOST, -MOST, 0),
    (OpName::Step, -MOST, -MOST, ONE),
];

#[test]
fn functions_of_two_floats(rt: HostRuntime) {
    for &(op, a, b, want) in &OF_TWO {
        let got = of_two(op, Fx::from_units(a), Fx::from_units(b));
        assert_eq!(rt; got.units(), want, "{op:?} {a} {b}");
    }
}

// The operation, its three arguments and its value.
static OF_THREE: [(OpName, i64, i64, i64, i64); 20] = [
    (OpName::Clamp, 5_000_000_000, 0, ONE, ONE),
    (OpName::Clamp, -5_000_000_000, 0, ONE, 0),
    (OpName::Clamp, 500_000_000, 0, ONE, 500_000_000),
    (OpName::Clamp, 0, MOST, -MOST, -MOST),
    (OpName::Clamp, 0, -MOST, MOST, 0),
    (OpName::Mix, ONE, 3_000_000_000, 500_000_000, 2_000_000_000),
    (OpName::Mix, MOST, -MOST, 0, MOST),
    (OpName::Mix, MOST, -MOST, ONE, -MOST),
    (
        OpName::Mix,
        MOST,
        MOST,
        500_000_000,
        9_223_372_036_854_775_806,
    ),
    (OpName::Mix, 0, ONE, MOST, MOST),
    (OpName::Mix, ONE, 0, -MOST, MOST),
    (OpName::SmoothStep, 0, ONE, 250_000_000, 156_250_000),
    (OpName::SmoothStep, 0, ONE, 0, 0),
    (OpName::SmoothStep, 0, ONE, ONE, ONE),
    (OpName::SmoothStep, 0, ONE, -1, 0),
    (OpName::SmoothStep, 0, 0, 0, ONE),
    (OpName::SmoothStep, ONE, 0, 0, 0),
    (OpName::SmoothStep, ONE, 0, 500_000_000, 0),
    (OpName::SmoothStep, -MOST, MOST, 0, ONE),
    (OpName::SmoothStep, 0, 1, 0, 0),
];

#[test]
fn functions_of_three_floats(rt: HostRuntime) {
    for &(op, a, b, c, want) in &OF_THREE {
        let got = of_three(op, Fx::from_units(a), Fx::from_units(b), Fx::from_units(c));
        assert_eq!(rt; got.units(), want, "{op:?} {a} {b} {c}");
    }
}

#[test]
fn conversions(rt: HostRuntime) {
    assert_eq!(rt; Fx::from_units(i64::MIN).units(), -i64::MAX);
    assert!(rt; Fx::from_units(i64::MIN) == Fx::from_units(-i64::MAX));
    assert!(rt; Fx::ZERO < Fx::ONE);
    assert_eq!(rt; Fx::from_int(i32::MIN).units(), -2_147_483_648_000_000_000);
    let table = [
        (-1, 0),
        (1_999_999_999, 1),
        (-1_999_999_999, -1),
        (2_147_483_647_999_999_999, i32::MAX),
        (2_147_483_648_000_000_000, i32::MAX),
        (-2_147_483_648_999_999_999, i32::MIN),
        (i64::MAX, i32::MAX),
        (-i64::MAX, i32::MIN),
    ];
    for (units, want) in table {
        assert_eq!(rt; Fx::from_units(units).to_int(), want, "{units}");
    }
}

#[test]
fn operations_have_names(rt: HostRuntime) {
    for op in OpName::ALL {
        let back = OpName::from_name(op.name().as_bytes());
        assert!(rt; back == Some(op), "{op:?}");
    }
    let table = [
        ("toint", OpName::ToInt),
        ("cl_oren_nayar", OpName::ClOrenNayar),
        ("dowhile", OpName::DoWhile),
    ];
    for (name, op) in table {
        assert!(rt; op.name() == name);
    }
    assert!(rt; OpName::from_name(b"Add").is_none());
    assert!(rt; OpName::from_name(b"").is_none());
    assert!(rt; OpName::While.is_control() && !OpName::Mul.is_control());
    assert!(rt; OpName::AAssign.updates() && !OpName::ARef.updates());
    assert!(rt; Primitive::OrenNayar.name() == "oren_nayar");
    assert!(rt;
        Ty::only(Base::Str).base.name() == "string" && Base::Closure.name() == "closure color"
    );
}

fn made(ty: Ty, nums: Vec<i64>, texts: Vec<Text>) -> bool {
    Value::new(ty, nums, texts).is_some()
}

#[test]
fn values_fit_their_types(rt: HostRuntime) -> Result<(), Fail> {
    let alloc = rt.alloc();
    let table = [
        (Base::Int, 0, 1, 0, i64::from(i32::MAX), true),
        (Base::Int, 0, 1, 0, i64::from(i32::MAX) + 1, false),
        (Base::Float, 0, 1, 0, i64::MAX, true),
        (Base::Float, 0, 1, 0, i64::MIN, false),
        (Base::Color, 0, 3, 0, 1, true),
        (Base::Normal, 0, 2, 0, 1, false),
        (Base::Matrix, 0, 16, 0, 1, true),
        (Base::Str, 0, 0, 1, 0, true),
        (Base::Str, 0, 0, 0, 0, false),
        (Base::Closure, 0, 0, 0, 0, false),
        (Base::Point, 1024, 3072, 0, 1, true),
        (Base::Int, 1025, 1025, 0, 1, false),
        (Base::Str, 2, 0, 2, 0, true),
    ];
    for (base, len, numbers, texts, number, want) in table {
        let nums = vec![in alloc; number; numbers]?;
        let mut empties = Vec::new(alloc);
        for _i in 0..texts {
            empties.push(Text::empty(alloc))?;
        }
        assert_eq!(rt;
            made(Ty { base, len }, nums, empties),
            want,
            "{base:?} {len} {number}"
        );
    }
    Ok(())
}

#[test]
fn values_are_read_written_and_copied(rt: HostRuntime) -> Result<(), Fail> {
    let alloc = rt.alloc();
    let ints = Ty {
        base: Base::Int,
        len: 2,
    };
    let mut value = Value::zero(alloc, ints)?;
    assert_eq!(rt; value.nums().len(), 2);
    assert!(rt; value.ty() == ints);
    value.set_int(1, -7);
    assert_eq!(rt; value.int_at(1), -7);
    assert!(rt; value.copy()?.nums() == [0, -7].as_slice());
    let mut color = Value::zero(
        alloc,
        Ty {
            base: Base::Color,
            len: 0,
        },
    )?;
    assert_eq!(rt; color.nums().len(), 3);
    color.set_float(2, Fx::ONE);
    assert!(rt; color.float_at(2) == Fx::ONE);
    let mut strings = Value::zero(
        alloc,
        Ty {
            base: Base::Str,
            len: 0,
        },
    )?;
    assert_eq!(rt; strings.texts().len(), 1);
    strings.set_text(0, text(alloc, b"osl")?);
    for held in strings.copy()?.texts() {
        assert!(rt; held.bytes() == b"osl".as_slice());
    }
    let values = LayerValues::new(vec![in alloc; Some(color), None]?);
    assert_eq!(rt; values.as_slice().len(), 2);
    Ok(())
}

fn text(alloc: Global, bytes: &[u8]) -> Result<Text, Fail> {
    let bytes = Vec::from_slice(alloc, bytes)?;
    Ok(Text::new(bytes).ok_or("long")?)
}

#[test]
fn texts_are_short(rt: HostRuntime) -> Result<(), Fail> {
    let alloc = rt.alloc();
    assert!(rt; Text::new(vec![in alloc; 7; 512]?).is_some());
    assert!(rt; Text::new(vec![in alloc; 7; 513]?).is_none());
    let one = text(alloc, b"ab")?;
    assert!(rt; one.equal(&one.copy()?));
    assert!(rt; !one.equal(&text(alloc, b"ac")?));
    assert!(rt; Text::empty(alloc).bytes().is_empty());
    assert!(rt; one.into_bytes().as_slice() == b"ab".as_slice());
    Ok(())
}

#[test]
fn parts_are_listed(rt: HostRuntime) -> Result<(), Fail> {
    let alloc = rt.alloc();
    let part = Part {
        weight: [Fx::ONE; 3],
        prim: Primitive::Debug,
        normal: [Fx::ZERO; 3],
        number: Fx::ZERO,
        text: text(alloc, b"a")?,
    };
    let copy = part.copy()?;
    assert!(rt; copy.text.equal(&part.text) && copy.prim == Primitive::Debug);
    let parts = PartList::new(vec![in alloc; part, copy]?);
    assert_eq!(rt; parts.as_slice().len(), 2);
    assert_eq!(rt; parts.into_vec().len(), 2);
    Ok(())
}
