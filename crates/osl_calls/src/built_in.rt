//! The functions that are there before any is declared (OSL specification, "Standard library"): a line for each name.
//!
//! `arraylength` is not among them: it takes arrays of any type and length.

use osl_overload::Kind;
use osl_typed::Callee::{self, Exit, Operation, SubstrToEnd};
use osl_value::{Base, OpName, Ty};

/// A function: its name, what is called, and what it takes.
pub(crate) struct Line(
    pub(crate) &'static [u8],
    pub(crate) Callee,
    pub(crate) &'static [Takes],
);

/// The kinds of the parameters, none of them output, and the kind of what it gives.
pub(crate) struct Takes(pub(crate) &'static [Kind], pub(crate) Kind);

const INT: Kind = Kind::Value(Ty {
    base: Base::Int,
    len: 0,
});

const FLOAT: Kind = Kind::Value(Ty {
    base: Base::Float,
    len: 0,
});

const COLOR: Kind = Kind::Value(Ty {
    base: Base::Color,
    len: 0,
});

const POINT: Kind = Kind::Value(Ty {
    base: Base::Point,
    len: 0,
});

const VECTOR: Kind = Kind::Value(Ty {
    base: Base::Vector,
    len: 0,
});

const NORMAL: Kind = Kind::Value(Ty {
    base: Base::Normal,
    len: 0,
});

const MATRIX: Kind = Kind::Value(Ty {
    base: Base::Matrix,
    len: 0,
});

const STRING: Kind = Kind::Value(Ty {
    base: Base::Str,
    len: 0,
});

const CLOSURE: Kind = Kind::Value(Ty {
    base: Base::Closure,
    len: 0,
});

/// One float or triple.
const ONE: &[Takes] = &[
    Takes(&[FLOAT], FLOAT),
    Takes(&[COLOR], COLOR),
    Takes(&[POINT], POINT),
    Takes(&[VECTOR], VECTOR),
    Takes(&[NORMAL], NORMAL),
];

/// One number or triple.
const ONE_OR_INT: &[Takes] = &[
    Takes(&[FLOAT], FLOAT),
    Takes(&[COLOR], COLOR),
    Takes(&[POINT], POINT),
    Takes(&[VECTOR], VECTOR),
    Takes(&[NORMAL], NORMAL),
    Takes(&[INT], INT),
];

/// Two floats, or two triples of one type.
const TWO: &[Takes] = &[
    Takes(&[FLOAT, FLOAT], FLOAT),
    Takes(&[COLOR, COLOR], COLOR),
    Takes(&[POINT, POINT], POINT),
    Takes(&[VECTOR, VECTOR], VECTOR),
    Takes(&[NORMAL, NORMAL], NORMAL),
];

/// Two numbers of one type, or two triples of one type.
const TWO_OR_INTS: &[Takes] = &[
    Takes(&[FLOAT, FLOAT], FLOAT),
    Takes(&[COLOR, COLOR], COLOR),
    Takes(&[POINT, POINT], POINT),
    Takes(&[VECTOR, VECTOR], VECTOR),
    Takes(&[NORMAL, NORMAL], NORMAL),
    Takes(&[INT, INT], INT),
];

/// Three floats, or three triples of one type.
const THREE: &[Takes] = &[
    Takes(&[FLOAT, FLOAT, FLOAT], FLOAT),
    Takes(&[COLOR, COLOR, COLOR], COLOR),
    Takes(&[POINT, POINT, POINT], POINT),
    Takes(&[VECTOR, VECTOR, VECTOR], VECTOR),
    Takes(&[NORMAL, NORMAL, NORMAL], NORMAL),
];

/// Three numbers of one type, or three triples of one type.
const THREE_OR_INTS: &[Takes] = &[
    Takes(&[FLOAT, FLOAT, FLOAT], FLOAT),
    Takes(&[COLOR, COLOR, COLOR], COLOR),
    Takes(&[POINT, POINT, POINT], POINT),
    Takes(&[VECTOR, VECTOR, VECTOR], VECTOR),
    Takes(&[NORMAL, NORMAL, NORMAL], NORMAL),
    Takes(&[INT, INT, INT], INT),
];

/// Three floats, or three triples of one type, or two triples and a float.
const BLEND: &[Takes] = &[
    Takes(&[FLOAT, FLOAT, FLOAT], FLOAT),
    Takes(&[COLOR, COLOR, COLOR], COLOR),
    Takes(&[POINT, POINT, POINT], POINT),
    Takes(&[VECTOR, VECTOR, VECTOR], VECTOR),
    Takes(&[NORMAL, NORMAL, NORMAL], NORMAL),
    Takes(&[COLOR, COLOR, FLOAT], COLOR),
    Takes(&[POINT, POINT, FLOAT], POINT),
    Takes(&[VECTOR, VECTOR, FLOAT], VECTOR),
    Takes(&[NORMAL, NORMAL, FLOAT], NORMAL),
];

/// The lines, in their order.
pub(crate) const LINES: [Line; 41] = [
    Line(b"abs", Operation(OpName::Abs), ONE_OR_INT),
    Line(b"sign", Operation(OpName::Sign), ONE),
    Line(b"floor", Operation(OpName::Floor), ONE),
    Line(b"ceil", Operation(OpName::Ceil), ONE),
    Line(b"round", Operation(OpName::Round), ONE),
    Line(b"trunc", Operation(OpName::Trunc), ONE),
    Line(b"sqrt", Operation(OpName::Sqrt), ONE),
    Line(b"inversesqrt", Operation(OpName::InverseSqrt), ONE),
    Line(b"min", Operation(OpName::Min), TWO_OR_INTS),
    Line(b"max", Operation(OpName::Max), TWO_OR_INTS),
    Line(b"fmod", Operation(OpName::Fmod), TWO),
    Line(b"mod", Operation(OpName::Mod), TWO),
    Line(b"step", Operation(OpName::Step), TWO),
    Line(b"clamp", Operation(OpName::Clamp), THREE_OR_INTS),
    Line(b"mix", Operation(OpName::Mix), BLEND),
    Line(b"smoothstep", Operation(OpName::SmoothStep), THREE),
    Line(
        b"dot",
        Operation(OpName::Dot),
        &[Takes(&[VECTOR, VECTOR], FLOAT)],
    ),
    Line(
        b"cross",
        Operation(OpName::Cross),
        &[Takes(&[VECTOR, VECTOR], VECTOR)],
    ),
    Line(
        b"length",
        Operation(OpName::Length),
        &[Takes(&[VECTOR], FLOAT)],
    ),
    Line(
        b"distance",
        Operation(OpName::Distance),
        &[Takes(&[POINT, POINT], FLOAT)],
    ),
    Line(
        b"normalize",
        Operation(OpName::Normalize),
        &[Takes(&[VECTOR], VECTOR), Takes(&[NORMAL], NORMAL)],
    ),
    Line(
        b"transform",
        Operation(OpName::Transform),
        &[
            Takes(&[MATRIX, POINT], POINT),
            Takes(&[MATRIX, VECTOR], VECTOR),
        ],
    ),
    Line(
        b"transpose",
        Operation(OpName::Transpose),
        &[Takes(&[MATRIX], MATRIX)],
    ),
    Line(
        b"concat",
        Operation(OpName::Concat),
        &[Takes(&[STRING, STRING], STRING)],
    ),
    Line(
        b"strlen",
        Operation(OpName::StrLen),
        &[Takes(&[STRING], INT)],
    ),
    Line(
        b"startswith",
        Operation(OpName::StartsWith),
        &[Takes(&[STRING, STRING], INT)],
    ),
    Line(
        b"endswith",
        Operation(OpName::EndsWith),
        &[Takes(&[STRING, STRING], INT)],
    ),
    Line(
        b"substr",
        Operation(OpName::SubStr),
        &[Takes(&[STRING, INT, INT], STRING)],
    ),
    Line(b"substr", SubstrToEnd, &[Takes(&[STRING, INT], STRING)]),
    Line(
        b"getchar",
        Operation(OpName::GetChar),
        &[Takes(&[STRING, INT], INT)],
    ),
    Line(b"exit", Exit, &[Takes(&[], Kind::Void)]),
    Line(
        b"emission",
        Operation(OpName::ClEmission),
        &[Takes(&[], CLOSURE)],
    ),
    Line(
        b"background",
        Operation(OpName::ClBackground),
        &[Takes(&[], CLOSURE)],
    ),
    Line(
        b"holdout",
        Operation(OpName::ClHoldout),
        &[Takes(&[], CLOSURE)],
    ),
    Line(
        b"transparent",
        Operation(OpName::ClTransparent),
        &[Takes(&[], CLOSURE)],
    ),
    Line(
        b"diffuse",
        Operation(OpName::ClDiffuse),
        &[Takes(&[NORMAL], CLOSURE)],
    ),
    Line(
        b"translucent",
        Operation(OpName::ClTranslucent),
        &[Takes(&[NORMAL], CLOSURE)],
    ),
    Line(
        b"oren_nayar",
        Operation(OpName::ClOrenNayar),
        &[Takes(&[NORMAL, FLOAT], CLOSURE)],
    ),
    Line(
        b"reflection",
        Operation(OpName::ClReflection),
        &[Takes(&[NORMAL, FLOAT], CLOSURE)],
    ),
    Line(
        b"refraction",
        Operation(OpName::ClRefraction),
        &[Takes(&[NORMAL, FLOAT], CLOSURE)],
    ),
    Line(
        b"debug",
        Operation(OpName::ClDebug),
        &[Takes(&[STRING], CLOSURE)],
    ),
];
