//! Which types operations take. What is expected was worked out by hand from the operations' definitions.

use super::flaw_of;
use crate::code::{body, code, op, symbol, type_named};
use osl_value::{Base, Memory, OpName, Ty};
use oso_code::{Class, FlawKind, Raw, Symbol};
use std::alloc::Global;
use std::process::Abort;
use std::test::Fail;

// Below, rows of which operations take or refuse which types of their arguments, in lists parted by commas. What is
// written comes first.

/// Copies and conversions.
static COPIES: [&str; 12] = [
    "assign takes int int, float int, float float, color int, color float, color color, point color, normal vector",
    "assign takes matrix matrix, string string, closure closure, int[3] int[3], color[2] color[2], float[1] float[1]",
    "assign refuses int float, int color, float color, float string, color matrix, color string, matrix int",
    "assign refuses matrix float, matrix color, int string, string int, string closure, closure float, closure color",
    "assign refuses color closure, float float[2], float[2] float, float[1] float, float float[1], color float[2]",
    "assign refuses float[2] color, int[3] int[2], float[2] int[3], color[2] point[2], point[2] float[2]",
    "assign refuses color color[2], nothing, int, float float float",
    "empty takes closure",
    "empty refuses float, color, string, closure closure, nothing",
    "toint takes int float",
    "toint refuses int int, float float, float int, int color, int string, int matrix, int float[1], float[1] float",
    "toint refuses int float float, int",
];

/// Arithmetic.
static ARITHMETIC: [&str; 34] = [
    "add takes int int int, float float float, color float float, color color float, point float normal",
    "add takes vector point color, closure closure closure",
    "add refuses float int float, float float int, float int int, int float float, int int float, int float int",
    "add refuses color int color, color int int, point vector int, float color float, float float vector",
    "add refuses float color color, int color color, matrix matrix matrix, string string string, closure closure color",
    "add refuses closure float closure, closure color color, color closure closure, int[3] int[3] int[3]",
    "add refuses int[2] int[2] int[2], float[2] float[2] float[2], float[2] float[2] float, color color[2] float",
    "add refuses color[2] color[2] color[2], int int, float float, int int int int, float float float float",
    "add refuses closure closure, closure closure closure closure, nothing",
    "sub takes int int int, float float float, vector point point, normal float color",
    "sub refuses int int float, float int float, float int int, float color float, color color int",
    "sub refuses closure closure closure, matrix matrix matrix, string string string, float[2] float[2] float[2]",
    "sub refuses float float, int int int int",
    "mul takes int int int, float float float, color float color, vector normal point, matrix matrix matrix",
    "mul takes closure int closure, closure float closure, closure color closure, closure closure int",
    "mul takes closure closure float, closure closure color",
    "mul refuses closure point closure, closure vector closure, closure normal closure, closure closure point",
    "mul refuses closure closure vector, closure closure normal, closure closure closure, closure matrix closure",
    "mul refuses closure closure string, closure color color, closure float float, float float closure",
    "mul refuses color color closure, closure float[1] closure, closure closure color[2], matrix matrix float",
    "mul refuses matrix float matrix, matrix int matrix, color matrix color, point point matrix, float matrix matrix",
    "mul refuses float int float, int int float, float int int, color color int, float color float",
    "mul refuses float[2] float[2] float[2], matrix[1] matrix matrix, string string int, closure closure",
    "mul refuses matrix matrix matrix matrix",
    "div takes int int int, float float float, color color color, normal normal float, point float float",
    "div refuses int int float, float int float, float int int, color color int, float float color, int color color",
    "div refuses closure closure float, matrix matrix matrix, matrix matrix float, string string string",
    "div refuses float[2] float[2] float, float float",
    "irem takes int int int",
    "irem refuses float float float, int float int, int int float, float int int, color color color, int string int",
    "irem refuses int[3] int[3] int[3], int int, int int int int",
    "neg takes int int, float float, color color, point normal, vector float",
    "neg refuses float int, int float, float color, color int, closure closure, matrix matrix, string string",
    "neg refuses float[2] float[2], int int int, float float float, int",
];

/// Bits and truth.
static BITS: [&str; 19] = [
    "compl takes int int",
    "compl refuses float float, int float, float int, color color, int[3] int[3], int string, int int int",
    "bitand takes int int int",
    "bitand refuses float float float, int int float, int float int, float int int, int color color, float[1] int int",
    "bitand refuses int int int[1], int int",
    "bitor takes int int int",
    "bitor refuses float float float, int int float, int float int, float int int, int closure closure",
    "bitor refuses int matrix matrix, int int int int",
    "xor takes int int int",
    "xor refuses float float float, int int float, int float int, float int int, color color color, int string string",
    "xor refuses int int",
    "shl takes int int int",
    "shl refuses int int float, int float int, float float int, float int int, color color int, int[3] int[3] int",
    "shl refuses int int",
    "shr takes int int int",
    "shr refuses int int float, int float int, float float int, float int int, int matrix int, int int int int",
    "not takes int int, int float",
    "not refuses float float, float int, int color, int normal, int matrix, int string, int closure, int int[1]",
    "not refuses int float[1], int int int, int",
];

/// Comparisons.
static COMPARISONS: [&str; 25] = [
    "eq takes int int int, int float float, int float color, int vector float, int point normal, int color color",
    "eq takes int matrix matrix, int string string",
    "eq refuses int int float, int float int, int int color, int normal int, int matrix float, int color matrix",
    "eq refuses int matrix int, int string int, int string float, int closure closure, int closure string",
    "eq refuses float int int, float float float, color color color, matrix matrix matrix, string string string",
    "eq refuses int int[3] int[3], int float[2] float[2], int color[2] color[2], int string[1] string[1]",
    "eq refuses int[1] int int, int string string[1], int int, int int int int, int string",
    "neq takes int int int, int float float, int float vector, int normal float, int color point, int matrix matrix",
    "neq takes int string string",
    "neq refuses int int float, int float int, int int point, int color int, int matrix vector, int string color",
    "neq refuses int closure closure, float int int, float float float, color float color, int string[2] string[2]",
    "neq refuses int matrix[1] matrix, int float, int float float float",
    "lt takes int int int, int float float",
    "lt refuses int int float, int float int, int color color, int point float, int float vector, int matrix matrix",
    "lt refuses int string string, int closure closure, float int int, float float float, int float[1] float[1]",
    "lt refuses int int, int float float float",
    "gt takes int int int, int float float",
    "gt refuses int int float, int float int, int normal normal, int float color, int string string, int matrix matrix",
    "gt refuses float float float, int int[3] int[3], int float",
    "le takes int int int, int float float",
    "le refuses int int float, int float int, int vector vector, int color float, int string string",
    "le refuses int closure closure, float int int, int[1] int int, int int int int",
    "ge takes int int int, int float float",
    "ge refuses int int float, int float int, int point point, int float normal, int string string, int matrix matrix",
    "ge refuses color float float, int float float[1], int int",
];

/// Elements and components.
static ELEMENTS: [&str; 38] = [
    "aref takes int int[3] int, float float[1] int, color color[2] int, matrix matrix[2] int, string string[2] int",
    "aref refuses float float[2] float, int int[3] float, int float[2] int, float int[3] int, float color[2] int",
    "aref refuses point color[2] int, string int[3] int, float[2] float[2] int, float[1] float[2] int, float float int",
    "aref refuses float color int, float matrix int, string string int, closure closure int, float int float[2]",
    "aref refuses float float[2] int[1], float float[2] color, float float[2], float float[2] int int",
    "aassign takes int[3] int int, float[1] int float, color[2] int color, matrix[2] int matrix, string[2] int string",
    "aassign refuses float[2] float float, int[3] float int, float[2] int int, int[3] int float, color[2] int point",
    "aassign refuses color[2] int float, string[2] int int, float[2] int float[2], float[2] int float[1]",
    "aassign refuses float int float, color int float, matrix int float, string int string, closure int closure",
    "aassign refuses float[2] int[1] float, float[2] float int, float[2] int, float[2], float[2] int float float",
    "aassign refuses float[2] int int float",
    "arraylength takes int int[3], int float[1], int color[2], int matrix[2], int string[2]",
    "arraylength refuses float float[2], float[2] float[2], int int, int float, int color, int matrix, int string",
    "arraylength refuses int closure, int float[2] int, int",
    "compref takes float color int, float point int, float vector int, float normal int",
    "compref refuses float color float, int color int, color color int, float float int, float matrix int",
    "compref refuses float string int, float closure int, float float[2] int, float color[2] int, float[1] color int",
    "compref refuses float color int[1], float color, float color int int",
    "compassign takes color int float, point int float, vector int float, normal int float",
    "compassign refuses color int int, color float float, color float int, color int color, color int string",
    "compassign refuses float int float, matrix int float, closure int float, float[2] int float, color[2] int float",
    "compassign refuses color int[1] float, color int float[1], color int, color int int float, color color int float",
    "mxcompref takes float matrix int int",
    "mxcompref refuses float matrix float int, float matrix int float, int matrix int int, color matrix int int",
    "mxcompref refuses matrix matrix int int, float color int int, float float int int, float matrix[1] int int",
    "mxcompref refuses float matrix int[1] int, float matrix int, float matrix int int int",
    "mxcompassign takes matrix int int float",
    "mxcompassign refuses matrix int int int, matrix float int float, matrix int float float, matrix int int color",
    "mxcompassign refuses matrix int int matrix, color int int float, float int int float, matrix[1] int int float",
    "mxcompassign refuses matrix int int float[1], matrix int float, matrix int int, matrix matrix int int float",
    "triple takes color int int int, point float float float, vector float int float, normal int float int",
    "triple refuses color float float, color float float float float, color float, color color",
    "triple refuses color color float float, color float float vector, color float string float",
    "triple refuses float float float float, float[2] float float float, matrix float float float",
    "triple refuses normal[1] float float float, color float float[1] float, color",
    "matrix takes matrix int, matrix float",
    "matrix refuses matrix color, matrix matrix, matrix string, matrix float[1], matrix float float, float float",
    "matrix refuses color float, matrix[1] float, matrix",
];

/// Componentwise functions.
static COMPONENTWISE: [&str; 49] = [
    "abs takes int int, float float, color color, normal point, vector float",
    "abs refuses float int, int float, color int, float vector, int color, matrix matrix, string string",
    "abs refuses closure closure, float[2] float[2], int[3] int[3], int int int, float float float",
    "sign takes float float, vector point, color float",
    "sign refuses int int, float int, int float, color int, float color, matrix matrix, float[1] float[1]",
    "sign refuses float float float",
    "floor takes float float, color color",
    "floor refuses int float, int int, float int, point int, float point, matrix matrix, float",
    "ceil takes float float, point vector",
    "ceil refuses int float, int int, float int, color int, float color, string string, float float float",
    "round takes float float, vector float",
    "round refuses int float, int int, float int, normal int, float normal, closure closure, float[2] float[2]",
    "trunc takes float float, normal normal",
    "trunc refuses int float, int int, float int, vector int, float vector, int color, color[2] color[2]",
    "sqrt takes float float, color color",
    "sqrt refuses float int, int int, int float, color int, float color, matrix matrix, string float, float",
    "inversesqrt takes float float, color point",
    "inversesqrt refuses float int, int int, int float, point int, float point, matrix float, float float float",
    "min takes int int int, float float float, color color float, point float float, normal vector color",
    "min refuses int int float, float int float, float int int, int float float, float color color, color int color",
    "min refuses matrix matrix matrix, string string string, closure closure closure, int[3] int[3] int[3], int int",
    "min refuses float float float float",
    "max takes int int int, float float float, vector float vector, color point normal",
    "max refuses int float int, float float int, float int int, int float float, float float color, vector vector int",
    "max refuses matrix matrix matrix, string string string, closure closure closure, float[2] float[2] float[2]",
    "max refuses float float, int int int int",
    "fmod takes float float float, color color float, point vector point",
    "fmod refuses int int int, float int float, float float int, int float float, float color float, color color int",
    "fmod refuses matrix matrix float, float float",
    "mod takes float float float, vector vector float, color float float",
    "mod refuses int int int, float int float, float float int, int float float, float float color, point int point",
    "mod refuses float[2] float[2] float, float float float float",
    "step takes float float float, vector float vector, color color float",
    "step refuses int int int, int float float, float int float, float float int, float color color, color int color",
    "step refuses color color matrix, float float",
    "clamp takes int int int int, float float float float, color color float float, point float vector normal",
    "clamp refuses int int int float, int float int int, float float int int, float int int int, int float float float",
    "clamp refuses float color float float, color color int int, matrix matrix float float",
    "clamp refuses string string string string, closure closure float float, float[2] float[2] float float",
    "clamp refuses float float float, int int int, int int int int int",
    "mix takes float float float float, color color color float, vector point normal color, color float float float",
    "mix refuses int int int int, float float float int, float int int float, float color color float",
    "mix refuses color color color int, float float float color, matrix matrix matrix float",
    "mix refuses closure closure closure float, string string string float, color[2] color[2] color[2] float",
    "mix refuses color color color, float float float float float",
    "smoothstep takes float float float float, color float float color, point point point point",
    "smoothstep refuses int int int int, float int int float, float float float int, int float float float",
    "smoothstep refuses float float float vector, color float int color, matrix float float matrix",
    "smoothstep refuses float[2] float[2] float[2] float[2], float float float, float float float float float",
];

/// Geometry.
static GEOMETRY: [&str; 27] = [
    "dot takes float vector vector, float normal color, float point vector",
    "dot refuses float float vector, float vector float, float float float, color color color, int vector vector",
    "dot refuses vector vector float, float matrix matrix, float matrix vector, float vector int",
    "dot refuses float float[2] float[2], float vector point[2], float[1] vector vector, float vector",
    "dot refuses float vector vector vector",
    "cross takes vector vector vector, color normal point, normal color color",
    "cross refuses float vector vector, vector vector float, vector float vector, vector vector int",
    "cross refuses vector matrix vector, matrix vector vector, vector point[2] vector, point[2] vector vector",
    "cross refuses vector vector, vector vector vector vector",
    "length takes float vector, float normal, float point, float color",
    "length refuses float float, int vector, vector vector, float int, float matrix, float string, float float[2]",
    "length refuses float color[2], int string, int float[2], float vector vector, float",
    "distance takes float point point, float color vector, float normal point",
    "distance refuses point point point, int point point, float point float, float float point, float float float",
    "distance refuses float matrix point, float point[2] point[2], float point, float point point point",
    "normalize takes vector vector, normal normal, normal color, color point",
    "normalize refuses float vector, vector float, float float, vector int, matrix matrix, vector matrix",
    "normalize refuses normal[1] normal, normal normal[1], normal normal float, vector",
    "transpose takes matrix matrix",
    "transpose refuses float matrix, matrix float, color color, matrix color, matrix[1] matrix, matrix matrix[1]",
    "transpose refuses matrix[1] matrix[1], matrix matrix matrix, matrix",
    "transform takes point matrix point, vector matrix vector, normal matrix normal, color matrix color",
    "transform takes point matrix vector, vector matrix point",
    "transform refuses point point matrix, point matrix, point point, point matrix float, point matrix int",
    "transform refuses float matrix point, matrix matrix point, matrix matrix matrix, point color point",
    "transform refuses point float point, point string point, point matrix[1] point, point matrix point[2]",
    "transform refuses point[2] matrix point, point matrix matrix point, point matrix point point",
];

/// Strings.
static STRINGS: [&str; 20] = [
    "concat takes string string string",
    "concat refuses string string int, string int string, string float string, int string string, string string",
    "concat refuses string string string string, string string string[1], string[2] string string",
    "concat refuses closure string string, string string closure",
    "strlen takes int string",
    "strlen refuses float string, string string, int int, int float, int string[1], int closure, int[1] string",
    "strlen refuses int string string, int",
    "startswith takes int string string",
    "startswith refuses float string string, string string string, int string int, int int string",
    "startswith refuses int string string[1], int string, int string string string",
    "endswith takes int string string",
    "endswith refuses float string string, string string string, int string int, int float string",
    "endswith refuses int string[1] string, int string, int string string int",
    "substr takes string string int int",
    "substr refuses string string int, string string float int, string string int float, int string int int",
    "substr refuses string int int int, string string string int, string string[1] int int, string[1] string int int",
    "substr refuses string string int int[1], string string, string string int int int",
    "getchar takes int string int",
    "getchar refuses string string int, float string int, int string float, int int int, int string string",
    "getchar refuses int string[1] int, int string, int string int int",
];

/// Closure primitives.
static CLOSURES: [&str; 30] = [
    "cl_emission takes closure",
    "cl_emission refuses color, float, string, closure color, closure normal, closure closure, nothing",
    "cl_background takes closure",
    "cl_background refuses color, normal, closure float, closure normal, closure closure, nothing",
    "cl_holdout takes closure",
    "cl_holdout refuses int, color, closure int, closure normal, closure string, nothing",
    "cl_transparent takes closure",
    "cl_transparent refuses matrix, color, closure color, closure normal, closure float, nothing",
    "cl_diffuse takes closure normal",
    "cl_diffuse refuses closure vector, closure point, closure color, closure float, closure closure",
    "cl_diffuse refuses closure normal[1], color normal, normal normal, closure, closure normal normal",
    "cl_diffuse refuses closure normal float, closure float normal, nothing",
    "cl_translucent takes closure normal",
    "cl_translucent refuses closure vector, closure point, closure color, closure int, closure normal[1], color normal",
    "cl_translucent refuses closure, closure normal normal, closure normal float",
    "cl_oren_nayar takes closure normal float, closure normal int",
    "cl_oren_nayar refuses closure vector float, closure point float, closure color float, closure normal color",
    "cl_oren_nayar refuses closure normal string, closure normal normal, closure normal float[1]",
    "cl_oren_nayar refuses closure normal[1] float, closure float normal, color normal float, closure normal",
    "cl_oren_nayar refuses closure float, closure normal float float, closure",
    "cl_reflection takes closure normal float, closure normal int",
    "cl_reflection refuses closure vector float, closure point int, closure normal vector, closure normal closure",
    "cl_reflection refuses closure int normal, color normal float, closure normal, closure normal float int, closure",
    "cl_refraction takes closure normal float, closure normal int",
    "cl_refraction refuses closure vector int, closure color float, closure normal matrix, closure normal int[1]",
    "cl_refraction refuses closure float normal, normal normal float, closure normal, closure normal normal float",
    "cl_refraction refuses closure",
    "cl_debug takes closure string",
    "cl_debug refuses closure int, closure float, closure normal, closure closure, closure string[1], string string",
    "cl_debug refuses color string, closure, closure string string, nothing",
];

/// Control operations: a condition, or nothing.
static CONTROL: [&str; 16] = [
    "if takes int",
    "if refuses float, color, matrix, string, closure, int[1], int int, nothing",
    "for takes int",
    "for refuses float, normal, matrix, string, closure, int[3], int int, nothing",
    "while takes int",
    "while refuses float, point, matrix, string, closure, int[1], int int int, nothing",
    "dowhile takes int",
    "dowhile refuses float, vector, matrix, string, closure, int[3], int int, nothing",
    "functioncall takes nothing",
    "functioncall refuses int, closure, int int",
    "break refuses int, string",
    "continue refuses int, float",
    "return takes nothing",
    "return refuses int, float, closure",
    "exit takes nothing",
    "exit refuses int, string, int int",
];

static NAMES: [&str; 20] = [
    "a", "b", "c", "d", "e", "f", "g", "h", "i", "j", "k", "l", "m", "n", "o", "p", "q", "r", "s",
    "t",
];

static ARGS: [u32; 20] = [
    0, 1, 2, 3, 4, 5, 6, 7, 8, 9, 10, 11, 12, 13, 14, 15, 16, 17, 18, 19,
];

/// A row's operation, whether it takes its arguments, and their types.
fn read(row: &str) -> Option<(OpName, bool, &str)> {
    let (name, takes, lists) = match row.split_once(" takes ") {
        Some((name, lists)) => (name, true, lists),
        None => match row.split_once(" refuses ") {
            Some((name, lists)) => (name, false, lists),
            None => return None,
        },
    };
    match OpName::from_name(name.as_bytes()) {
        Some(name) => Some((name, takes, lists)),
        None => None,
    }
}

/// The types that the words name; the word `nothing` names none.
fn types(alloc: Global, words: &str) -> Result<Vec<Ty>, Memory> {
    let mut all = Vec::new(alloc);
    for word in words.split_whitespace() {
        match type_named(word) {
            Some(ty) => all.push(ty)?,
            None => {
                if word != "nothing" {
                    return Err(Memory);
                }
            }
        }
    }
    Ok(all)
}

/// A variable of each type.
fn variables(alloc: Global, types: &[Ty]) -> Result<Vec<Symbol>, Memory> {
    let mut all = Vec::new(alloc);
    for (k, ty) in types.iter().enumerate() {
        let Some(name) = NAMES.get(k) else {
            return Err(Memory);
        };
        all.push(symbol(alloc, Class::Local, name, *ty, None)?)?;
    }
    Ok(all)
}

/// As many jumps as the operation has, all to the end of the ops of `code_with`.
fn jumps(name: OpName) -> &'static [u32] {
    match name {
        OpName::If | OpName::While | OpName::DoWhile => &[2, 2],
        OpName::For => &[2, 2, 2],
        OpName::FunctionCall => &[2],
        _ => &[],
    }
}

/// Code in which an op stands behind another, with a variable of each type as its arguments.
fn code_with(alloc: Global, name: OpName, types: &[Ty]) -> Result<Raw, Memory> {
    let Some(args) = ARGS.get(..types.len()) else {
        return Err(Memory);
    };
    let ops = vec![in alloc;
        op(alloc, OpName::Return, &[], &[])?,
        op(alloc, name, args, jumps(name))?,
    ]?;
    let body = body(alloc, &ops)?;
    code(alloc, b"one", variables(alloc, types)?, body, ops)
}

/// Whether the code is valid where the operation is to take these types, and has the op at fault where it is not.
fn is_so(alloc: Global, name: OpName, takes: bool, types: &[Ty]) -> Result<bool, Memory> {
    let (wrong, at) = flaw_of(alloc, code_with(alloc, name, types)?)?;
    if takes {
        Ok(wrong.is_none())
    } else {
        Ok(wrong == Some(FlawKind::Op) && at == 1)
    }
}

/// Each operation takes the types that its row says, or refuses them.
fn all_so(rt: &impl Abort, alloc: Global, rows: &[&str]) -> Result<(), Fail> {
    for row in rows {
        match read(row) {
            Some((name, takes, lists)) => {
                for words in lists.split(',') {
                    let types = types(alloc, words)?;
                    assert!(rt; is_so(alloc, name, takes, &types)?, "{name:?} {words}");
                }
            }
            None => assert!(rt; false, "{row}"),
        }
    }
    Ok(())
}

#[test]
fn copies_take_their_types(rt: HostRuntime) -> Result<(), Fail> {
    all_so(&rt, rt.alloc(), &COPIES)
}

#[test]
fn arithmetic_takes_its_types(rt: HostRuntime) -> Result<(), Fail> {
    all_so(&rt, rt.alloc(), &ARITHMETIC)
}

#[test]
fn bits_and_truth_take_their_types(rt: HostRuntime) -> Result<(), Fail> {
    all_so(&rt, rt.alloc(), &BITS)
}

#[test]
fn comparisons_take_their_types(rt: HostRuntime) -> Result<(), Fail> {
    all_so(&rt, rt.alloc(), &COMPARISONS)
}

#[test]
fn elements_take_their_types(rt: HostRuntime) -> Result<(), Fail> {
    all_so(&rt, rt.alloc(), &ELEMENTS)
}

#[test]
fn componentwise_functions_take_their_types(rt: HostRuntime) -> Result<(), Fail> {
    all_so(&rt, rt.alloc(), &COMPONENTWISE)
}

#[test]
fn geometry_takes_its_types(rt: HostRuntime) -> Result<(), Fail> {
    all_so(&rt, rt.alloc(), &GEOMETRY)
}

#[test]
fn strings_take_their_types(rt: HostRuntime) -> Result<(), Fail> {
    all_so(&rt, rt.alloc(), &STRINGS)
}

#[test]
fn closures_take_their_types(rt: HostRuntime) -> Result<(), Fail> {
    all_so(&rt, rt.alloc(), &CLOSURES)
}

#[test]
fn control_takes_its_types(rt: HostRuntime) -> Result<(), Fail> {
    all_so(&rt, rt.alloc(), &CONTROL)
}

/// A target and so many numbers, ints and floats by the bits of a mask.
fn numbers(alloc: Global, target: Base, count: u32, mask: u32) -> Result<Vec<Ty>, Memory> {
    let mut all = Vec::new(alloc);
    all.push(Ty::only(target))?;
    for k in 0..count {
        let base = if mask >> (k & 31) & 1 == 0 {
            Base::Int
        } else {
            Base::Float
        };
        all.push(Ty::only(base))?;
    }
    Ok(all)
}

/// Ints, floats, and both.
static MASKS: [u32; 3] = [0, 0xffff_ffff, 0x5555_0f5a];

#[test]
fn a_triple_and_a_matrix_take_so_many_numbers(rt: HostRuntime) -> Result<(), Fail> {
    let alloc = rt.alloc();
    for count in 0..19u32 {
        for mask in MASKS {
            let types = numbers(alloc, Base::Matrix, count, mask)?;
            let takes = count == 1 || count == 16;
            assert!(rt; is_so(alloc, OpName::Matrix, takes, &types)?, "{count}");
            let types = numbers(alloc, Base::Normal, count, mask)?;
            assert!(rt;
                is_so(alloc, OpName::Triple, count == 3, &types)?,
                "{count}"
            );
        }
    }
    Ok(())
}

#[test]
fn a_matrix_takes_no_other_types(rt: HostRuntime) -> Result<(), Fail> {
    let alloc = rt.alloc();
    for place in 0..17u32 {
        for other in [Base::Color, Base::Str, Base::Closure] {
            let mut types = numbers(alloc, Base::Matrix, 16, 0x5555)?;
            match types.get_mut(place as usize) {
                Some(ty) => *ty = Ty::only(other),
                None => assert!(rt; false),
            }
            assert!(rt; is_so(alloc, OpName::Matrix, false, &types)?, "{place}");
        }
    }
    Ok(())
}
