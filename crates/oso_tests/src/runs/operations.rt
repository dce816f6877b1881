//! Each operation on constants.

use super::{Layer, ended, output};
use crate::code::{body, op, shader, symbol, text, type_named, zero};
use bumpalo::Bump;
use osl_interp::{Given, OutRef};
use osl_value::{Base, LayerValues, Memory, OpName, Text, Ty, Value};
use oso_code::{Class, Op, Shader, Symbol};
use std::alloc::Global;
use std::test::Fail;

/// Each row is an operation, what it reads, and what it gives; one that reads what it writes has that first. A value is
/// its type with its numbers (an int as itself, a float as its units) or its strings, of which `-` is the empty one.
static ROWS: [&str; 113] = [
    "assign int 7 = float 7000000000",
    "assign float 1500000000 = color 1500000000 1500000000 1500000000",
    "assign point 1000000000 2000000000 3000000000 = normal 1000000000 2000000000 3000000000",
    "assign string lamp = string lamp",
    "assign int[3] 3 1 2 = int[3] 3 1 2",
    "toint float -2900000000 = int -2",
    "toint float 9000000000000000000 = int 2147483647",
    "add int 2147483647 int 1 = int -2147483648",
    "add float 1250000000 float -750000000 = float 500000000",
    "add float 9223372036854775807 float 500000000 = float 9223372036854775807",
    "add color 1000000000 2000000000 3000000000 float 500000000 = color 1500000000 2500000000 3500000000",
    "sub int -2147483648 int 1 = int 2147483647",
    "sub point 3000000000 2000000000 1000000000 point 1000000000 2000000000 5000000000 = vector 2000000000 0 -4000000000",
    "mul int 65536 int 65537 = int 65536",
    "mul float -3 float 500000000 = float -1",
    "mul color 500000000 250000000 2000000000 color 4000000000 500000000 -1500000000 = color 2000000000 125000000 -3000000000",
    "mul matrix 1000000000 2000000000 3000000000 4000000000 0 1000000000 0 0 500000000 0 1000000000 0 2000000000 0 0 1000000000 matrix 1000000000 0 0 1000000000 0 2000000000 0 0 0 0 -1000000000 0 5000000000 6000000000 7000000000 1000000000 = matrix 21000000000 28000000000 25000000000 5000000000 0 2000000000 0 0 500000000 0 -1000000000 500000000 7000000000 6000000000 7000000000 3000000000",
    "div int -7 int 2 = int -3",
    "div int 7 int 0 = int 0",
    "div int -2147483648 int -1 = int -2147483648",
    "div float 1000000000 float 3000000000 = float 333333333",
    "div float -2000000000 float 3000000000 = float -666666666",
    "div float 1000000000 float 0 = float 0",
    "irem int -7 int 3 = int -1",
    "irem int 7 int 0 = int 0",
    "neg int -2147483648 = int -2147483648",
    "neg vector 1000000000 -2000000000 500000000 = vector -1000000000 2000000000 -500000000",
    "compl int 5 = int -6",
    "bitand int 12 int -6 = int 8",
    "bitor int 12 int 3 = int 15",
    "xor int 12 int 10 = int 6",
    "shl int 1 int 35 = int 8",
    "shr int -8 int 1 = int -4",
    "not int 0 = int 1",
    "not float 1 = int 0",
    "eq int 3 int 3 = int 1",
    "eq point 1000000000 2000000000 3000000000 vector 1000000000 2000000000 4000000000 = int 0",
    "eq float 2000000000 color 2000000000 2000000000 2000000000 = int 1",
    "eq string ab string abc = int 0",
    "eq matrix 1000000000 2000000000 3000000000 4000000000 0 1000000000 0 0 500000000 0 1000000000 0 2000000000 0 0 1000000000 matrix 1000000000 2000000000 3000000000 4000000000 0 1000000000 0 0 500000000 0 1000000000 0 2000000000 0 0 1000000000 = int 1",
    "neq int 3 int 3 = int 0",
    "neq point 1000000000 2000000000 3000000000 vector 1000000000 2000000000 4000000000 = int 1",
    "neq string ab string abc = int 1",
    "neq matrix 1000000000 2000000000 3000000000 4000000000 0 1000000000 0 0 500000000 0 1000000000 0 2000000000 0 0 1000000000 matrix 1000000000 0 0 1000000000 0 2000000000 0 0 0 0 -1000000000 0 5000000000 6000000000 7000000000 1000000000 = int 1",
    "lt int -1 int 0 = int 1",
    "lt float 500000000 float 500000000 = int 0",
    "gt int -1 int 0 = int 0",
    "gt float 500000000 float -500000000 = int 1",
    "le int 2 int 2 = int 1",
    "le float 500000000 float -500000000 = int 0",
    "ge int 2 int 3 = int 0",
    "ge float 500000000 float 500000000 = int 1",
    "aref int[3] 10 20 30 int 1 = int 20",
    "aref int[3] 10 20 30 int 9 = int 30",
    "aref color[2] 1000000000 2000000000 3000000000 4000000000 5000000000 6000000000 int 1 = color 4000000000 5000000000 6000000000",
    "aref string[2] a b int -1 = string a",
    "aassign int[3] 10 20 30 int 1 int 7 = int[3] 10 7 30",
    "aassign float[2] 1000000000 2000000000 int 9 float 3000000000 = float[2] 1000000000 3000000000",
    "aassign string[2] a b int 0 string c = string[2] c b",
    "arraylength float[5] 0 0 0 0 0 = int 5",
    "compref vector 1000000000 2000000000 3000000000 int 2 = float 3000000000",
    "compref color 1000000000 2000000000 3000000000 int -4 = float 1000000000",
    "compassign vector 1000000000 2000000000 3000000000 int 1 float 500000000 = vector 1000000000 500000000 3000000000",
    "mxcompref matrix 1000000000 2000000000 3000000000 4000000000 0 1000000000 0 0 500000000 0 1000000000 0 2000000000 0 0 1000000000 int 0 int 3 = float 4000000000",
    "mxcompref matrix 1000000000 2000000000 3000000000 4000000000 0 1000000000 0 0 500000000 0 1000000000 0 2000000000 0 0 1000000000 int 9 int 0 = float 2000000000",
    "mxcompassign matrix 1000000000 2000000000 3000000000 4000000000 0 1000000000 0 0 500000000 0 1000000000 0 2000000000 0 0 1000000000 int 2 int 1 float 9500000000 = matrix 1000000000 2000000000 3000000000 4000000000 0 1000000000 0 0 500000000 9500000000 1000000000 0 2000000000 0 0 1000000000",
    "triple int 1 float 500000000 int -3 = normal 1000000000 500000000 -3000000000",
    "matrix float 2000000000 = matrix 2000000000 0 0 0 0 2000000000 0 0 0 0 2000000000 0 0 0 0 2000000000",
    "matrix float 0 int 1 float 2000000000 int 3 float 4000000000 int 5 float 6000000000 int 7 float 8000000000 int 9 float 10000000000 int 11 float 12000000000 int 13 float 14000000000 int 15 = matrix 0 1000000000 2000000000 3000000000 4000000000 5000000000 6000000000 7000000000 8000000000 9000000000 10000000000 11000000000 12000000000 13000000000 14000000000 15000000000",
    "abs int -7 = int 7",
    "abs vector -1000000000 2000000000 -500000000 = vector 1000000000 2000000000 500000000",
    "sign vector -3000000000 0 250000000 = vector -1000000000 0 1000000000",
    "floor vector -500000000 1750000000 2000000000 = vector -1000000000 1000000000 2000000000",
    "ceil vector -500000000 1250000000 2000000000 = vector 0 2000000000 2000000000",
    "round vector -500000000 1490000000 2500000000 = vector -1000000000 1000000000 3000000000",
    "trunc vector -1750000000 1750000000 0 = vector -1000000000 1000000000 0",
    "floor float -9223372036500000000 = float -9223372036854775807",
    "sqrt color 2000000000 250000000 -1000000000 = color 1414213562 500000000 0",
    "inversesqrt color 4000000000 2000000000 0 = color 500000000 707106781 0",
    "min int -1 int 2 = int -1",
    "min point 1000000000 5000000000 3000000000 float 2000000000 = point 1000000000 2000000000 2000000000",
    "max int -1 int 2 = int 2",
    "max point 1000000000 5000000000 3000000000 float 2000000000 = point 2000000000 5000000000 3000000000",
    "fmod float -7500000000 float 2000000000 = float -1500000000",
    "mod float -7500000000 float 2000000000 = float 500000000",
    "mod float 7500000000 float -2000000000 = float -500000000",
    "step float 500000000 vector 250000000 500000000 1000000000 = vector 0 1000000000 1000000000",
    "clamp int 9 int 1 int 5 = int 5",
    "clamp color -1000000000 500000000 3000000000 float 0 float 1000000000 = color 0 500000000 1000000000",
    "clamp float 3000000000 float 5000000000 float 1000000000 = float 1000000000",
    "mix color 0 1000000000 2000000000 color 4000000000 3000000000 2000000000 float 250000000 = color 1000000000 1500000000 2000000000",
    "smoothstep float 0 float 4000000000 float 1000000000 = float 156250000",
    "smoothstep float 2000000000 float 2000000000 float 2000000000 = float 1000000000",
    "dot vector 1000000000 2000000000 3000000000 vector 500000000 -1000000000 2000000000 = float 4500000000",
    "cross vector 1000000000 2000000000 3000000000 vector 500000000 -1000000000 2000000000 = vector 7000000000 -500000000 -2000000000",
    "length vector 3000000000 4000000000 12000000000 = float 13000000000",
    "length vector 1000000000 2000000000 3000000000 = float 3741657386",
    "distance point 1000000000 2000000000 3000000000 point 500000000 -1000000000 2000000000 = float 3201562118",
    "normalize vector 0 3000000000 4000000000 = vector 0 600000000 800000000",
    "normalize normal 1000000000 2000000000 3000000000 = normal 267261241 534522483 801783725",
    "normalize vector 0 0 0 = vector 0 0 0",
    "transpose matrix 0 1000000000 2000000000 3000000000 4000000000 5000000000 6000000000 7000000000 8000000000 9000000000 10000000000 11000000000 12000000000 13000000000 14000000000 15000000000 = matrix 0 4000000000 8000000000 12000000000 1000000000 5000000000 9000000000 13000000000 2000000000 6000000000 10000000000 14000000000 3000000000 7000000000 11000000000 15000000000",
    "transform matrix 1000000000 0 0 1000000000 0 2000000000 0 0 0 0 -1000000000 0 5000000000 6000000000 7000000000 1000000000 point 1000000000 2000000000 3000000000 = point 6000000000 10000000000 4000000000",
    "transform matrix 1000000000 0 0 1000000000 0 2000000000 0 0 0 0 -1000000000 0 5000000000 6000000000 7000000000 1000000000 vector 1000000000 2000000000 3000000000 = vector 1000000000 4000000000 -3000000000",
    "concat string lamp string shade = string lampshade",
    "strlen string lamp = int 4",
    "startswith string lamp string la = int 1",
    "endswith string lamp string la = int 0",
    "substr string lampshade int -5 int 3 = string sha",
    "substr string lamp int 2 int -1 = string -",
    "substr string lamp int 1 int 9 = string amp",
    "getchar string lamp int 3 = int 112",
    "getchar string lamp int 4 = int 0",
];

static NAMES: [&str; 16] = [
    "a", "b", "c", "d", "e", "f", "g", "h", "i", "j", "k", "l", "m", "n", "o", "p",
];

static FROM: [u32; 17] = [0, 1, 2, 3, 4, 5, 6, 7, 8, 9, 10, 11, 12, 13, 14, 15, 16];

/// A row, read.
#[derive(Drop)]
struct Case {
    name: OpName,
    args: Vec<Value>,
    gives: Value,
}

/// The words of a row, but for the mark before what it gives.
fn words<'s>(alloc: Global, line: &'s str) -> Result<Vec<&'s str>, Memory> {
    let mut all = Vec::new(alloc);
    for word in line.split_whitespace() {
        if word != "=" {
            all.push(word)?;
        }
    }
    Ok(all)
}

/// The numbers that the words begin with, up to a type.
fn numbers(alloc: Global, words: &[&str]) -> Result<Vec<i64>, Memory> {
    let mut all = Vec::new(alloc);
    for word in words {
        match word.parse::<i64>() {
            Ok(number) => all.push(number)?,
            Err(_) => return Ok(all),
        }
    }
    Ok(all)
}

/// The strings that the words begin with, up to a type.
fn strings(alloc: Global, words: &[&str]) -> Result<Vec<Text>, Memory> {
    let mut all = Vec::new(alloc);
    for word in words {
        if type_named(word).is_some() {
            return Ok(all);
        }
        let bytes = if *word == "-" { b"" } else { word.as_bytes() };
        all.push(text(alloc, bytes)?)?;
    }
    Ok(all)
}

/// The value of this type, with what the words begin with.
fn value(alloc: Global, ty: Ty, words: &[&str]) -> Result<Value, Memory> {
    let value = match ty.base {
        Base::Str => Value::new(ty, Vec::new(alloc), strings(alloc, words)?),
        _ => Value::new(ty, numbers(alloc, words)?, Vec::new(alloc)),
    };
    match value {
        Some(value) => Ok(value),
        None => Err(Memory),
    }
}

fn read(alloc: Global, line: &str) -> Result<Case, Memory> {
    let words = words(alloc, line)?;
    let mut args = Vec::new(alloc);
    for k in 1..words.len() {
        if let Some(ty) = type_named(words[k]) {
            args.push(value(alloc, ty, &words[k + 1..])?)?;
        }
    }
    let name = match words.first() {
        Some(word) => OpName::from_name(word.as_bytes()),
        None => None,
    };
    match (name, args.pop()) {
        (Some(name), Some(gives)) => Ok(Case { name, args, gives }),
        _ => Err(Memory),
    }
}

/// An output `r` that is zero, and a constant for each argument.
fn symbols(alloc: Global, case: &Case) -> Result<Vec<Symbol>, Memory> {
    let mut all = Vec::new(alloc);
    let ty = case.gives.ty();
    let start = zero(alloc, ty)?;
    all.push(symbol(alloc, Class::Oparam, "r", ty, start)?)?;
    for (k, arg) in case.args.iter().enumerate() {
        let Some(name) = NAMES.get(k) else {
            return Err(Memory);
        };
        let start = arg.copy()?;
        all.push(symbol(alloc, Class::Const, name, arg.ty(), Some(start))?)?;
    }
    Ok(all)
}

/// The operation, which writes the output; what it reads as well is put there first.
fn ops(alloc: Global, case: &Case) -> Result<Vec<Op>, Memory> {
    let mut all = Vec::new(alloc);
    let count = case.args.len();
    if count == 0 || count >= FROM.len() {
        return Err(Memory);
    }
    if case.name.updates() {
        all.push(op(alloc, OpName::Assign, &[0, 1], &[])?)?;
        let mut args = vec![in alloc; 0]?;
        args.extend_from_slice(&FROM[2..count + 1])?;
        all.push(op(alloc, case.name, &args, &[])?)?;
    } else {
        all.push(op(alloc, case.name, &FROM[0..count + 1], &[])?)?;
    }
    Ok(all)
}

fn layer(alloc: Global, case: &Case) -> Result<Shader, Memory> {
    let ops = ops(alloc, case)?;
    let sections = body(alloc, &ops)?;
    shader(alloc, symbols(alloc, case)?, sections, ops)
}

fn is(found: &Value, wanted: &Value) -> bool {
    if found.ty() != wanted.ty() || found.nums() != wanted.nums() {
        return false;
    }
    let texts = wanted.texts();
    if found.texts().len() != texts.len() {
        return false;
    }
    for (k, text) in found.texts().iter().enumerate() {
        match texts.get(k) {
            Some(want) => {
                if text.bytes() != want.bytes() {
                    return false;
                }
            }
            None => return false,
        }
    }
    true
}

/// Whether the operation gives what it should.
fn holds(alloc: Global, case: &Case) -> Result<bool, Memory> {
    let shader = layer(alloc, case)?;
    let mut none = Vec::new(alloc);
    none.push(None)?;
    let fixed = LayerValues::new(none);
    let arena = Bump::new(alloc);
    let layer = Layer {
        shader: &shader,
        fixed: &fixed,
        wired: &[false],
        budget: 0,
    };
    let mut asked = Vec::new(alloc);
    let entries: [Given<'_, '_>; 0] = [];
    let Some(run) = ended(alloc, &arena, &layer, &entries, &mut asked)? else {
        return Ok(false);
    };
    match output(&run, 0) {
        Some(OutRef::Value(found)) => Ok(is(found, &case.gives)),
        _ => Ok(false),
    }
}

#[test]
fn operations_give_their_values(rt: HostRuntime) -> Result<(), Fail> {
    let alloc = rt.alloc();
    for line in &ROWS {
        let case = read(alloc, line)?;
        assert!(rt; holds(alloc, &case)?, "{line}");
    }
    Ok(())
}
