//! From tables to shaders.

use osl_value::{Base, Memory, OpName, ShaderKind, Text, Ty, Value};
use oso_code::{Class, ListOf, Op, Raw, Section, Shader, Symbol, validate};
use std::alloc::Global;

/// A value: its base type, its array's length, and its numbers (an int as itself, a float as its units) or its strings.
pub type Sample = (Base, u32, &'static [i64], &'static [&'static str]);

/// An op: its name, its arguments and its jumps.
pub type Line = (OpName, &'static [u32], &'static [u32]);

/// A section: its parameter, if it is not the body's, and where it begins and ends.
pub type Part = (Option<u32>, u32, u32);

pub fn text(alloc: Global, bytes: &[u8]) -> Result<Text, Memory> {
    match Text::new(bytes.to_vec(alloc)?) {
        Some(text) => Ok(text),
        None => Err(Memory),
    }
}

fn texts(alloc: Global, words: &[&str]) -> Result<Vec<Text>, Memory> {
    let mut all = Vec::new(alloc);
    for word in words {
        all.push(text(alloc, word.as_bytes())?)?;
    }
    Ok(all)
}

pub fn value(alloc: Global, sample: &Sample) -> Result<Value, Memory> {
    let (base, len, nums, words) = *sample;
    let nums = nums.to_vec(alloc)?;
    match Value::new(Ty { base, len }, nums, texts(alloc, words)?) {
        Some(value) => Ok(value),
        None => Err(Memory),
    }
}

pub fn int(alloc: Global, n: i32) -> Result<Value, Memory> {
    let mut value = Value::zero(alloc, Ty::only(Base::Int))?;
    value.set_int(0, n);
    Ok(value)
}

fn array(base: Base, len: u32) -> Ty {
    Ty { base, len }
}

/// The type that a word of a table names.
pub fn type_named(word: &str) -> Option<Ty> {
    match word {
        "int" => Some(Ty::only(Base::Int)),
        "float" => Some(Ty::only(Base::Float)),
        "color" => Some(Ty::only(Base::Color)),
        "point" => Some(Ty::only(Base::Point)),
        "vector" => Some(Ty::only(Base::Vector)),
        "normal" => Some(Ty::only(Base::Normal)),
        "matrix" => Some(Ty::only(Base::Matrix)),
        "string" => Some(Ty::only(Base::Str)),
        "closure" => Some(Ty::only(Base::Closure)),
        "int[1]" => Some(array(Base::Int, 1)),
        "int[2]" => Some(array(Base::Int, 2)),
        "int[3]" => Some(array(Base::Int, 3)),
        "float[1]" => Some(array(Base::Float, 1)),
        "float[2]" => Some(array(Base::Float, 2)),
        "float[5]" => Some(array(Base::Float, 5)),
        "color[2]" => Some(array(Base::Color, 2)),
        "point[2]" => Some(array(Base::Point, 2)),
        "normal[1]" => Some(array(Base::Normal, 1)),
        "matrix[1]" => Some(array(Base::Matrix, 1)),
        "matrix[2]" => Some(array(Base::Matrix, 2)),
        "string[1]" => Some(array(Base::Str, 1)),
        "string[2]" => Some(array(Base::Str, 2)),
        _ => None,
    }
}

/// The zero of a type, which a closure has not.
pub fn zero(alloc: Global, ty: Ty) -> Result<Option<Value>, Memory> {
    match ty.base {
        Base::Closure => Ok(None),
        _ => {
            if ty.len > 1024 {
                return Err(Memory);
            }
            Ok(Some(Value::zero(alloc, ty)?))
        }
    }
}

pub fn symbol(
    alloc: Global,
    class: Class,
    name: &str,
    ty: Ty,
    value: Option<Value>,
) -> Result<Symbol, Memory> {
    Ok(Symbol {
        class,
        ty,
        name: text(alloc, name.as_bytes())?,
        value,
        metas: ListOf::new(Vec::new(alloc)),
    })
}

/// A symbol with one number.
pub fn numbered(
    alloc: Global,
    class: Class,
    base: Base,
    name: &str,
    number: i64,
) -> Result<Symbol, Memory> {
    let ty = Ty::only(base);
    let nums = vec![in alloc; number]?;
    symbol(
        alloc,
        class,
        name,
        ty,
        Value::new(ty, nums, Vec::new(alloc)),
    )
}

pub fn op(alloc: Global, name: OpName, args: &[u32], jumps: &[u32]) -> Result<Op, Memory> {
    Ok(Op {
        name,
        args: ListOf::new(args.to_vec(alloc)?),
        jumps: ListOf::new(jumps.to_vec(alloc)?),
    })
}

pub fn ops(alloc: Global, lines: &[Line]) -> Result<Vec<Op>, Memory> {
    let mut all = Vec::new(alloc);
    for line in lines {
        let (name, args, jumps) = *line;
        all.push(op(alloc, name, args, jumps)?)?;
    }
    Ok(all)
}

pub fn sections(alloc: Global, parts: &[Part]) -> Result<Vec<Section>, Memory> {
    let mut all = Vec::new(alloc);
    for part in parts {
        let (param, start, end) = *part;
        all.push(Section { param, start, end })?;
    }
    Ok(all)
}

/// The body alone, as one section.
pub fn body(alloc: Global, ops: &[Op]) -> Result<Vec<Section>, Memory> {
    let mut all = Vec::new(alloc);
    if ops.len() > 100_000 {
        return Err(Memory);
    }
    all.push(Section {
        param: None,
        start: 0,
        end: ops.len() as u32,
    })?;
    Ok(all)
}

/// The code of a shader of this name, with these symbols, sections and ops.
pub fn code(
    alloc: Global,
    name: &[u8],
    symbols: Vec<Symbol>,
    sections: Vec<Section>,
    ops: Vec<Op>,
) -> Result<Raw, Memory> {
    Ok(Raw {
        kind: ShaderKind::Shader,
        name: text(alloc, name)?,
        metas: ListOf::new(Vec::new(alloc)),
        symbols: ListOf::new(symbols),
        sections: ListOf::new(sections),
        ops: ListOf::new(ops),
    })
}

/// The shader of this code; no memory where it is not valid.
fn valid(alloc: Global, raw: Raw) -> Result<Shader, Memory> {
    if raw.symbols.len() > 100_000 || raw.ops.len() > 100_000 {
        return Err(Memory);
    }
    match validate(alloc, raw) {
        Ok(shader) => Ok(shader),
        Err(_refused) => Err(Memory),
    }
}

/// The surface of these symbols, sections and ops; no memory where they are not valid.
pub fn shader(
    alloc: Global,
    symbols: Vec<Symbol>,
    sections: Vec<Section>,
    ops: Vec<Op>,
) -> Result<Shader, Memory> {
    let mut raw = code(alloc, b"layer", symbols, sections, ops)?;
    raw.kind = ShaderKind::Surface;
    valid(alloc, raw)
}
