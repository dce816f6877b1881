//! Code that is copied, taken apart and changed in place.

use crate::code::{body, numbered, op, ops, shader};
use osl_value::{Base, Memory, OpName};
use oso_code::{Class, ListOf, Raw, Shader, Symbol};
use std::alloc::Global;
use std::test::Fail;

/// r = 5, where r and the constant are floats.
fn one_assignment(alloc: Global) -> Result<Shader, Memory> {
    let mut symbols = Vec::new(alloc);
    symbols.push(numbered(alloc, Class::Oparam, Base::Float, "r", 0)?)?;
    symbols.push(numbered(alloc, Class::Const, Base::Float, "$0", 5)?)?;
    let ops = ops(alloc, &[(OpName::Assign, &[0, 1], &[])])?;
    let sections = body(alloc, &ops)?;
    shader(alloc, symbols, sections, ops)
}

fn name_of(symbol: Option<&Symbol>) -> &[u8] {
    match symbol {
        Some(symbol) => symbol.name.bytes(),
        None => b"",
    }
}

#[test]
fn a_list_is_changed_in_place(rt: HostRuntime) -> Result<(), Fail> {
    let mut list = ListOf::new([1u32, 2, 3].to_vec(rt.alloc())?);
    if list.len() == 3 {
        list.set(1, 7);
    }
    list.push(9)?;
    assert_eq!(rt; list.as_slice(), [1, 7, 3, 9].as_slice());
    list.retain(|n| *n != 3);
    assert_eq!(rt; list.as_slice(), [1, 7, 9].as_slice());
    Ok(())
}

#[test]
fn a_shader_is_taken_apart(rt: HostRuntime) -> Result<(), Fail> {
    let alloc = rt.alloc();
    let mut raw: Raw = one_assignment(alloc)?.into_raw();
    raw.symbols
        .push(numbered(alloc, Class::Const, Base::Float, "$1", 6)?)?;
    raw.ops.push(op(alloc, OpName::Assign, &[0, 2], &[])?)?;
    assert_eq!(rt; raw.symbols.len(), 3);
    assert_eq!(rt; raw.ops.len(), 2);
    assert_eq!(rt; name_of(raw.symbols.as_slice().last()), b"$1".as_slice());
    Ok(())
}

#[test]
fn parts_of_code_are_copied(rt: HostRuntime) -> Result<(), Fail> {
    let alloc = rt.alloc();
    let shader = one_assignment(alloc)?;
    let raw = shader.raw().copy(alloc)?;
    assert_eq!(rt; raw.ops.len(), 1);
    for symbol in raw.symbols.as_slice() {
        let copy = symbol.copy(alloc)?;
        assert_eq!(rt; copy.name.bytes(), symbol.name.bytes());
    }
    for op in raw.ops.as_slice() {
        let copy = op.copy(alloc)?;
        assert_eq!(rt; copy.args.as_slice(), [0, 1].as_slice());
    }
    Ok(())
}
