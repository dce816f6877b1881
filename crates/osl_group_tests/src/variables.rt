//! The variables of a point: how many there may be, and names that come twice.

use osl_network::{Var, VarList};
use osl_value::{Base, Text, Ty, Value};
use std::alloc::Global;
use std::test::Fail;

/// A float variable whose name is one byte.
fn variable(alloc: Global, name: u8) -> Result<Var, Fail> {
    let bytes = Vec::from_slice(alloc, &[name])?;
    let value = Value::zero(alloc, Ty::only(Base::Float))?;
    let name = Text::new(bytes).ok_or("long")?;
    Ok(Var { name, value })
}

/// Whether variables of these names make a list, and how many it has.
fn counted(alloc: Global, names: &[u8]) -> Result<Option<usize>, Fail> {
    let mut vars = Vec::new(alloc);
    for name in names {
        vars.push(variable(alloc, *name)?)?;
    }
    match VarList::new(vars) {
        Some(list) => Ok(Some(list.as_slice().len())),
        None => Ok(None),
    }
}

#[test]
fn lists_of_variables(rt: HostRuntime) -> Result<(), Fail> {
    let alloc = rt.alloc();
    assert!(rt; counted(alloc, b"")? == Some(0));
    assert!(rt; counted(alloc, b"abcdefghijklmnop")? == Some(16));
    assert!(rt; counted(alloc, b"abcdefghijklmnopq")?.is_none());
    assert!(rt; counted(alloc, b"aba")?.is_none());
    assert_eq!(rt; VarList::none(alloc).as_slice().len(), 0);
    Ok(())
}
