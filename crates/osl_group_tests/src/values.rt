//! Instance values: a copy is changed, and the values that it was made from are not.

ghost use Rattle.std.specs.Prelude.{◌≡◌, IfOk, None, [], ◌∷◌};

use osl_group::Values;
use osl_value::{Base, LayerValues, Memory, Ty, Value};
use std::alloc::Global;
use std::test::Fail;

/// A layer of two parameters without instance values.
fn defaults(alloc: Global) -> Result<LayerValues, Memory>
    ensures { IfOk result (λ values. values ≡ None ∷ None ∷ []) }
{
    let mut values = Vec::new(alloc);
    values.push(None)?;
    values.push(None)?;
    Ok(LayerValues::new(values))
}

/// Whether the parameter of a number of a layer has an instance value.
fn is_given(layer: &LayerValues, param: usize) -> bool {
    match layer.as_slice().get(param) {
        Some(value) => value.is_some(),
        None => false,
    }
}

#[test]
fn a_changed_copy(rt: HostRuntime) -> Result<(), Fail> {
    let alloc = rt.alloc();
    let mut values = Values::new(alloc);
    values.push(alloc, defaults(alloc)?)?;
    values.push(alloc, defaults(alloc)?)?;
    let mut changed = values.copy(alloc)?;
    changed.set(alloc, 1, 0, Value::zero(alloc, Ty::only(Base::Int))?)?;
    assert!(rt; is_given(changed.layer(1), 0));
    assert!(rt; !is_given(changed.layer(1), 1));
    assert!(rt; !is_given(changed.layer(0), 0));
    assert!(rt; !is_given(values.layer(1), 0));
    Ok(())
}
