ghost use Rattle.std.specs.Prelude.{◌≡◌, ◌<◌, length, slice_set, IfOk};

use crate::memory::Memory;
use crate::value::Value;
use std::alloc::Global;
use std::marker::Model;

/// The instance values of a layer's parameters, in their order. `None` means the default.
/// Contracts see it as the list.
#[derive(Debug, Drop)]
pub struct LayerValues {
    values: Vec<Option<Value>>,
}

impl Model for LayerValues {
    ghost use Rattle.std.specs.Prelude.{List, Option};
    ghost use Rattle.osl_value.specs.Plain.{Plain};

    ghost Value = { List (Option Plain) };

    ghost view = { λ l. l.values.items };
}

impl LayerValues {
    pub fn new(values: Vec<Option<Value>>) -> LayerValues
        ensures { result ≡ values.items }
    {
        LayerValues { values }
    }

    pub fn as_slice(&self) -> &[Option<Value>]
        ensures { result.now ≡ self.now }
    {
        self.values.as_slice()
    }

    /// Gives the parameter of a number this value, or its default again.
    pub fn set(&mut self, param: u32, value: Option<Value>)
        requires { param < length self.old }
        ensures { self.new ≡ slice_set self.old param value }
    {
        self.values[param as usize] = value;
    }

    /// Equal values.
    pub fn copy(&self, alloc: Global) -> Result<LayerValues, Memory>
        ensures { IfOk result (λ copy. copy ≡ self.now) }
    {
        let values = copies_of(alloc, self.values.as_slice())?;
        Ok(LayerValues { values })
    }

    /// The values, given back.
    pub fn into_vec(self) -> Vec<Option<Value>>
        ensures { result.items ≡ self }
    {
        let LayerValues { values } = self;
        values
    }
}

/// An equal value, or none.
fn copied(value: &Option<Value>) -> Result<Option<Value>, Memory>
    ensures { IfOk result (λ copy. copy ≡ value.now) }
{
    match value {
        Some(value) => Ok(Some(value.copy()?)),
        None => Ok(None),
    }
}

/// Equal values, one for each.
fn copies_of(alloc: Global, values: &[Option<Value>]) -> Result<Vec<Option<Value>>, Memory>
    ensures { IfOk result (λ copies. copies.items ≡ values.now) }
{
    let mut copies = Vec::with_capacity(alloc, values.len())?;
    for value in values {
        copies.push(copied(value)?)?;
    }
    Ok(copies)
}
