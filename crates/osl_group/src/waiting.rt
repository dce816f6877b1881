//! Instance values that wait for the next layer.

ghost use Rattle.std.specs.Prelude.{◌≡◌, [], position, OnOk, OnErr};
ghost use Rattle.std.specs.Str.{bytes_eq};
ghost use Rattle.osl_network.specs.Building.{waiting_with};

use osl_value::{Memory, Text, Value};
use std::alloc::Global;
use std::marker::Model;

/// An instance value that waits for the next layer.
#[derive(Drop)]
pub struct WaitingValue {
    name: Text,
    value: Value,
    lockgeom: Option<bool>,
}

impl Model for WaitingValue {
    ghost use Rattle.osl_network.specs.Building.{Waiting};

    ghost Value = { Waiting };

    ghost view = { λ waiting. record { name = waiting.name; value = waiting.value; lockgeom = waiting.lockgeom } };
}

impl WaitingValue {
    pub fn new(name: Text, value: Value, lockgeom: Option<bool>) -> WaitingValue
        ensures { result ≡ record { name = name; value = value; lockgeom = lockgeom } }
    {
        WaitingValue {
            name,
            value,
            lockgeom,
        }
    }

    /// The parameter's name.
    pub fn name(&self) -> &Text
        ensures { result.now ≡ self.now.name }
    {
        &self.name
    }

    pub fn value(&self) -> &Value
        ensures { result.now ≡ self.now.value }
    {
        &self.value
    }

    /// Whether the parameter is locked, if it was said.
    pub fn lockgeom(&self) -> Option<bool>
        ensures { result ≡ self.now.lockgeom }
    {
        self.lockgeom
    }
}

/// The values that wait. Contracts see them as their list.
#[derive(Drop)]
pub struct WaitingValues {
    values: Vec<WaitingValue>,
}

impl Model for WaitingValues {
    ghost use Rattle.std.specs.Prelude.{List};
    ghost use Rattle.osl_network.specs.Building.{Waiting};

    ghost Value = { List Waiting };

    ghost view = { λ waiting. waiting.values.items };
}

impl WaitingValues {
    /// No values.
    pub fn new(alloc: Global) -> WaitingValues
        ensures { result ≡ [] }
    {
        WaitingValues {
            values: Vec::new(alloc),
        }
    }

    pub fn as_slice(&self) -> &[WaitingValue]
        ensures { result.now ≡ self.now }
    {
        self.values.as_slice()
    }

    /// The place of the value for the parameter of a name.
    pub fn place_of(&self, name: &Text) -> Option<usize>
        ensures { result ≡ position (λ waiting. bytes_eq name.now waiting.name) self.now }
    {
        self.values
            .iter()
            .position(|waiting| name.bytes() == waiting.name().bytes())
    }

    /// Adds a value, in the place of the one of its name if there is one. Where an allocation fails, the values stay as they were.
    pub fn put(&mut self, new: WaitingValue) -> Result<(), Memory>
        ensures put { OnOk result (self.new ≡ waiting_with new self.old) }
        ensures same { OnErr result (self.new ≡ self.old) }
    {
        match self.place_of(new.name()) {
            Some(at) => {
                self.values[at] = new;
                Ok(())
            }
            None => {
                self.values.push(new)?;
                Ok(())
            }
        }
    }

    /// Drops all of them.
    pub fn clear(&mut self)
        ensures { self.new ≡ [] }
    {
        self.values.clear();
    }
}
