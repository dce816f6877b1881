//! The instance values of a group's layers.

ghost use Rattle.std.specs.Prelude.{◌≡◌, ◌<◌, ◌++◌, [], ◌∷◌, length, map, Some, IfOk, OnOk, OnErr, slice_index_or};
ghost use Rattle.std.specs.Arc.{arc_value};
ghost use Rattle.osl_network.specs.Edits.{with_value};
ghost use Rattle.osl_network.specs.Runs.{values_of};

use osl_value::{LayerValues, Memory, Value};
use std::alloc::Global;
use std::marker::Model;
use std::sync::Arc;

/// The instance values of a group's layers, one list for each. Contracts see them as the list of these lists.
///
/// Each layer's values are shared: a copy costs a share for each layer, and a changed value a copy of its own layer.
#[derive(Drop)]
pub struct Values {
    layers: Vec<Arc<LayerValues>>,
}

impl Model for Values {
    ghost use Rattle.std.specs.Prelude.{List, Option, map};
    ghost use Rattle.std.specs.Arc.{arc_value};
    ghost use Rattle.osl_value.specs.Plain.{Plain};

    ghost Value = { List (List (Option Plain)) };

    ghost view = { λ values. map (λ layer. arc_value layer) values.layers.items };
}

impl Values {
    /// The values of no layers.
    pub fn new(alloc: Global) -> Values
        ensures { result ≡ [] }
    {
        Values {
            layers: Vec::new(alloc),
        }
    }

    /// Adds the values of a further layer.
    pub fn push(&mut self, alloc: Global, values: LayerValues) -> Result<(), Memory>
        ensures pushed { OnOk result (self.new ≡ self.old ++ values ∷ []) }
        ensures same { OnErr result (self.new ≡ self.old) }
    {
        let layer = Arc::new(alloc, values)?;
        self.layers.push(layer)?;
        Ok(())
    }

    /// Equal values, which share each layer with these.
    pub fn copy(&self, alloc: Global) -> Result<Values, Memory>
        ensures { IfOk result (λ copy. copy ≡ self.now) }
    {
        let layers = shares_of(alloc, self.layers.as_slice())?;
        Ok(Values { layers })
    }

    /// The values of a layer.
    pub fn layer(&self, layer: u32) -> &LayerValues
        requires { layer < length self.now }
        ensures { result.now ≡ values_of self.now layer }
    {
        &self.layers[layer as usize]
    }

    /// Gives a parameter this value. Other values that share the layer keep theirs.
    pub fn set(&mut self, alloc: Global, layer: u32, param: u32, value: Value) -> Result<(), Memory>
        requires layer { layer < length self.old }
        requires param { param < length (values_of self.old layer) }
        ensures set { OnOk result (self.new ≡ with_value self.old layer param value) }
        ensures same { OnErr result (self.new ≡ self.old) }
    {
        let mut values = self.layer(layer).copy(alloc)?;
        values.set(param, Some(value));
        let changed = Arc::new(alloc, values)?;
        self.layers[layer as usize] = changed;
        Ok(())
    }
}

/// A share of each.
fn shares_of(alloc: Global, layers: &[Arc<LayerValues>]) -> Result<Vec<Arc<LayerValues>>, Memory>
    ensures { IfOk result (λ shares. map (λ layer. arc_value layer) shares.items ≡ map (λ layer. arc_value layer) layers.now) }
{
    let mut shares = Vec::with_capacity(alloc, layers.len())?;
    for layer in layers {
        shares.push(Arc::try_clone(layer)?)?;
    }
    Ok(shares)
}
