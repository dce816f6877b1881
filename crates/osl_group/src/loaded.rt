//! A loaded shader, whose parameters are found by their names.

ghost use Rattle.std.specs.Prelude.{◌≡◌, IfOk, IfErr};
ghost use Rattle.oso_code.specs.Valid.{IsValid};
ghost use Rattle.osl_network.specs.Network.{port_named};
ghost use Rattle.osl_network.specs.Shaders.{ports_of};
ghost use Rattle.osl_group.specs.Loaded.{names_of};

use crate::names::NameTable;
use crate::ports::ports_of;
use osl_network::Port;
use osl_value::{Memory, Text};
use oso_code::{Raw, Shader};
use std::alloc::Global;
use std::marker::Model;

/// A shader under the name by which it is loaded, with its parameters and a table of their names. Contracts see its name and its code.
#[derive(Drop)]
pub struct LoadedShader {
    name: Text,
    shader: Shader,
    params: Vec<Port>,
    table: NameTable,
}

impl Model for LoadedShader {
    ghost use Rattle.std.specs.Prelude.{◌≡◌};
    ghost use Rattle.osl_network.specs.Shaders.{ports_of};
    ghost use Rattle.osl_group.specs.Loaded.{NamedCode, names_of};

    ghost Value = { NamedCode };

    ghost view = { λ loaded. record { name = loaded.name; code = loaded.shader } };

    ghost invariant = { λ loaded. (loaded.params.items ≡ ports_of loaded.shader) × (loaded.table ≡ names_of (ports_of loaded.shader)) };
}

impl LoadedShader {
    /// The shader under this name. Where an allocation fails, it is given back.
    pub fn new(alloc: Global, name: &Text, shader: Shader) -> Result<LoadedShader, Shader>
        ensures ok { IfOk result (λ loaded. loaded ≡ record { name = name.now; code = shader }) }
        ensures err { IfErr result (λ back. back ≡ shader) }
    {
        let Ok(name) = name.copy() else {
            return Err(shader);
        };
        let Ok(params) = ports_of(alloc, shader.raw()) else {
            return Err(shader);
        };
        let Ok(table) = parameter_names(alloc, shader.raw()) else {
            return Err(shader);
        };
        Ok(LoadedShader {
            name,
            shader,
            params,
            table,
        })
    }

    /// The name by which it is loaded.
    pub fn name(&self) -> &Text
        ensures { result.now ≡ self.now.name }
    {
        &self.name
    }

    /// The code itself.
    pub fn code(&self) -> &Shader
        ensures { result.now ≡ self.now.code }
    {
        &self.shader
    }

    /// Its parameters, in their order.
    pub fn params(&self) -> &[Port]
        ensures { result.now ≡ ports_of self.now.code }
    {
        self.params.as_slice()
    }

    /// The number of the parameter of a name.
    pub fn param_named(&self, name: &Text) -> Option<usize>
        ensures { result ≡ port_named (ports_of self.now.code) name.now }
    {
        self.table.place_of(name.bytes())
    }

    /// The shader, given back.
    pub fn into_shader(self) -> Shader
        ensures { result ≡ self.code }
    {
        let LoadedShader {
            name: _,
            shader,
            params: _,
            table: _,
        } = self;
        shader
    }
}

/// The names of the parameters of valid code.
fn parameter_names(alloc: Global, raw: &Raw) -> Result<NameTable, Memory>
    requires { IsValid raw.now }
    ensures { IfOk result (λ names. names ≡ names_of (ports_of raw.now)) }
{
    let mut names = NameTable::new(alloc);
    for symbol in raw.symbols.as_slice() {
        if symbol.class.is_parameter() {
            names.push(alloc, symbol.name.bytes())?;
        }
    }
    Ok(names)
}
