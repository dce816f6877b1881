//! The shaders that are loaded.

ghost use Rattle.std.specs.Prelude.{◌≡◌, ◌<◌, false, [], ◌∷◌, ◌++◌, length, slice_index_or, OnOk, IfErr};
ghost use Rattle.std.specs.List.{list_any};
ghost use Rattle.std.specs.Str.{bytes_eq};
ghost use Rattle.osl_network.specs.Building.{shader_named};
ghost use Rattle.osl_group.specs.Loaded.{loaded_of};

use crate::loaded::LoadedShader;
use crate::names::NameTable;
use osl_value::Text;
use oso_code::Shader;
use std::alloc::Global;
use std::marker::Model;

/// Loaded shaders, each found by its name. Contracts see them as the list of their names and codes.
#[derive(Drop)]
pub struct Shaders {
    table: NameTable,
    shaders: Vec<LoadedShader>,
}

impl Model for Shaders {
    ghost use Rattle.std.specs.Prelude.{◌≡◌, List, map};
    ghost use Rattle.osl_group.specs.Loaded.{NamedCode};

    ghost Value = { List NamedCode };

    ghost view = { λ loaded. loaded.shaders.items };

    ghost invariant = { λ loaded. loaded.table ≡ map (λ shader. shader.name) loaded.shaders.items };
}

impl Shaders {
    /// No shaders.
    pub fn new(alloc: Global) -> Shaders
        ensures { result ≡ [] }
    {
        Shaders {
            table: NameTable::new(alloc),
            shaders: Vec::new(alloc),
        }
    }

    /// The number of the shader of a name.
    pub fn named(&self, name: &Text) -> Option<usize>
        ensures { result ≡ shader_named (loaded_of self.now) name.now }
    {
        self.table.place_of(name.bytes())
    }

    pub fn as_slice(&self) -> &[LoadedShader]
        ensures { result.now ≡ self.now }
    {
        self.shaders.as_slice()
    }

    /// Loads a shader under a new name. Where an allocation fails, it is given back and the others stay as they were.
    pub fn load(&mut self, alloc: Global, name: &Text, shader: Shader) -> Result<(), Shader>
        requires { list_any (λ other. bytes_eq name.now other.name) self.old ≡ false }
        ensures loaded { OnOk result (self.new ≡ self.old ++ record { name = name.now; code = shader } ∷ []) }
        ensures same { IfErr result (λ back. (back ≡ shader) × (self.new ≡ self.old)) }
    {
        let loaded = LoadedShader::new(alloc, name, shader)?;
        if let Err(refused) = self.shaders.push(loaded) {
            return Err(refused.value.into_shader());
        }
        match self.table.push(alloc, name.bytes()) {
            Ok(()) => Ok(()),
            Err(_) => {
                let Some(loaded) = self.shaders.pop() else {
                    unreachable!()
                };
                Err(loaded.into_shader())
            }
        }
    }
}
