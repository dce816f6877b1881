//! The typed tree of a source, with its sizes.

ghost use Rattle.std.specs.Prelude.{◌≡◌, IfOk};
ghost use Rattle.osl_typed.specs.Measured.{measured};
ghost use Rattle.osl_typed.specs.SourceTyping.{IsTypingOfSource};

use crate::measure::sizes_of;
use crate::shader::TypedShader;
use crate::sizes::Sizes;
use osl_value::Memory;
use std::alloc::Global;
use std::marker::Model;

/// The typed tree of a source: no other tree can be made one. Contracts see it as the shader; its sizes are kept
/// beside it.
#[derive(Drop)]
pub struct Typed {
    shader: TypedShader,
    sizes: Sizes,
}

impl Model for Typed {
    ghost use Rattle.std.specs.Prelude.{◌≡◌};
    ghost use Rattle.osl_typed.specs.Measured.{measured};
    ghost use Rattle.osl_typed.specs.SourceTyping.{IsTypingOfSource};
    ghost use Rattle.osl_typed.specs.declared.shader.TypedShader.{TypedShader};
    ghost use Rattle.osl_typed.specs.contracts.shader.TypedShader.{the_row};

    ghost Value = { TypedShader };

    ghost coded = { the_row.coded };

    ghost view = { λ t. t.shader };

    ghost invariant = { λ t. (t.sizes ≡ measured t.shader) × IsTypingOfSource t.shader };
}

impl Typed {
    /// The typed tree of a source, with its sizes.
    pub fn new(alloc: Global, shader: TypedShader) -> Result<Typed, Memory>
        requires { IsTypingOfSource shader }
        ensures { IfOk result (λ typed. typed ≡ shader) }
    {
        let sizes = sizes_of(alloc, &shader)?;
        Ok(Typed { shader, sizes })
    }

    /// The shader. It is the typing of some source.
    pub fn shader(&self) -> &TypedShader
        ensures value { result.now ≡ self.now }
        ensures typing { IsTypingOfSource self.now }
    {
        &self.shader
    }
}

/// The sizes of a typed tree, each stopped at one above its limit. It takes no memory and looks at
/// no node.
pub fn measure(typed: &Typed) -> Sizes
    ensures { result ≡ measured typed.now }
{
    typed.sizes
}
