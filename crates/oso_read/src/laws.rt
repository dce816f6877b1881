//! Laws of the definitions, each the contract of a function.

ghost use Rattle.std.specs.Prelude.{◌≡◌, ℕ, List, IsTrue};
ghost use Rattle.oso_code.specs.declared.raw.Raw.{Raw};
ghost use Rattle.oso_code.specs.Valid.{IsValid};
ghost use Rattle.oso_write.specs.Canon.{canon};
ghost use Rattle.oso_read.specs.Spelt.{can_spell, Spelt};

use crate::strings::can_spell;
use oso_code::Shader;

/// No bytes spell two shaders.
pub fn one_shader()
    ensures { (bytes : List ℕ) (x y : Raw) → Spelt bytes x → Spelt bytes y → x ≡ y }
{}

/// The canonical text of a shader spells it.
pub fn canonical_text_spells()
    ensures { (raw : Raw) → IsValid raw → IsTrue (can_spell raw) → Spelt (canon raw) raw }
{}

/// The canonical text of a shader spells it: its strings are those of the language.
pub fn shader_text_spells(shader: &Shader)
    ensures { Spelt (canon shader.now) shader.now }
{
    can_spell(shader.raw());
}
