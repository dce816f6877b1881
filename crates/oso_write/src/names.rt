//! The words of kinds and classes.

ghost use Rattle.std.specs.Prelude.{◌≡◌};
ghost use Rattle.oso_write.specs.Names.{kind_name, class_name};

use osl_value::ShaderKind;
use oso_code::Class;

/// The name of a kind in the text of code.
pub fn kind_name(kind: ShaderKind) -> &'static [u8]
    ensures { result.now ≡ kind_name kind }
{
    match kind {
        ShaderKind::Surface => b"surface",
        ShaderKind::Displacement => b"displacement",
        ShaderKind::Volume => b"volume",
        ShaderKind::Shader => b"shader",
    }
}

/// The name of a class in the text of code.
pub fn class_name(class: Class) -> &'static [u8]
    ensures { result.now ≡ class_name class }
{
    match class {
        Class::Param => b"param",
        Class::Oparam => b"oparam",
        Class::Global => b"global",
        Class::Const => b"const",
        Class::Local => b"local",
        Class::Temp => b"temp",
    }
}
