ghost use Rattle.std.specs.Prelude.{◌≡◌, IfOk};

use crate::fx::Fx;
use crate::memory::Memory;
use crate::text::Text;
use std::marker::Model;

/// A closure primitive (OSL specification, "Material closures").
#[derive(Clone, Copy, Debug, PartialEq, Eq)]
pub enum Primitive {
    Emission,
    Background,
    Holdout,
    Transparent,
    Diffuse,
    OrenNayar,
    Translucent,
    Reflection,
    Refraction,
    Debug,
}

impl Primitive {
    ghost use Rattle.osl_value.specs.PrimitiveText.{primitive_name};

    /// The name of the function of the language that gives it.
    pub fn name(self) -> &'static str
        ensures { result.now ≡ primitive_name self }
    {
        match self {
            Primitive::Emission => "emission",
            Primitive::Background => "background",
            Primitive::Holdout => "holdout",
            Primitive::Transparent => "transparent",
            Primitive::Diffuse => "diffuse",
            Primitive::OrenNayar => "oren_nayar",
            Primitive::Translucent => "translucent",
            Primitive::Reflection => "reflection",
            Primitive::Refraction => "refraction",
            Primitive::Debug => "debug",
        }
    }
}

/// One part of a closure: a weighted primitive with its arguments. What the primitive lacks is
/// zero or empty.
#[derive(Debug, Drop)]
pub struct Part {
    pub weight: [Fx; 3],
    pub prim: Primitive,
    pub normal: [Fx; 3],
    pub number: Fx,
    pub text: Text,
}

impl Part {
    /// An equal part.
    pub fn copy(&self) -> Result<Part, Memory>
        ensures { IfOk result (λ part. part ≡ self.now) }
    {
        let text = self.text.copy()?;
        Ok(Part {
            weight: self.weight,
            prim: self.prim,
            normal: self.normal,
            number: self.number,
            text,
        })
    }
}

/// The parts of a closure in their order. Contracts see it as the list.
#[derive(Debug, Drop)]
pub struct PartList {
    parts: Vec<Part>,
}

impl Model for PartList {
    ghost use Rattle.std.specs.Prelude.{List};
    ghost use Rattle.osl_value.specs.declared.closure.Part.{Part};

    ghost Value = { List Part };

    ghost view = { λ l. l.parts.items };
}

impl PartList {
    pub fn new(parts: Vec<Part>) -> PartList
        ensures { result ≡ parts.items }
    {
        PartList { parts }
    }

    pub fn as_slice(&self) -> &[Part]
        ensures { result.now ≡ self.now }
    {
        self.parts.as_slice()
    }

    /// The parts, given back.
    pub fn into_vec(self) -> Vec<Part>
        ensures { result.items ≡ self }
    {
        let PartList { parts } = self;
        parts
    }
}
