ghost use Rattle.std.specs.Prelude.{◌≡◌};

use crate::list::ListOf;
use osl_value::{Text, Ty, Value};

/// What a symbol is.
#[derive(Clone, Copy, Debug, PartialEq, Eq)]
pub enum Class {
    /// A parameter that only its own section may write.
    Param,
    /// An output parameter.
    Oparam,
    /// A global variable of the language.
    Global,
    /// A value that no op writes.
    Const,
    /// A variable of the source.
    Local,
    /// A variable of the compiler.
    Temp,
}

impl Class {
    ghost use Rattle.oso_code.specs.Symbols.{is_parameter, is_global};

    /// Whether it is a parameter, output or not.
    pub fn is_parameter(self) -> bool
        ensures { result ≡ is_parameter self }
    {
        self == Class::Param || self == Class::Oparam
    }

    /// Whether it is a global variable.
    pub fn is_global(self) -> bool
        ensures { result ≡ is_global self }
    {
        self == Class::Global
    }
}

/// A datum of metadata (OSL specification, "Shader metadata"). A string in it may be longer than a string of
/// the language.
#[derive(Debug, Drop)]
pub struct Meta {
    pub ty: Ty,
    pub name: Text,

    /// Its numbers, an int as itself and a float as its units.
    pub nums: ListOf<i64>,

    /// Its strings, each as its bytes.
    pub texts: ListOf<ListOf<u8>>,
}

/// A symbol. Ops name it by its number, counted from 0.
#[derive(Debug, Drop)]
pub struct Symbol {
    pub class: Class,
    pub ty: Ty,
    pub name: Text,

    /// What a constant is, and what a parameter without an instance value starts at. A closure parameter has none.
    pub value: Option<Value>,

    /// The metadata of a parameter.
    pub metas: ListOf<Meta>,
}
