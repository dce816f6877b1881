ghost use Rattle.std.specs.Prelude.{◌≡◌};

use osl_value::{Base, Ty};

/// A global variable (OSL specification, "Global variables").
#[derive(Clone, Copy, Debug, PartialEq, Eq)]
pub enum GlobalName {
    P,
    N,
    Ng,
    I,
    U,
    V,
    Ci,
}

impl GlobalName {
    ghost use Rattle.osl_layer.specs.Globals.{all_globals, global_text, global_named, type_of_global};

    /// All of them.
    pub const ALL: [GlobalName; 7] = [
        GlobalName::P,
        GlobalName::N,
        GlobalName::Ng,
        GlobalName::I,
        GlobalName::U,
        GlobalName::V,
        GlobalName::Ci,
    ];

    /// The name in the language.
    pub fn name(self) -> &'static str
        ensures { result.now ≡ global_text self }
    {
        match self {
            GlobalName::P => "P",
            GlobalName::N => "N",
            GlobalName::Ng => "Ng",
            GlobalName::I => "I",
            GlobalName::U => "u",
            GlobalName::V => "v",
            GlobalName::Ci => "Ci",
        }
    }

    /// The global of a name, if there is one.
    pub fn named(name: &[u8]) -> Option<GlobalName>
        ensures { result ≡ global_named name.now }
    {
        match name {
            b"P" => Some(GlobalName::P),
            b"N" => Some(GlobalName::N),
            b"Ng" => Some(GlobalName::Ng),
            b"I" => Some(GlobalName::I),
            b"u" => Some(GlobalName::U),
            b"v" => Some(GlobalName::V),
            b"Ci" => Some(GlobalName::Ci),
            _ => None,
        }
    }

    /// Its type.
    pub fn ty(self) -> Ty
        ensures { result ≡ type_of_global self }
    {
        match self {
            GlobalName::P => Ty::only(Base::Point),
            GlobalName::N | GlobalName::Ng => Ty::only(Base::Normal),
            GlobalName::I => Ty::only(Base::Vector),
            GlobalName::U | GlobalName::V => Ty::only(Base::Float),
            GlobalName::Ci => Ty::only(Base::Closure),
        }
    }
}
