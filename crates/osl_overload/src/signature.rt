ghost use Rattle.std.specs.Prelude.{◌≡◌};

use osl_value::Ty;
use std::marker::Model;

/// The type of an expression, a parameter or a result.
#[derive(Clone, Copy, Debug, PartialEq, Eq)]
pub enum Kind {
    /// A type that is no structure.
    Value(Ty),
    /// The structure of this number.
    Structure(u32),
    /// No value.
    Void,
}

/// A parameter of a function.
#[derive(Clone, Copy, Debug, PartialEq, Eq)]
pub struct Formal {
    pub kind: Kind,

    /// Whether it is marked `output`, and is copied back at the return.
    pub output: bool,
}

/// The parameters of a function in their order. Contracts see it as the list.
#[derive(Debug, Drop)]
pub struct FormalList {
    formals: Vec<Formal>,
}

impl Model for FormalList {
    ghost use Rattle.std.specs.Prelude.{List};
    ghost use Rattle.osl_overload.specs.declared.signature.Formal.{Formal};

    ghost Value = { List Formal };

    ghost view = { λ list. list.formals.items };
}

impl FormalList {
    pub fn new(formals: Vec<Formal>) -> FormalList
        ensures { result ≡ formals.items }
    {
        FormalList { formals }
    }

    pub fn as_slice(&self) -> &[Formal]
        ensures { result.now ≡ self.now }
    {
        &self.formals
    }
}

/// A function that may be called: its parameters, and the kind of what it gives.
#[derive(Debug, Drop)]
pub struct Signature {
    pub params: FormalList,
    pub result: Kind,
}

/// An argument of a call.
#[derive(Clone, Copy, Debug, PartialEq, Eq)]
pub struct Arg {
    pub kind: Kind,

    /// Whether it is the literal `0`, which may stand for the empty closure.
    pub zero_literal: bool,

    /// Whether it is a variable that may be assigned, or a part of one.
    pub writable: bool,
}
