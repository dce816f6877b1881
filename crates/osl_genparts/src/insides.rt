//! The body that code is made of.

use osl_overload::{Formal, Kind};
use osl_typed::{TypedFunction, TypedStructure};
use osl_value::ShaderKind;

/// What a body sees, and where its variables are. `specs/Insides.antt` says which symbols they have.
#[derive(Clone, Copy)]
pub struct Insides<'a> {
    pub structures: &'a [TypedStructure],
    pub functions: &'a [TypedFunction],

    /// The functions below this number may be called.
    pub callable: u32,

    /// The kinds of the variables.
    pub kinds: &'a [Kind],

    /// The variables below this number have symbols.
    pub ready: u32,

    /// The parameters of the shader or of the function, as those of a function.
    pub formals: &'a [Formal],

    /// Whether it is a function's body, which assigns no global variable.
    pub in_function: bool,

    /// The kind of the shader.
    pub kind: ShaderKind,

    /// The parameter of whose default it is a part, if it is one of a default.
    pub owner: Option<u32>,

    /// The symbol of the first leaf of the frame.
    pub start: u32,

    /// The leaves below this number have the symbols of their numbers.
    pub split: u32,

    /// How much further up the symbols of the other leaves are.
    pub shift: u32,

    /// The symbol of the first global variable.
    pub globals: u32,

    /// How many parameters the shader has.
    pub params: u32,
}
