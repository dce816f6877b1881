//! Typed structures, functions and shaders. OSL specification, sections "Functions" and "Shader
//! declarations".

use crate::stmt::{TypedInit, TypedStmt};
use osl_overload::{Formal, Kind};
use osl_value::{ShaderKind, Ty};
use sqlite_items::Items;

/// A structure: the kinds of its fields. It is known by its number, counted from 0 in the order of
/// declaration, and a field that is a structure has a smaller one.
#[derive(Drop)]
pub struct TypedStructure {
    pub fields: Items<Kind>,
}

/// A function. It is known by its number, counted from 0 in the order of declaration, and calls
/// functions of smaller numbers alone.
#[derive(Drop)]
pub struct TypedFunction {
    pub result: Kind,
    pub formals: Items<Formal>,

    /// The kinds of all its variables, by their numbers: the formal parameters first.
    pub frame: Items<Kind>,
    pub body: Items<TypedStmt>,
}

/// One datum of metadata. Its value is a constant.
#[derive(Drop)]
pub struct TypedDatum {
    pub ty: Ty,
    pub name: Items<u8>,
    pub init: TypedInit,
}

/// A parameter of a shader, with its default.
#[derive(Drop)]
pub struct TypedParam {
    pub output: bool,
    pub ty: Ty,
    pub name: Items<u8>,
    pub init: TypedInit,
    pub metadata: Items<TypedDatum>,
}

/// A source: its shader, and the structures and functions before it.
#[derive(Drop)]
pub struct TypedShader {
    pub structures: Items<TypedStructure>,
    pub functions: Items<TypedFunction>,
    pub kind: ShaderKind,
    pub name: Items<u8>,
    pub metadata: Items<TypedDatum>,
    pub params: Items<TypedParam>,

    /// The kinds of all variables of the shader, by their numbers: the parameters first.
    pub frame: Items<Kind>,
    pub body: Items<TypedStmt>,

    /// The lengths of the longest name of the source, and of its longest string outside metadata.
    pub longest_word: u64,
    pub longest_text: u64,
}
