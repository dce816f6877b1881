//! A whole source: structures and functions, and then one shader. OSL specification, sections
//! "Shader declarations" and "Functions".

use crate::stmt::{Init, Item, Stmt, TypeName};
use osl_value::ShaderKind;
use sqlite_items::Items;

/// Fields of one type, as they are on one line of a structure.
#[derive(Drop)]
pub struct Fields {
    pub ty: TypeName,
    pub items: Items<Item>,
}

/// `struct name { float a, b; };`
#[derive(Drop)]
pub struct Structure {
    pub name: Items<u8>,
    pub fields: Items<Fields>,
}

/// A parameter of a function.
#[derive(Drop)]
pub struct Formal {
    pub output: bool,
    pub ty: TypeName,
    pub item: Item,
}

/// A function.
#[derive(Drop)]
pub struct Function {
    /// None stands for `void`.
    pub result: Option<TypeName>,
    pub name: Items<u8>,
    pub formals: Items<Formal>,
    pub body: Items<Stmt>,
}

/// What may come before the shader.
#[derive(Drop)]
pub enum Definition {
    Structure(Structure),
    Function(Function),
}

/// One datum of metadata.
#[derive(Drop)]
pub struct Datum {
    pub ty: TypeName,
    pub item: Item,
    pub init: Init,
}

/// A parameter of a shader. It has no metadata where the list is empty.
#[derive(Drop)]
pub struct Param {
    pub output: bool,
    pub ty: TypeName,
    pub item: Item,
    pub init: Init,
    pub metadata: Items<Datum>,
}

/// A shader. It has no metadata of its own where the list is empty.
#[derive(Drop)]
pub struct Shader {
    pub kind: ShaderKind,
    pub name: Items<u8>,
    pub metadata: Items<Datum>,
    pub params: Items<Param>,
    pub body: Items<Stmt>,
}

/// A source.
#[derive(Drop)]
pub struct Tree {
    pub definitions: Items<Definition>,
    pub shader: Shader,
}
