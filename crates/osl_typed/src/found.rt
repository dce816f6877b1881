//! What typing knows of names and of expressions.

use crate::expr::{Part, Root, TypedExpr};
use osl_overload::Kind;
use osl_value::OpName;
use sqlite_items::{Boxed, Items};

/// What a variable's name is tied to.
#[derive(Drop)]
pub struct Binding {
    pub name: Items<u8>,

    /// How many blocks are round the declaration: 0 for a global variable.
    pub depth: u32,
    pub root: Root,
    pub kind: Kind,

    /// Whether it may be assigned.
    pub writable: bool,
}

/// What is called.
#[derive(Clone, Copy, Debug, PartialEq, Eq)]
pub enum Callee {
    /// The declared function of this number.
    Declared(u32),
    /// An operation.
    Operation(OpName),
    /// `substr` of two arguments, whose length is 512.
    SubstrToEnd,
    /// `exit`
    Exit,
}

/// An expression, as its suffixes build it up. Trees are boxed to keep a form small and cheap to drop.
#[derive(Drop)]
pub enum Form {
    /// A variable or a part of one, and whether it may be assigned.
    Place(Root, bool, Part, Items<TypedExpr>),
    /// A part of a value, by the kind of that value.
    Piece(Kind, Boxed<TypedExpr>, Part, Items<TypedExpr>),
    /// Any other expression.
    Whole(Boxed<TypedExpr>),
}

/// A typed expression, and what is known of it.
#[derive(Drop)]
pub struct Found {
    pub form: Form,
    pub kind: Kind,

    /// Whether it is the literal `0`, which may mean the empty closure.
    pub zero_literal: bool,

    /// Whether it is a row of a matrix: a matrix with one index, which is no expression yet.
    pub is_row: bool,
}
