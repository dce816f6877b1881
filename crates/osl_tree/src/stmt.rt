//! Statements and declarations: OSL specification, section "Declarations, statements and blocks".

use crate::expr::{BaseType, Expr};
use sqlite_items::{Boxed, Items};

/// A type.
#[derive(Drop)]
pub enum TypeName {
    Base(BaseType),
    /// A structure, by its name.
    Struct(Items<u8>),
}

/// What is declared: a name, and the length of an array.
#[derive(Drop)]
pub struct Item {
    pub name: Items<u8>,
    pub len: Option<i32>,
}

/// The initialiser of a variable or a parameter.
#[derive(Drop)]
pub enum Init {
    Expr(Expr),
    /// `{a, b}`: elements or fields in order.
    List(Items<Expr>),
}

/// One variable of a declaration.
#[derive(Drop)]
pub struct Var {
    pub item: Item,
    pub init: Option<Init>,
}

/// `float a, b = 1;`
#[derive(Drop)]
pub struct Declaration {
    pub ty: TypeName,
    pub vars: Items<Var>,
}

/// The first part of a `for`.
#[derive(Drop)]
pub enum ForStart {
    Nothing,
    Expr(Expr),
    Declare(Declaration),
}

/// A statement: a variant for each alternative of the grammar.
#[derive(Drop)]
pub enum Stmt {
    /// `;`
    Empty,
    /// `{ .. }`
    Block(Items<Stmt>),
    Declare(Declaration),
    /// `a;`
    Expr(Expr),
    Break,
    Continue,
    Return(Option<Expr>),
    /// `if (a) b else c`
    If(Expr, Boxed<Stmt>, Option<Boxed<Stmt>>),
    /// `while (a) b`
    While(Expr, Boxed<Stmt>),
    /// `do a while (b);`
    DoWhile(Boxed<Stmt>, Expr),
    /// `for (a; b; c) d`
    For(ForStart, Option<Expr>, Option<Expr>, Boxed<Stmt>),
}

/// How a statement begins, where a terminal of its own begins it.
#[derive(Clone, Copy, Debug, PartialEq, Eq)]
pub enum Start {
    Empty,
    Block,
    Break,
    Continue,
    Return,
    If,
    While,
    Do,
    For,
}
