//! Typed statements. OSL specification, section "Declarations, statements and blocks".

use crate::expr::TypedExpr;
use osl_overload::Kind;
use sqlite_items::{Boxed, Items};

/// An initialiser: of a variable, a parameter or a datum.
#[derive(Drop)]
pub enum TypedInit {
    Expr(TypedExpr),
    /// `{a, b}`: the first elements of an array or fields of a structure; the others are zero.
    List(Items<TypedExpr>),
}

/// A variable that is declared: its number in the frame, its kind, and its initialiser. Without one
/// it begins as zero, each time that the declaration is executed.
#[derive(Drop)]
pub struct Declared {
    pub number: u32,
    pub kind: Kind,
    pub init: Option<TypedInit>,
}

/// The first part of a `for`.
#[derive(Drop)]
pub enum TypedForStart {
    Nothing,
    Expr(TypedExpr),
    Declare(Items<Declared>),
}

/// A statement.
#[derive(Drop)]
pub enum TypedStmt {
    /// `;`
    Empty,
    Block(Items<TypedStmt>),
    Declare(Items<Declared>),
    Expr(TypedExpr),
    Break,
    Continue,
    Return(Option<TypedExpr>),
    If(TypedExpr, Boxed<TypedStmt>, Option<Boxed<TypedStmt>>),
    While(TypedExpr, Boxed<TypedStmt>),
    DoWhile(Boxed<TypedStmt>, TypedExpr),
    For(TypedForStart, Option<TypedExpr>, Option<TypedExpr>, Boxed<TypedStmt>),
}
