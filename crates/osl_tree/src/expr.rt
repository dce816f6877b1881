//! Expressions: a variant for each alternative of the grammar that has more than one part, and for
//! each kind of leaf. OSL specification, section "Expressions".

use osl_value::Fx;
use sqlite_items::{Boxed, Items};

/// A type that reserved words name.
#[derive(Clone, Copy, Debug, PartialEq, Eq)]
pub enum BaseType {
    Int,
    Float,
    Color,
    Point,
    Vector,
    Normal,
    Matrix,
    /// `string`
    Str,
    /// `closure color`
    Closure,
}

/// An operator that comes before its operand.
#[derive(Clone, Copy, Debug, PartialEq, Eq)]
pub enum PrefixOp {
    Minus,
    Plus,
    /// `~`
    Complement,
    /// `!` or `not`
    Not,
    Increment,
    Decrement,
}

/// An operator that comes after its operand.
#[derive(Clone, Copy, Debug, PartialEq, Eq)]
pub enum PostfixOp {
    Increment,
    Decrement,
}

/// An operator between two operands.
#[derive(Clone, Copy, Debug, PartialEq, Eq)]
pub enum BinaryOp {
    /// `||` or `or`
    Or,
    /// `&&` or `and`
    And,
    BitOr,
    BitXor,
    BitAnd,
    Equal,
    NotEqual,
    Less,
    LessEqual,
    Greater,
    GreaterEqual,
    ShiftLeft,
    ShiftRight,
    Add,
    Subtract,
    Multiply,
    Divide,
    Remainder,
}

/// An assignment: alone, or with the operation of its two sides.
#[derive(Clone, Copy, Debug, PartialEq, Eq)]
pub enum AssignOp {
    Set,
    Add,
    Subtract,
    Multiply,
    Divide,
    ShiftLeft,
    ShiftRight,
    BitAnd,
    BitOr,
    BitXor,
}

/// An expression. A name is given by its bytes, and a string by the bytes that it stands for.
#[derive(Drop)]
pub enum Expr {
    Int(i32),
    Float(Fx),
    Text(Items<u8>),
    /// `name`
    Name(Items<u8>),
    /// `name(a, b)`
    Call(Items<u8>, Items<Expr>),
    /// `color(a, b, c)`
    Construct(BaseType, Items<Expr>),
    /// `(a)`
    Paren(Boxed<Expr>),
    /// `a[b]`
    Index(Boxed<Expr>, Boxed<Expr>),
    /// `a.name`
    Field(Boxed<Expr>, Items<u8>),
    /// `a++`
    Postfix(PostfixOp, Boxed<Expr>),
    /// `-a`
    Prefix(PrefixOp, Boxed<Expr>),
    /// `(float) a`
    Cast(BaseType, Boxed<Expr>),
    /// `a + b`
    Binary(BinaryOp, Boxed<Expr>, Boxed<Expr>),
    /// `a ? b : c`
    Choice(Boxed<Expr>, Boxed<Expr>, Boxed<Expr>),
    /// `a += b`
    Assign(AssignOp, Boxed<Expr>, Boxed<Expr>),
}

/// What may follow a part of an expression and go on with it.
#[derive(Clone, Copy, Debug, PartialEq, Eq)]
pub enum Suffix {
    /// `[`
    Index,
    /// `.`
    Field,
    Increment,
    Decrement,
}
