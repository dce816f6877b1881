//! Typed expressions. OSL specification, section "Expressions".

use osl_layer::GlobalName;
use osl_overload::Kind;
use osl_value::{Fx, OpName, Ty};
use sqlite_items::{Boxed, Items};

/// The variable that a name is tied to.
#[derive(Clone, Copy, Debug, PartialEq, Eq)]
pub enum Root {
    /// The declaration of this number in the frame: the parameters first, then the variables in the
    /// order of their declarations.
    Variable(u32),
    Global(GlobalName),
}

/// The way from a variable or a value to a part of it: first fields of structures, then indices
/// (which are expressions, and are kept beside it), then a component that is named.
#[derive(Drop)]
pub struct Part {
    /// The fields, each by its number in its structure, from the outermost structure on.
    pub fields: Items<u32>,

    /// The kind of what the fields lead to.
    pub kind: Kind,

    /// The number of the component after all indices: 0 for `.x` or `.r`, up to 2.
    pub component: Option<u32>,
}

/// What `++` and `--` do, and which value they give.
#[derive(Clone, Copy, Debug, PartialEq, Eq)]
pub enum Increment {
    /// `++x`, which gives the new value.
    PreIncrement,
    /// `--x`
    PreDecrement,
    /// `x++`, which gives the old value.
    PostIncrement,
    /// `x--`
    PostDecrement,
}

/// An expression, its names tied to their declarations, its calls to their functions, and its
/// promotions written in. Each node tells its kind without a look below.
#[cycle(expr)]
#[derive(Drop)]
pub enum TypedExpr {
    Int(i32),
    Float(Fx),
    Text(Items<u8>),
    /// A variable or a part of one, with the indices in order.
    Variable(Root, Part, Items<TypedExpr>),
    /// A part of the value of an expression that is no variable, by the kind of that value, with the
    /// indices in order.
    PartOf(Kind, Boxed<TypedExpr>, Part, Items<TypedExpr>),
    /// `(a)`, of this kind.
    Paren(Kind, Boxed<TypedExpr>),
    /// A value of another type where this one is wanted.
    Promote(Ty, Boxed<TypedExpr>),
    /// An operation, with the type that it gives and its operands. Casts, constructors and built-in
    /// functions are operations too.
    Apply(OpName, Ty, Items<TypedExpr>),
    /// `a && b`
    And(Boxed<TypedExpr>, Boxed<TypedExpr>),
    /// `a || b`
    Or(Boxed<TypedExpr>, Boxed<TypedExpr>),
    /// `a ? b : c`, of this kind.
    Choose(Kind, Boxed<TypedExpr>, Boxed<TypedExpr>, Boxed<TypedExpr>),
    /// `x = a`, where x is a variable or a part of one, with its indices.
    Assign(Root, Part, Items<TypedExpr>, Boxed<TypedExpr>),
    /// `x += a` and the like: the operation of x and a, and the type that it gives.
    Update(OpName, Ty, Root, Part, Items<TypedExpr>, Boxed<TypedExpr>),
    /// `++x` and the like, on a whole variable of this type.
    Step(Increment, Ty, Root),
    /// A call of the declared function of this number, which gives this kind.
    Call(u32, Kind, Items<Argument>),
    /// `exit()`
    Exit,
}

/// What is passed to a declared function.
#[cycle(expr)]
#[derive(Drop)]
pub enum Argument {
    /// A value, which is copied in.
    In(TypedExpr),
    /// A variable or a part of one, with its indices: it is copied in, and back at the return.
    Out(Root, Part, Items<TypedExpr>),
}
