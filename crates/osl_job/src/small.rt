//! A shader of the small form that runs today: float parameters, and assignments of sums of floats.

ghost use Rattle.std.specs.Prelude.{◌≡◌, ◌<◌, ◌^◌, length, IfSome};
ghost use Rattle.osl_job.specs.SmallNames.{param_named, output_named};

use osl_value::Fx;
use sqlite_items::{Boxed, Items};

/// An operation of two floats.
#[derive(Clone, Copy, Debug, PartialEq, Eq)]
pub enum SumOp {
    Add,
    Sub,
}

/// An expression. A variable is named by its number: parameters come first, counted from 0.
#[derive(Drop)]
pub enum Expr {
    Const(Fx),
    Var(u32),
    Apply(SumOp, Boxed<Expr>, Boxed<Expr>),
}

/// A parameter, with its default.
#[derive(Drop)]
pub struct Param {
    pub name: Items<u8>,
    pub output: bool,
    pub default: Expr,
}

/// A statement that gives a variable a value.
#[derive(Drop)]
pub struct Assignment {
    pub target: u32,
    pub value: Expr,
}

/// A shader of the small form, its names tied to their declarations.
#[derive(Drop)]
pub struct SmallShader {
    pub name: Items<u8>,
    pub params: Items<Param>,
    pub body: Items<Assignment>,
}

/// The number of the parameter of this name.
pub fn find_param(params: &[Param], name: &[u8]) -> Option<u32>
    requires { length params.now < 2 ^ 32 }
    ensures number { result ≡ param_named params.now name.now }
    ensures within { IfSome result (λ number. number < length params.now) }
{
    for (at, param) in params.iter().enumerate() {
        if param.name.as_slice() == name {
            return Some(at as u32);
        }
    }
    None
}

/// The number of the output parameter of this name.
pub fn find_output(params: &[Param], name: &[u8]) -> Option<u32>
    requires { length params.now < 2 ^ 32 }
    ensures number { result ≡ output_named params.now name.now }
    ensures within { IfSome result (λ number. number < length params.now) }
{
    for (at, param) in params.iter().enumerate() {
        if param.output && param.name.as_slice() == name {
            return Some(at as u32);
        }
    }
    None
}
