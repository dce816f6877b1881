//! Points with variables.

ghost use Rattle.std.specs.Prelude.{◌≡◌, ◌↔◌, IsSome, IfSome, []};
ghost use Rattle.osl_network.specs.Points.{AreVariables, are_distinct, has_variable};

use osl_value::{Point, Text, Value};
use std::alloc::Global;
use std::marker::Model;

/// A variable that a point carries (OSL specification, "Primitive variables"): it takes the place of the instance value of
/// interactive parameters of its name and type.
#[derive(Debug, Drop)]
pub struct Var {
    pub name: Text,
    pub value: Value,
}

/// The variables of a point: at most 16, no two of one name. Contracts see them as their list.
#[derive(Debug, Drop)]
pub struct VarList {
    vars: Vec<Var>,
}

impl Model for VarList {
    ghost use Rattle.std.specs.Prelude.{List};
    ghost use Rattle.osl_network.specs.Points.{AreVariables};
    ghost use Rattle.osl_network.specs.declared.variables.Var.{Var};

    ghost Value = { List Var };

    ghost view = { λ list. list.vars.items };

    ghost invariant = { λ list. AreVariables list.vars.items };
}

/// A point with its variables.
#[derive(Debug, Drop)]
pub struct VarPoint {
    pub point: Point,
    pub vars: VarList,
}

/// The most variables of a point.
const MOST: usize = 16;

impl VarList {
    /// The list of these variables, or `None` where there are more than 16 or two of one name.
    pub fn new(vars: Vec<Var>) -> Option<VarList>
        ensures fits { IsSome result ↔ AreVariables vars.items }
        ensures value { IfSome result (λ list. list ≡ vars.items) }
    {
        if vars.len() > MOST || !are_distinct(vars.as_slice()) {
            return None;
        }
        Some(VarList { vars })
    }

    /// No variables.
    pub fn none(alloc: Global) -> VarList
        ensures { result ≡ [] }
    {
        VarList {
            vars: Vec::new(alloc),
        }
    }

    pub fn as_slice(&self) -> &[Var]
        ensures value { result.now ≡ self.now }
        ensures fits { AreVariables self.now }
    {
        self.vars.as_slice()
    }
}

/// Whether one of the variables has the name.
fn has_variable(vars: &[Var], name: &Text) -> bool
    ensures { result ≡ has_variable vars.now name.now }
{
    vars.iter().any(|var| var.name.bytes() == name.bytes())
}

/// Whether no two variables have one name.
fn are_distinct(vars: &[Var]) -> bool
    ensures { result ≡ are_distinct vars.now }
{
    let mut rest = vars;
    while let [var, others @ ..] = rest {
        if has_variable(others, &var.name) {
            return false;
        }
        rest = others;
    }
    true
}
