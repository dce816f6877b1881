//! Which expressions are constants, as metadata may hold: a number, perhaps negated, a string, or a constructor of
//! constants.

ghost use Rattle.std.specs.Prelude.{◌≡◌};
ghost use Rattle.std.specs.List.{list_all};
ghost use Rattle.osl_typed.specs.FileTyping.{constancy, is_constant, is_constant_init};
ghost use Rattle.osl_check.specs.Constancy.{is_minus, is_numeral};

use osl_tree::expr::{Expr, PrefixOp};
use osl_tree::stmt::Init;

/// Whether it is a number.
#[tactic(auto, using(crate::proofs::ConstancyLaws::laws))]
fn is_numeral(a: &Expr) -> bool
    ensures { result ≡ is_numeral (constancy a.now) }
{
    match a {
        Expr::Int(_) | Expr::Float(_) => true,
        Expr::Text(_) | Expr::Name(_) | Expr::Call(_, _) | Expr::Construct(_, _) => false,
        Expr::Paren(_) | Expr::Index(_, _) | Expr::Field(_, _) => false,
        Expr::Postfix(_, _) | Expr::Prefix(_, _) | Expr::Cast(_, _) => false,
        Expr::Binary(_, _, _) | Expr::Choice(_, _, _) | Expr::Assign(_, _, _) => false,
    }
}

fn is_minus(operator: PrefixOp) -> bool
    ensures { result ≡ is_minus operator }
{
    matches!(operator, PrefixOp::Minus)
}

/// Whether it is a constant.
#[tactic(auto, using(crate::proofs::ConstancyLaws::laws))]
#[cycle(constant)]
fn is_constant(a: &Expr) -> bool
    ensures { result ≡ is_constant a.now }
{
    match a {
        Expr::Int(_) | Expr::Float(_) | Expr::Text(_) => true,
        Expr::Construct(_, args) => are_constant(args.as_slice()),
        Expr::Prefix(operator, a) => is_minus(*operator) && is_numeral(a.get()),
        Expr::Name(_) | Expr::Call(_, _) | Expr::Paren(_) | Expr::Index(_, _) => false,
        Expr::Field(_, _) | Expr::Postfix(_, _) | Expr::Cast(_, _) => false,
        Expr::Binary(_, _, _) | Expr::Choice(_, _, _) | Expr::Assign(_, _, _) => false,
    }
}

#[cycle(constant)]
fn are_constant(items: &[Expr]) -> bool
    ensures { result ≡ list_all is_constant items.now }
{
    for item in items {
        if !is_constant(item) {
            return false;
        }
    }
    true
}

/// Whether an initialiser is a constant.
pub(crate) fn is_constant_init(init: &Init) -> bool
    ensures { result ≡ is_constant_init init.now }
{
    match init {
        Init::Expr(a) => is_constant(a),
        Init::List(items) => are_constant(items.as_slice()),
    }
}
