//! The weights of expressions.

ghost use Rattle.std.specs.Prelude.{◌≡◌, map, length};
ghost use Rattle.osl_typed.specs.Measured.{cut};
ghost use Rattle.osl_typed.specs.Seen.{seen};
ghost use Rattle.osl_typed.specs.Sizes as spec;
ghost use Rattle.osl_typed.specs.declared.sizes.Weight.{Weight};

use crate::expr::{Argument, Part, Root, TypedExpr};
use crate::sizes::Weight;
use crate::tables::Tables;
use crate::tables::parts::kind_of_part;
use osl_overload::Kind;
use osl_value::{Base, Ty};

/// What a call of a function adds, beside its own node and its arguments.
fn call(tables: &Tables, f: u32) -> Weight
    ensures { result ≡ cut (spec.calls_below tables.now.structures.now tables.now.functions.now (length tables.now.calls.now) f) }
{
    match tables.calls.get(f as usize) {
        Some(weight) => *weight,
        None => Weight::NOTHING,
    }
}

fn typed(tables: &Tables, ty: Ty) -> Weight
    ensures { result ≡ cut (spec.valued tables.now.structures.now (Kind.Value ty)) }
{
    tables.valued(Kind::Value(ty))
}

/// A variable or a part of one, with what its indices weigh.
fn place(tables: &Tables, root: Root, part: &Part, indices: &[TypedExpr], all: Weight) -> Weight
    requires { all ≡ cut (spec.all_of (map (spec.weight (seen tables.now)) indices.now)) }
    ensures { result ≡ cut (spec.variable_weight tables.now.structures.now tables.now.kinds.now root part.now (map (spec.weight (seen tables.now)) indices.now)) }
{
    tables.variable(root, part, indices).and(all)
}

/// A part of a value of a kind, with what the value and the indices weigh.
fn piece(
    tables: &Tables,
    kind: Kind,
    value: Weight,
    part: &Part,
    indices: &[TypedExpr],
    all: Weight,
) -> Weight
    requires { all ≡ cut (spec.all_of (map (spec.weight (seen tables.now)) indices.now)) }
    ensures { (a : Weight) → value ≡ cut a → result ≡ cut (spec.part_weight tables.now.structures.now kind a part.now (map (spec.weight (seen tables.now)) indices.now)) }
{
    value.and(tables.part(kind, part, indices)).and(all)
}

/// An assignment to a variable or to a part of one, with what the indices and the right side weigh.
fn stored(
    tables: &Tables,
    root: Root,
    part: &Part,
    indices: &[TypedExpr],
    all: Weight,
    right: Weight,
) -> Weight
    requires { all ≡ cut (spec.all_of (map (spec.weight (seen tables.now)) indices.now)) }
    ensures { (a : Weight) → right ≡ cut a → result ≡ cut (spec.stored_weight (seen tables.now) root part.now (map (spec.weight (seen tables.now)) indices.now) a) }
{
    tables
        .valued(kind_of_part(part, indices))
        .and(place(tables, root, part, indices, all))
        .and(right)
}

/// An expression.
#[tactic(auto, using(crate::proofs::WeightArms::arms))]
#[cycle(weighing)]
pub(crate) fn expr(tables: &Tables, e: &TypedExpr) -> Weight
    ensures { result ≡ cut (spec.weight (seen tables.now) e.now) }
{
    match e {
        TypedExpr::Int(_) => typed(tables, Ty::only(Base::Int)),
        TypedExpr::Float(_) => typed(tables, Ty::only(Base::Float)),
        TypedExpr::Text(_) => typed(tables, Ty::only(Base::Str)),
        TypedExpr::Variable(root, part, indices) => {
            let weight = all(tables, indices.as_slice());
            place(tables, *root, part, indices.as_slice(), weight)
        }
        TypedExpr::PartOf(kind, a, part, indices) => {
            let weight = all(tables, indices.as_slice());
            piece(
                tables,
                *kind,
                expr(tables, a.get()),
                part,
                indices.as_slice(),
                weight,
            )
        }
        TypedExpr::Paren(kind, a) => tables.valued(*kind).and(expr(tables, a.get())),
        TypedExpr::Promote(ty, a) => tables.bare(Kind::Value(*ty)).and(expr(tables, a.get())),
        TypedExpr::Apply(_, ty, operands) => {
            typed(tables, *ty).and(all(tables, operands.as_slice()))
        }
        TypedExpr::And(a, b) | TypedExpr::Or(a, b) => typed(tables, Ty::only(Base::Int))
            .and(expr(tables, a.get()))
            .and(expr(tables, b.get())),
        TypedExpr::Choose(kind, c, a, b) => tables
            .valued(*kind)
            .and(expr(tables, c.get()))
            .and(expr(tables, a.get()))
            .and(expr(tables, b.get())),
        TypedExpr::Assign(root, part, indices, a) => {
            let weight = all(tables, indices.as_slice());
            stored(
                tables,
                *root,
                part,
                indices.as_slice(),
                weight,
                expr(tables, a.get()),
            )
        }
        TypedExpr::Update(_, _, root, part, indices, a) => {
            let weight = all(tables, indices.as_slice());
            stored(
                tables,
                *root,
                part,
                indices.as_slice(),
                weight,
                expr(tables, a.get()),
            )
        }
        TypedExpr::Step(_, ty, _) => typed(tables, *ty).and(typed(tables, *ty)),
        TypedExpr::Call(f, kind, args) => tables
            .valued(*kind)
            .and(passed(tables, args.as_slice()))
            .and(call(tables, *f)),
        TypedExpr::Exit => tables.bare(Kind::Void),
    }
}

/// Expressions together.
#[cycle(weighing)]
pub(crate) fn all(tables: &Tables, items: &[TypedExpr]) -> Weight
    ensures { result ≡ cut (spec.all_of (map (spec.weight (seen tables.now)) items.now)) }
{
    let mut sum = Weight::NOTHING;
    for item in items {
        sum = sum.and(expr(tables, item));
    }
    sum
}

/// An argument.
#[tactic(auto, using(crate::proofs::WeightArms::arms))]
#[cycle(weighing)]
fn argument(tables: &Tables, a: &Argument) -> Weight
    ensures { result ≡ cut (spec.weight_passed (seen tables.now) a.now) }
{
    match a {
        Argument::In(a) => expr(tables, a),
        Argument::Out(root, part, indices) => {
            let weight = all(tables, indices.as_slice());
            place(tables, *root, part, indices.as_slice(), weight)
        }
    }
}

/// Arguments together.
#[cycle(weighing)]
fn passed(tables: &Tables, args: &[Argument]) -> Weight
    ensures { result ≡ cut (spec.all_of (map (spec.weight_passed (seen tables.now)) args.now)) }
{
    let mut sum = Weight::NOTHING;
    for arg in args {
        sum = sum.and(argument(tables, arg));
    }
    sum
}
