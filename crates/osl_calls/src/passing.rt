//! The arguments of a call, each as its parameter wants it.

ghost use Rattle.std.specs.Prelude.{[], ◌∷◌};
ghost use Rattle.osl_value.specs.declared.op_name.OpName.TheVariants.{SubStr};
ghost use Rattle.osl_typed.specs.declared.found.Callee.TheVariants.{Declared};
ghost use Rattle.osl_typed.specs.Typing as spec;
ghost use Rattle.osl_typing.specs.Says.{Says};
ghost use Rattle.osl_calls.specs.Calling.{called_by};
ghost use Rattle.osl_calls.specs.Named.{candidate};

use crate::outputs::apart;
use osl_overload::{Formal, Kind, Signature};
use osl_typed::{Argument, Callee, Found, TypedExpr};
use osl_typing::assignment::output_argument;
use osl_typing::error::TypeError;
use osl_typing::fitting::fit;
use osl_typing::forms::{plain_type, value};
use osl_value::OpName;
use sqlite_items::Items;
use std::alloc::Global;

/// The length of `substr` where none is given: the most bytes of a string.
const LONGEST: i32 = 512;

/// An argument as its parameter wants it.
fn pass_to(alloc: Global, formal: Formal, a: Found) -> Result<Argument, TypeError>
    ensures { Says (spec.pass_to formal a) result }
{
    if formal.output {
        output_argument(a.form)
    } else {
        Ok(Argument::In(fit(alloc, formal.kind, a)?))
    }
}

/// The arguments of a declared function.
fn pass_all(
    alloc: Global,
    formals: &[Formal],
    args: Vec<Found>,
) -> Result<Items<Argument>, TypeError>
    ensures { Says (spec.pass_all formals.now args.items) result }
{
    let mut passed = Items::new(alloc);
    let mut rest = args.into_iter();
    for formal in formals {
        let Some(a) = rest.next() else {
            return Err(TypeError::NoTyping);
        };
        let argument = pass_to(alloc, *formal, a)?;
        passed.push(argument)?;
    }
    Ok(passed)
}

/// The operands of an operation.
fn fit_all(
    alloc: Global,
    formals: &[Formal],
    args: Vec<Found>,
) -> Result<Items<TypedExpr>, TypeError>
    ensures { Says (spec.fit_all (spec.formal_kinds formals.now) args.items) result }
{
    let mut fitted = Items::new(alloc);
    let mut rest = args.into_iter();
    for formal in formals {
        let Some(a) = rest.next() else {
            return Err(TypeError::NoTyping);
        };
        let operand = fit(alloc, formal.kind, a)?;
        fitted.push(operand)?;
    }
    Ok(fitted)
}

/// A call of an operation.
fn operation_call(
    alloc: Global,
    name: OpName,
    signature: &Signature,
    args: Vec<Found>,
) -> Result<Found, TypeError>
    ensures { (callee : Callee) → Says (spec.operation_call name (candidate signature.now callee) args.items []) result }
{
    let operands = fit_all(alloc, signature.params.as_slice(), args)?;
    let ty = plain_type(signature.result)?;
    value(
        alloc,
        TypedExpr::Apply(name, ty, operands),
        signature.result,
    )
}

/// A call of `substr` up to the end.
fn substr_to_end(alloc: Global, signature: &Signature, args: Vec<Found>) -> Result<Found, TypeError>
    ensures { (callee : Callee) → Says (spec.operation_call SubStr (candidate signature.now callee) args.items (spec.longest ∷ [])) result }
{
    let mut operands = fit_all(alloc, signature.params.as_slice(), args)?;
    let ty = plain_type(signature.result)?;
    operands.push(TypedExpr::Int(LONGEST))?;
    let tree = TypedExpr::Apply(OpName::SubStr, ty, operands);
    value(alloc, tree, signature.result)
}

/// A call of a declared function.
fn declared_call(
    alloc: Global,
    number: u32,
    signature: &Signature,
    args: Vec<Found>,
) -> Result<Found, TypeError>
    ensures { Says (spec.called_as (Declared number) (candidate signature.now (Declared number)) args.items) result }
{
    let passed = pass_all(alloc, signature.params.as_slice(), args)?;
    let tree = TypedExpr::Call(number, signature.result, passed);
    value(alloc, tree, signature.result)
}

fn called_as(
    alloc: Global,
    callee: Callee,
    signature: &Signature,
    args: Vec<Found>,
) -> Result<Found, TypeError>
    ensures { Says (spec.called_as callee (candidate signature.now callee) args.items) result }
{
    match callee {
        Callee::Declared(number) => declared_call(alloc, number, signature, args),
        Callee::Operation(name) => operation_call(alloc, name, signature, args),
        Callee::SubstrToEnd => substr_to_end(alloc, signature, args),
        Callee::Exit => value(alloc, TypedExpr::Exit, Kind::Void),
    }
}

/// A call of the function that was chosen: no variable is the root of two arguments, one of them for an output.
#[tactic(auto, unfolding(crate::specs::Calling::called_by))]
pub(crate) fn called_by(
    alloc: Global,
    callee: Callee,
    signature: &Signature,
    args: Vec<Found>,
) -> Result<Found, TypeError>
    ensures { Says (called_by (candidate signature.now callee) args.items) result }
{
    if !apart(alloc, signature.params.as_slice(), args.as_slice())? {
        return Err(TypeError::NoTyping);
    }
    called_as(alloc, callee, signature, args)
}
