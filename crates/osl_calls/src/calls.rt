ghost use Rattle.std.specs.Prelude.{◌≡◌, List, [], ◌∷◌, map, Some, IfOk};
ghost use Rattle.std.specs.List.{list_any};
ghost use Rattle.std.specs.Option.{option_copied};
ghost use Rattle.osl_typed.specs.Choosing.{costs, costs_this};
ghost use Rattle.osl_typed.specs.Scopes.{StructureName};
ghost use Rattle.osl_typed.specs.Typing as spec;
ghost use Rattle.osl_typing.specs.Says.{Says};
ghost use Rattle.osl_calls.specs.Calling.{called_among, length_of, sole_kind};
ghost use Rattle.osl_calls.specs.Table.{functions_in, sight_of};

use crate::array_length::own_kind;
use crate::functions::Functions;
use crate::named::Named;
use crate::passing::called_by;
use osl_overload::{Arg, Formal, FormalList, Kind, Signature};
use osl_typed::{Callee, Found};
use osl_typing::constructors::expressions;
use osl_typing::error::TypeError;
use osl_typing::forms::as_argument;
use osl_typing::kinds::INT;
use osl_value::OpName;
use std::alloc::{AllocError, Global};

/// What the choice looks at.
fn arguments(alloc: Global, args: &[Found]) -> Result<Vec<Arg>, AllocError>
    ensures { IfOk result (λ passed. passed.items ≡ map spec.as_argument args.now) }
{
    let mut passed = Vec::new(alloc);
    for arg in args {
        passed.push(as_argument(arg))?;
    }
    Ok(passed)
}

/// The kind of the one argument, if there is one.
fn sole_kind(args: &[Found]) -> Option<Kind>
    ensures { result ≡ sole_kind (spec.kinds_of args.now) }
{
    match args {
        [arg] => Some(arg.kind),
        _ => None,
    }
}

/// A call of the one of these functions that costs least.
fn call_among(
    alloc: Global,
    named: Option<&Named>,
    passed: &[Arg],
    args: Vec<Found>,
) -> Result<Found, TypeError>
    requires { passed.now ≡ map spec.as_argument args.items }
    ensures { Says (called_among (functions_in (option_copied named.entry)) args.items) result }
{
    match named {
        Some(named) => named.call(alloc, passed, args),
        None => Err(TypeError::NoTyping),
    }
}

/// Whether one of these functions takes these arguments as they are.
fn is_shared(named: Option<&Named>, passed: &[Arg]) -> bool
    ensures { result ≡ list_any (costs_this 0) (costs (map (λ c. c.signature) (functions_in (option_copied named.entry))) passed.now) }
{
    match named {
        Some(named) => named.is_free(passed),
        None => false,
    }
}

/// The signature of `arraylength` for arrays of a kind.
fn length_signature(alloc: Global, kind: Kind) -> Result<Signature, AllocError>
    ensures { IfOk result (λ signature. signature ≡ (length_of kind).signature) }
{
    let input = Formal {
        kind,
        output: false,
    };
    Ok(Signature {
        params: FormalList::new(Vec::from_slice(alloc, &[input])?),
        result: INT,
    })
}

/// A call of `arraylength` with an array of this kind, unless one of these functions takes it as well.
fn array_length(
    alloc: Global,
    kind: Kind,
    named: Option<&Named>,
    passed: &[Arg],
    args: Vec<Found>,
) -> Result<Found, TypeError>
    requires sole { sole_kind (spec.kinds_of args.items) ≡ Some kind }
    requires passed { passed.now ≡ map spec.as_argument args.items }
    ensures { Says (called_among (length_of kind ∷ functions_in (option_copied named.entry)) args.items) result }
{
    if is_shared(named, passed) {
        return Err(TypeError::NoTyping);
    }
    let signature = length_signature(alloc, kind)?;
    let callee = Callee::Operation(OpName::ArrayLength);
    called_by(alloc, callee, &signature, args)
}

/// The typed form of a call of a word, if it has one: the one function of the name that costs least, with its arguments
/// as it wants them (OSL specification, section "Functions"). `NoTyping` where no function takes the arguments, or two
/// cost least, or a variable is passed for an output and once more. It looks at each argument once for each function of
/// the name.
pub fn call(
    alloc: Global,
    functions: &Functions,
    word: &[u8],
    args: Vec<Found>,
) -> Result<Found, TypeError>
    ensures { (structures : List StructureName) → Says (spec.call (sight_of structures functions.now) word.now args.items) result }
{
    let args = expressions(args)?;
    let passed = arguments(alloc, args.as_slice())?;
    let named = functions.named(word);
    match own_kind(word, sole_kind(args.as_slice())) {
        Some(kind) => array_length(alloc, kind, named, passed.as_slice(), args),
        None => call_among(alloc, named, passed.as_slice(), args),
    }
}
