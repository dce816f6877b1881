ghost use Rattle.std.specs.Prelude.{◌≡◌, ◌^◌, ◌<◌, [], ◌∷◌, ◌++◌, length, map, OnOk, OnErr};
ghost use Rattle.std.specs.Cmp.Lexicographic.{pointwise};
ghost use Rattle.std.specs.List.{list_any};
ghost use Rattle.osl_overload.specs.Cost.{total};
ghost use Rattle.osl_overload.specs.Kinds.{same_kind};
ghost use Rattle.osl_typed.specs.Choosing.{chosen, costs, costs_this};
ghost use Rattle.osl_typed.specs.Typing as spec;
ghost use Rattle.osl_typed.specs.Typing.{formal_kinds};
ghost use Rattle.osl_typing.specs.Says.{Says};
ghost use Rattle.osl_calls.specs.Calling.{called_among};
ghost use Rattle.osl_calls.specs.Named.{candidate};

use crate::passing::called_by;
use osl_overload::cost::total;
use osl_overload::{Arg, Choice, Formal, Signature, choose};
use osl_typed::{Callee, Found};
use osl_typing::error::TypeError;
use osl_typing::kinds::same_kind;
use sqlite_items::at;
use std::alloc::{AllocError, Global};
use std::marker::Model;

/// The functions of one name, in their order: the signatures side by side, as a choice wants them, and what each of
/// them calls. Contracts see the list of both together.
#[derive(Drop)]
pub(crate) struct Named {
    signatures: Vec<Signature>,
    callees: Vec<Callee>,
}

impl Model for Named {
    ghost use Rattle.std.specs.Prelude.{◌≡◌, ◌^◌, ◌<◌, length, List};
    ghost use Rattle.osl_typed.specs.Scopes.{Candidate};
    ghost use Rattle.osl_calls.specs.Named.{candidates_of};

    ghost Value = { List Candidate };

    ghost view = { λ n. candidates_of n.signatures.items n.callees.items };

    ghost invariant = { λ n. (length n.signatures.items ≡ length n.callees.items) × (length n.signatures.items < 2 ^ 32) };
}

impl Named {
    pub(crate) fn new(alloc: Global) -> Named
        ensures { result ≡ [] }
    {
        Named {
            signatures: Vec::new(alloc),
            callees: Vec::new(alloc),
        }
    }

    /// Adds a function after the others. They stay as they are where an allocation fails, or where 2^32 - 1 have the name.
    pub(crate) fn push(&mut self, signature: Signature, callee: Callee) -> Result<(), AllocError>
        ensures ok { OnOk result (self.new ≡ self.old ++ candidate signature callee ∷ []) }
        ensures err { OnErr result (self.new ≡ self.old) }
    {
        if self.signatures.len() >= u32::MAX as usize {
            return Err(AllocError);
        }
        self.signatures.reserve(1)?;
        self.callees.reserve(1)?;
        self.signatures.push_reserved(signature);
        self.callees.push_reserved(callee);
        Ok(())
    }

    /// Whether one of them takes parameters of just these kinds.
    pub(crate) fn takes(&self, formals: &[Formal]) -> bool
        ensures { result ≡ list_any (λ c. pointwise same_kind (formal_kinds c.signature.params) (formal_kinds formals.now)) self.now }
    {
        has_kinds(&self.signatures, formals)
    }

    /// Whether one of them takes these arguments as they are.
    pub(crate) fn is_free(&self, args: &[Arg]) -> bool
        ensures { result ≡ list_any (costs_this 0) (costs (map (λ c. c.signature) self.now) args.now) }
    {
        is_free(&self.signatures, args)
    }

    /// A call of the one of them that costs least.
    pub(crate) fn call(
        &self,
        alloc: Global,
        passed: &[Arg],
        args: Vec<Found>,
    ) -> Result<Found, TypeError>
        requires { passed.now ≡ map spec.as_argument args.items }
        ensures { Says (called_among self.now args.items) result }
    {
        let Some(place) = chosen(&self.signatures, passed) else {
            return Err(TypeError::NoTyping);
        };
        let Some(signature) = at(&self.signatures, place as usize) else {
            return Err(TypeError::NoTyping);
        };
        let Some(callee) = at(&self.callees, place as usize) else {
            return Err(TypeError::NoTyping);
        };
        called_by(alloc, *callee, signature, args)
    }
}

/// The place of the one function that costs least.
fn chosen(signatures: &[Signature], args: &[Arg]) -> Option<u32>
    requires { length signatures.now < 2 ^ 32 }
    ensures { result ≡ chosen signatures.now args.now }
{
    match choose(signatures, args) {
        Choice::Chosen(place) => Some(place),
        Choice::NoCandidate => None,
        Choice::Ambiguous => None,
    }
}

fn has_kinds(signatures: &[Signature], formals: &[Formal]) -> bool
    ensures { result ≡ list_any (λ s. pointwise same_kind (formal_kinds s.params) (formal_kinds formals.now)) signatures.now }
{
    signatures.iter().any(|signature| have_one_kind(signature.params.as_slice(), formals))
}

/// Whether two lists of parameters have the same kinds.
fn have_one_kind(some: &[Formal], others: &[Formal]) -> bool
    ensures { result ≡ pointwise same_kind (formal_kinds some.now) (formal_kinds others.now) }
{
    if some.len() != others.len() {
        return false;
    }
    for (i, formal) in some.iter().enumerate() {
        if !same_kind(formal.kind, others[i].kind) {
            return false;
        }
    }
    true
}

fn is_free(signatures: &[Signature], args: &[Arg]) -> bool
    ensures { result ≡ list_any (λ s. costs_this 0 (total s.params args.now)) signatures.now }
{
    signatures.iter().any(|signature| costs_nothing(total(signature.params.as_slice(), args)))
}

fn costs_nothing(cost: Option<u64>) -> bool
    ensures { result ≡ costs_this 0 cost }
{
    match cost {
        Some(cost) => cost == 0,
        None => false,
    }
}
