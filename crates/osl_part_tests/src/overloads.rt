//! The choice of an overload.

use osl_overload::{Arg, Choice, Formal, FormalList, Kind, Signature, choose};
use osl_value::{Base, Ty};
use std::alloc::{AllocError, Global};
use std::process::Abort;
use std::test::Fail;

fn of(base: Base) -> Kind {
    Kind::Value(Ty { base, len: 0 })
}

fn array_of(base: Base, len: u32) -> Kind {
    Kind::Value(Ty { base, len })
}

fn input(kind: Kind) -> Formal {
    Formal {
        kind,
        output: false,
    }
}

fn value(kind: Kind) -> Arg {
    Arg {
        kind,
        zero_literal: false,
        writable: false,
    }
}

fn function(alloc: Global, formals: &[Formal]) -> Result<Signature, AllocError> {
    let params = FormalList::new(Vec::from_slice(alloc, formals)?);
    Ok(Signature {
        params,
        result: Kind::Void,
    })
}

/// The choice between two functions.
fn between(
    alloc: Global,
    first: &[Formal],
    second: &[Formal],
    args: &[Arg],
) -> Result<Choice, AllocError> {
    let candidates = [function(alloc, first)?, function(alloc, second)?];
    Ok(choose(&candidates, args))
}

/// Two functions of one parameter, and what is chosen of them for an argument.
type Row = (Kind, Kind, Arg, Choice);

fn all_chosen(rt: &impl Abort, alloc: Global, rows: &[Row]) -> Result<(), Fail> {
    for &(first, second, arg, wanted) in rows {
        let answer = between(alloc, &[input(first)], &[input(second)], &[arg])?;
        assert_eq!(rt; answer, wanted, "{first:?} or {second:?} for {arg:?}");
    }
    Ok(())
}

#[test]
fn least_cost_of_a_promotion(rt: HostRuntime) -> Result<(), Fail> {
    let (int, float, color) = (of(Base::Int), of(Base::Float), of(Base::Color));
    let (point, normal) = (of(Base::Point), of(Base::Normal));
    let (text, matrix) = (of(Base::Str), of(Base::Matrix));
    let rows = [
        (color, float, value(int), Choice::Chosen(1)),
        (float, int, value(int), Choice::Chosen(1)),
        (color, point, value(int), Choice::Ambiguous),
        (color, text, value(float), Choice::Chosen(0)),
        (text, matrix, value(int), Choice::NoCandidate),
        (normal, color, value(point), Choice::Chosen(0)),
        (color, float, value(point), Choice::NoCandidate),
    ];
    all_chosen(&rt, rt.alloc(), &rows)
}

#[test]
fn the_literal_zero_as_a_closure(rt: HostRuntime) -> Result<(), Fail> {
    let (closure, text, int) = (of(Base::Closure), of(Base::Str), of(Base::Int));
    let zero = Arg {
        kind: int,
        zero_literal: true,
        writable: false,
    };
    let rows = [
        (closure, text, zero, Choice::Chosen(0)),
        (closure, of(Base::Color), zero, Choice::Ambiguous),
        (closure, of(Base::Float), zero, Choice::Chosen(1)),
        (closure, text, value(int), Choice::NoCandidate),
    ];
    all_chosen(&rt, rt.alloc(), &rows)
}

#[test]
fn arrays_and_structures_are_not_promoted(rt: HostRuntime) -> Result<(), Fail> {
    let (float, color) = (of(Base::Float), of(Base::Color));
    let (two, three) = (array_of(Base::Float, 2), array_of(Base::Float, 3));
    let ints = array_of(Base::Int, 2);
    let (fourth, fifth) = (Kind::Structure(4), Kind::Structure(5));
    let rows = [
        (two, float, value(two), Choice::Chosen(0)),
        (three, float, value(two), Choice::NoCandidate),
        (two, color, value(ints), Choice::NoCandidate),
        (fourth, fifth, value(fifth), Choice::Chosen(1)),
        (fourth, float, value(Kind::Void), Choice::NoCandidate),
    ];
    all_chosen(&rt, rt.alloc(), &rows)
}

/// Sums that are alike, or differ by one, only where a spatial type costs 1, a float 1, and a triple of a float 2 and of an int 3.
#[test]
fn costs_of_promotions(rt: HostRuntime) -> Result<(), Fail> {
    let (int, float, color) = (of(Base::Int), of(Base::Float), of(Base::Color));
    let (point, vector) = (of(Base::Point), of(Base::Vector));
    let (i, f, c) = (input(int), input(float), input(color));
    let rows: [(&[Formal], &[Formal], &[Kind], Choice); 4] = [
        (&[c, i], &[f, c], &[float, int], Choice::Chosen(0)),
        (
            &[input(point), i],
            &[input(vector), f],
            &[vector, int],
            Choice::Ambiguous,
        ),
        (
            &[c, i, i],
            &[f, f, f],
            &[float, int, int],
            Choice::Ambiguous,
        ),
        (
            &[c, i, i, i],
            &[i, f, f, f],
            &[int, int, int, int],
            Choice::Ambiguous,
        ),
    ];
    for (first, second, kinds, wanted) in rows {
        let mut args = Vec::new(rt.alloc());
        for kind in kinds {
            args.push(value(*kind))?;
        }
        let answer = between(rt.alloc(), first, second, args.as_slice())?;
        assert_eq!(rt; answer, wanted, "{kinds:?}");
    }
    Ok(())
}

#[test]
fn costs_are_added(rt: HostRuntime) -> Result<(), Fail> {
    let alloc = rt.alloc();
    let (int, float) = (input(of(Base::Int)), input(of(Base::Float)));
    let ints = [value(of(Base::Int)), value(of(Base::Int))];
    assert_eq!(rt;
        between(alloc, &[float, int], &[int, float], &ints)?,
        Choice::Ambiguous
    );
    assert_eq!(rt;
        between(alloc, &[float, float], &[int, float], &ints)?,
        Choice::Chosen(1)
    );
    assert_eq!(rt;
        between(alloc, &[int], &[int, int, int], &ints)?,
        Choice::NoCandidate
    );
    assert_eq!(rt; between(alloc, &[], &[int], &[])?, Choice::Chosen(0));
    assert_eq!(rt; choose(&[], &ints), Choice::NoCandidate);
    Ok(())
}

#[test]
fn one_candidate_and_three(rt: HostRuntime) -> Result<(), Fail> {
    let alloc = rt.alloc();
    let ints = [value(of(Base::Int))];
    let string = function(alloc, &[input(of(Base::Str))])?;
    assert_eq!(rt; choose(&[string], &ints), Choice::NoCandidate);
    let (color, point) = (Base::Color, Base::Point);
    let rows = [
        ([color, point, Base::Float], Choice::Chosen(2)),
        ([color, Base::Float, point], Choice::Chosen(1)),
        ([Base::Float, color, point], Choice::Chosen(0)),
        ([color, point, Base::Vector], Choice::Ambiguous),
    ];
    for (bases, wanted) in rows {
        let candidates = [
            function(alloc, &[input(of(bases[0]))])?,
            function(alloc, &[input(of(bases[1]))])?,
            function(alloc, &[input(of(bases[2]))])?,
        ];
        assert_eq!(rt; choose(&candidates, &ints), wanted, "{bases:?}");
    }
    Ok(())
}

#[test]
fn outputs_keep_their_kind(rt: HostRuntime) -> Result<(), Fail> {
    let alloc = rt.alloc();
    let output = Formal {
        kind: of(Base::Float),
        output: true,
    };
    let rows = [
        (Base::Float, true, Choice::Chosen(0)),
        (Base::Float, false, Choice::Chosen(1)),
        (Base::Int, true, Choice::Chosen(1)),
    ];
    for (base, writable, wanted) in rows {
        let arg = Arg {
            kind: of(base),
            zero_literal: false,
            writable,
        };
        let answer = between(alloc, &[output], &[input(of(Base::Color))], &[arg])?;
        assert_eq!(rt; answer, wanted, "{arg:?}");
    }
    Ok(())
}
