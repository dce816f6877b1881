//! Closures, and their lists of parts.

use bumpalo::Bump;
use osl_closure::node::{Node, add, empty, leaf, scale};
use osl_closure::walk::flatten;
use osl_value::{Fx, Memory, PartList, Primitive, Text};
use std::alloc::Global;
use std::process::Abort;
use std::test::Fail;

const ONE: i64 = 1_000_000_000;

fn gray(units: i64) -> [Fx; 3] {
    [Fx::from_units(units); 3]
}

/// A primitive whose number tells it from the others.
fn numbered<'a>(alloc: Global, arena: &'a Bump, number: i64) -> Result<Node<'a>, Memory> {
    let text = Text::empty(alloc);
    leaf(
        arena,
        Primitive::Reflection,
        gray(0),
        Fx::from_units(number),
        &text,
    )
}

/// The sum of primitives with these numbers.
fn row<'a>(alloc: Global, arena: &'a Bump, from: i64, to: i64) -> Result<Node<'a>, Memory> {
    let mut sum = empty();
    for number in from..to {
        sum = add(arena, sum, numbered(alloc, arena, number)?)?;
    }
    Ok(sum)
}

/// The parts have the numbers from `first` on, each one more, up to the place `until`.
fn assert_numbers(rt: &impl Abort, list: &PartList, from: usize, until: usize, first: i64) {
    let mut want = first;
    for (at, part) in list.as_slice().iter().enumerate() {
        if from <= at && at < until {
            assert_eq!(rt; part.number.units(), want, "at {at}");
            want = want.wrapping_add(1);
        }
    }
}

fn assert_weights(rt: &impl Abort, list: &PartList, want: &[i64]) {
    assert_eq!(rt; list.as_slice().len(), want.len());
    for (part, want) in list.as_slice().iter().zip(want) {
        let weight = part.weight;
        for channel in weight {
            assert_eq!(rt; channel.units(), *want);
        }
    }
}

#[test]
fn weights_are_multiplied_from_the_leaf_outwards(rt: HostRuntime) -> Result<(), Fail> {
    let arena = Bump::new(rt.alloc());
    let mut node = numbered(rt.alloc(), &arena, 0)?;
    for (factor, weight) in [
        (500_000_000, 500_000_000),
        (333_333_333, 166_666_666),
        (3_000_000_000, 499_999_998),
        (-2_000_000_000, -999_999_996),
        (i64::MAX, -9_223_371_999_961_287_659),
    ] {
        node = scale(&arena, gray(factor), node)?;
        let list = flatten(rt.alloc(), node.share())?;
        assert_weights(&rt, &list, &[weight]);
    }
    Ok(())
}

#[test]
fn sums_keep_the_first_parts(rt: HostRuntime) -> Result<(), Fail> {
    let arena = Bump::new(rt.alloc());
    let first = row(rt.alloc(), &arena, 0, 200)?;
    let second = row(rt.alloc(), &arena, 1000, 1100)?;
    let list = flatten(rt.alloc(), add(&arena, first.share(), second.share())?)?;
    assert_eq!(rt; list.as_slice().len(), 256);
    assert_numbers(&rt, &list, 0, 200, 0);
    assert_numbers(&rt, &list, 200, 256, 1000);

    let dark = scale(&arena, gray(0), first)?;
    let list = flatten(rt.alloc(), add(&arena, dark, second)?)?;
    assert_eq!(rt; list.as_slice().len(), 56);
    assert_numbers(&rt, &list, 0, 56, 1000);
    Ok(())
}

#[test]
fn factors_reach_what_lies_below_them(rt: HostRuntime) -> Result<(), Fail> {
    let arena = Bump::new(rt.alloc());
    let two = gray(2 * ONE);
    let one = numbered(rt.alloc(), &arena, 1)?;
    let doubled = scale(&arena, two, add(&arena, one, empty())?)?;
    assert_weights(&rt, &flatten(rt.alloc(), doubled.share())?, &[2 * ONE]);

    let red = [Fx::from_units(ONE), Fx::from_units(0), Fx::from_units(0)];
    let sum = add(&arena, numbered(rt.alloc(), &arena, 2)?, doubled)?;
    let sum = add(
        &arena,
        scale(&arena, two, sum)?,
        numbered(rt.alloc(), &arena, 3)?,
    )?;
    assert_weights(
        &rt,
        &flatten(rt.alloc(), sum.share())?,
        &[2 * ONE, 4 * ONE, ONE],
    );
    let list = flatten(rt.alloc(), scale(&arena, red, sum)?)?;
    assert_eq!(rt; list.as_slice().len(), 3);
    assert_weights(
        &rt,
        &flatten(rt.alloc(), scale(&arena, two, empty())?)?,
        &[],
    );
    Ok(())
}

#[test]
fn primitives_have_their_arguments(rt: HostRuntime) -> Result<(), Fail> {
    let arena = Bump::new(rt.alloc());
    let text = Text::new(Vec::from_slice(rt.alloc(), b"abc")?).ok_or("too long")?;
    for (prim, normal, number, length) in [
        (Primitive::Emission, 0, 0, 0),
        (Primitive::Background, 0, 0, 0),
        (Primitive::Holdout, 0, 0, 0),
        (Primitive::Transparent, 0, 0, 0),
        (Primitive::Diffuse, 5, 0, 0),
        (Primitive::OrenNayar, 5, 7, 0),
        (Primitive::Translucent, 5, 0, 0),
        (Primitive::Reflection, 5, 7, 0),
        (Primitive::Refraction, 5, 7, 0),
        (Primitive::Debug, 0, 0, 3),
    ] {
        let node = leaf(&arena, prim, gray(5), Fx::from_units(7), &text)?;
        let list = flatten(rt.alloc(), node)?;
        assert_weights(&rt, &list, &[ONE]);
        for part in list.as_slice() {
            assert_eq!(rt; part.prim, prim);
            assert_eq!(rt; part.normal, gray(normal), "normal of {prim:?}");
            assert_eq!(rt; part.number.units(), number, "number of {prim:?}");
            assert_eq!(rt; part.text.bytes().len(), length, "text of {prim:?}");
        }
    }
    Ok(())
}

#[test]
fn long_chains_take_no_depth(rt: HostRuntime) -> Result<(), Fail> {
    let arena = Bump::new(rt.alloc());
    let mut scaled = numbered(rt.alloc(), &arena, 0)?;
    let mut doubled = scaled.share();
    for _ in 0..30_000 {
        scaled = scale(&arena, gray(2 * ONE), scaled)?;
        scaled = scale(&arena, gray(ONE / 2), scaled)?;
        doubled = add(&arena, doubled.share(), doubled)?;
    }
    assert_weights(&rt, &flatten(rt.alloc(), scaled)?, &[ONE]);
    assert_eq!(rt; flatten(rt.alloc(), doubled)?.as_slice().len(), 256);
    Ok(())
}

#[test]
fn long_sums_keep_the_first_parts(rt: HostRuntime) -> Result<(), Fail> {
    let arena = Bump::new(rt.alloc());
    let left = row(rt.alloc(), &arena, 0, 60_000)?;
    let mut right = empty();
    for number in 0..60_000i64 {
        let first = numbered(rt.alloc(), &arena, number.wrapping_neg())?;
        right = add(&arena, first, right)?;
    }
    let list = flatten(rt.alloc(), left)?;
    assert_eq!(rt; list.as_slice().len(), 256);
    assert_numbers(&rt, &list, 0, 256, 0);
    let list = flatten(rt.alloc(), right)?;
    assert_eq!(rt; list.as_slice().len(), 256);
    assert_numbers(&rt, &list, 0, 256, -59_999);
    Ok(())
}
