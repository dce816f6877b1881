//! Operations on slots, through `execute`. The expected values were worked out by hand.

ghost use Rattle.std.specs.Prelude.{◌≡◌, false, IsTrue, [], ◌∷◌};
ghost use Rattle.osl_value.specs.Apply.{is_allowed};
ghost use Rattle.osl_value.specs.Table.{updates};
ghost use Rattle.osl_value.specs.Types.{only};

use bumpalo::Bump;
use osl_apply::{Kind, Slot, execute};
use osl_closure::{empty, flatten};
use osl_value::{Base, Fx, Memory, OpName};
use std::alloc::Global;
use std::test::Fail;

/// A float of so many tenths.
fn tenths(n: i64) -> Fx {
    Fx::from_units(n.saturating_mul(100_000_000))
}

/// What an operation gives on two ints.
fn on_ints(alloc: Global, arena: &Bump, name: OpName, a: i32, b: i32) -> Result<i32, Memory>
    requires takes { IsTrue (is_allowed name (only Base.Int) (only Base.Int ∷ only Base.Int ∷ [])) }
    requires reads { updates name ≡ false }
{
    let mut slots = [Slot::Int(0), Slot::Int(a), Slot::Int(b)];
    execute(alloc, arena, &mut slots, name, 0, &[1, 2])?;
    Ok(slots[0].as_int().unwrap_or(-77))
}

/// What a comparison gives on two floats.
fn on_floats(alloc: Global, arena: &Bump, name: OpName, a: i64, b: i64) -> Result<i32, Memory>
    requires takes { IsTrue (is_allowed name (only Base.Int) (only Base.Float ∷ only Base.Float ∷ [])) }
    requires reads { updates name ≡ false }
{
    let mut slots = [Slot::Int(0), Slot::Float(tenths(a)), Slot::Float(tenths(b))];
    execute(alloc, arena, &mut slots, name, 0, &[1, 2])?;
    Ok(slots[0].as_int().unwrap_or(-77))
}

/// The units that an operation gives on two vectors.
fn on_vectors(
    alloc: Global,
    arena: &Bump,
    name: OpName,
    a: [i64; 3],
    b: [i64; 3],
) -> Result<i64, Memory>
    requires takes { IsTrue (is_allowed name (only Base.Float) (only Base.Vector ∷ only Base.Vector ∷ [])) }
    requires reads { updates name ≡ false }
{
    let mut slots = [
        Slot::Float(Fx::ZERO),
        Slot::Triple(Kind::Vector, a.map(tenths)),
        Slot::Triple(Kind::Vector, b.map(tenths)),
    ];
    execute(alloc, arena, &mut slots, name, 0, &[1, 2])?;
    match &slots[0] {
        Slot::Float(x) => Ok(x.units()),
        _ => Ok(-77),
    }
}

/// How many parts the closure has that an operation gives on a normal.
fn on_normal(alloc: Global, arena: &Bump, name: OpName) -> Result<usize, Memory>
    requires takes { IsTrue (is_allowed name (only Base.Closure) (only Base.Normal ∷ [])) }
    requires reads { updates name ≡ false }
{
    let mut slots = [
        Slot::Closure(empty()),
        Slot::Triple(Kind::Normal, [Fx::ONE; 3]),
    ];
    execute(alloc, arena, &mut slots, name, 0, &[1])?;
    match &slots[0] {
        Slot::Closure(node) => {
            let parts = flatten(alloc, node.share())?;
            Ok(parts.as_slice().len())
        }
        _ => Ok(77),
    }
}

#[test]
#[tactic(auto, unfolding(osl_value::specs::Apply::is_allowed))]
fn each_kind_of_operation(rt: HostRuntime) -> Result<(), Fail> {
    let alloc = rt.alloc();
    let arena = Bump::new(alloc);
    assert_eq!(rt; on_ints(alloc, &arena, OpName::Add, i32::MAX, 1)?, i32::MIN);
    assert_eq!(rt; on_ints(alloc, &arena, OpName::IRem, -7, 2)?, -1);
    assert_eq!(rt; on_floats(alloc, &arena, OpName::Lt, -5, 5)?, 1);
    assert_eq!(rt; on_floats(alloc, &arena, OpName::Neq, 5, 5)?, 0);
    assert_eq!(rt;
        on_vectors(alloc, &arena, OpName::Dot, [10, 20, 30], [5, -10, 20])?,
        4_500_000_000
    );
    assert_eq!(rt; on_normal(alloc, &arena, OpName::ClDiffuse)?, 1);
    Ok(())
}
