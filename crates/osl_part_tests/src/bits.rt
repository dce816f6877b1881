//! Rows of bits.

ghost use Rattle.std.specs.Prelude.{◌≡◌, ◌<◌, IfOk, length};

use osl_bits::BitRow;
use osl_value::Memory;
use std::alloc::Global;
use std::process::Abort;
use std::test::Fail;

/// A row with the bits set whose place is a multiple of `step`.
fn multiples(alloc: Global, len: u32, step: u32) -> Result<BitRow, Memory>
    ensures { IfOk result (λ row. length row ≡ len) }
{
    let mut row = BitRow::make(alloc, len)?;
    for i in 0..len {
        row.set(i, i.checked_rem(step) == Some(0));
    }
    Ok(row)
}

/// Whether the rows have the same bit at each place.
fn same_bits(first: &BitRow, second: &BitRow, len: u32) -> bool
    requires first { length first.now ≡ len }
    requires second { length second.now ≡ len }
{
    for i in 0..len {
        if first.test(i) != second.test(i) {
            return false;
        }
    }
    true
}

/// A row that was just made has its length, and no bit of it is set.
fn made(rt: &impl Abort, alloc: Global, len: u32) -> Result<(), Memory> {
    let row = BitRow::make(alloc, len)?;
    assert_eq!(rt; row.length(), len);
    for i in 0..len {
        assert!(rt; !row.test(i), "{i} of {len}");
    }
    Ok(())
}

/// Joins and takes away the multiples of 2 and 3, and looks at every bit.
fn compare(rt: &impl Abort, alloc: Global, len: u32) -> Result<(), Memory> {
    let twos = multiples(alloc, len, 2)?;
    let threes = multiples(alloc, len, 3)?;
    let mut both = multiples(alloc, len, 2)?;
    both.union_with(&threes);
    let mut rest = multiples(alloc, len, 2)?;
    rest.minus_with(&threes);
    for i in 0..len {
        let (two, three) = (twos.test(i), threes.test(i));
        assert_eq!(rt; two, i % 2 == 0, "{i} of {len}");
        assert_eq!(rt; three, i % 3 == 0, "{i} of {len}");
        assert_eq!(rt; both.test(i), two || three, "union {i} of {len}");
        assert_eq!(rt; rest.test(i), two && !three, "minus {i} of {len}");
    }
    assert_eq!(rt;
        twos.equal(&threes),
        same_bits(&twos, &threes, len),
        "{len}"
    );
    assert_eq!(rt; twos.equal(&both), same_bits(&twos, &both, len), "{len}");
    assert_eq!(rt; twos.equal(&rest), same_bits(&twos, &rest, len), "{len}");
    Ok(())
}

/// A row is equal to one with the same bits, and not to one that differs in this bit alone.
fn one_bit(rt: &impl Abort, alloc: Global, len: u32, place: u32) -> Result<(), Memory>
    requires { place < len }
{
    let row = multiples(alloc, len, 3)?;
    let mut other = multiples(alloc, len, 3)?;
    assert!(rt; row.equal(&other), "{len}");
    other.set(place, !row.test(place));
    assert!(rt; !row.equal(&other), "{place} of {len}");
    assert!(rt; !same_bits(&row, &other, len), "{place} of {len}");
    Ok(())
}

#[test]
fn rows_of_each_length(rt: HostRuntime) -> Result<(), Fail> {
    for len in 0..=1100 {
        made(&rt, rt.alloc(), len)?;
        compare(&rt, rt.alloc(), len)?;
        for place in [0, 63, 64, len / 2, len.saturating_sub(1)] {
            if place < len {
                one_bit(&rt, rt.alloc(), len, place)?;
            }
        }
    }
    Ok(())
}
