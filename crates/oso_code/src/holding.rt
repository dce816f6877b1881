//! Whether numbers and strings make up a value of a type.

ghost use Rattle.std.specs.Prelude.{◌≡◌, ◌&&◌, ◌==◌, length};
ghost use Rattle.std.specs.List.{list_all};
ghost use Rattle.osl_value.specs.Types.{number_count, text_count};
ghost use Rattle.oso_code.specs.Holding.{is_closure, is_type, fits_base, makes_up};

use osl_value::{Base, Ty};

/// The most elements that an array has.
const LONGEST_ARRAY: u32 = 1024;

/// Whether it is the type of closures.
pub fn is_closure(ty: Ty) -> bool
    ensures { result ≡ is_closure ty }
{
    ty.base == Base::Closure
}

/// Whether it is a type of the language: arrays are no longer than 1,024, and no closures.
pub fn is_type(ty: Ty) -> bool
    ensures { result ≡ is_type ty }
{
    ty.len <= LONGEST_ARRAY && !(is_closure(ty) && ty.len != 0)
}

/// Whether so many numbers, these, and so many strings make up a value of the type.
pub fn makes_up(ty: Ty, nums: &[i64], texts: usize) -> bool
    ensures { result ≡ ((length nums.now == number_count ty) && (texts == text_count ty)) && list_all (fits_base ty.base) nums.now }
{
    nums.len() == ty.number_count() && texts == ty.text_count() && fit_base(ty.base, nums)
}

/// Whether it is a number of the base type: an `i32` for `int`, and any but the least `i64` for others.
fn fits_base(base: Base, n: i64) -> bool
    ensures { result ≡ fits_base base n }
{
    match base {
        Base::Int => i32::try_from(n).is_ok(),
        _ => n != i64::MIN,
    }
}

fn fit_base(base: Base, nums: &[i64]) -> bool
    ensures { result ≡ list_all (fits_base base) nums.now }
{
    nums.iter().all(|n| fits_base(base, *n))
}
