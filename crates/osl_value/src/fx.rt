ghost use Rattle.std.specs.Prelude.{◌≡◌};
ghost use Rattle.osl_value.specs.Numbers.{IsInRange, saturated, fx_add, fx_sub, fx_from_int, fx_to_int};

mod blends;
mod order;
mod products;
mod roots;
mod rounding;

use std::marker::Model;

/// A `float` of the language: a whole number of units of 10^-9, from -(2^63-1) to 2^63-1.
///
/// Contracts see it as its number of units, so two are equal, or one is below the other, as their
/// units are.
#[derive(Clone, Copy, Debug, PartialEq, Eq, PartialOrd, Ord)]
pub struct Fx {
    units: i64,
}

impl Model for Fx {
    ghost use Rattle.std.specs.Prelude.{ℤ};
    ghost use Rattle.osl_value.specs.Numbers.{IsInRange};

    ghost Value = { ℤ };

    ghost view = { λ x. x.units };

    ghost invariant = { λ x. IsInRange x.units };

    ghost inverse = { λ n. record { units = n } };
}

/// The units of 1.0.
const SCALE: i64 = 1_000_000_000;

impl Fx {
    /// 0.0
    pub const ZERO: Fx = Fx { units: 0 };

    /// 1.0
    pub const ONE: Fx = Fx { units: SCALE };

    /// The float of this many units; the least `i64` becomes the least float.
    pub fn from_units(units: i64) -> Fx
        ensures { result ≡ saturated units }
    {
        Fx {
            units: units.max(-i64::MAX),
        }
    }

    /// The number of units.
    pub fn units(self) -> i64
        ensures value { result ≡ self }
        ensures range { IsInRange self }
    {
        self.units
    }

    /// The float that is this whole number.
    pub fn from_int(n: i32) -> Fx
        ensures { result ≡ fx_from_int n }
    {
        Fx {
            units: n as i64 * SCALE,
        }
    }

    /// The whole number that is left when the fraction is cut off, or the nearest `i32`.
    pub fn to_int(self) -> i32
        ensures { result ≡ fx_to_int self }
    {
        let whole = self.units / SCALE;
        whole.clamp(i32::MIN as i64, i32::MAX as i64) as i32
    }

    /// The sum, saturated.
    pub fn add(self, other: Fx) -> Fx
        ensures { result ≡ fx_add self other }
    {
        Fx::from_units(self.units.saturating_add(other.units))
    }

    /// The difference, saturated.
    pub fn sub(self, other: Fx) -> Fx
        ensures { result ≡ fx_sub self other }
    {
        Fx::from_units(self.units.saturating_sub(other.units))
    }
}
