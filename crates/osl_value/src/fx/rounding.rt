ghost use Rattle.std.specs.Prelude.{◌≡◌};
ghost use Rattle.osl_value.specs.Numbers.{whole, fx_floor, fx_ceil, fx_round, fx_trunc};

use crate::fx::{Fx, SCALE};

/// The units of a half.
const HALF: u64 = 500_000_000;

impl Fx {
    /// The greatest whole number that is not above it, saturated.
    pub fn floor(self) -> Fx
        ensures { result ≡ fx_floor self }
    {
        whole(self.units.div_euclid(SCALE))
    }

    /// The least whole number that is not below it, saturated.
    pub fn ceil(self) -> Fx
        ensures { result ≡ fx_ceil self }
    {
        let below = (-self.units).div_euclid(SCALE);
        whole(-below)
    }

    /// The nearest whole number, a half being rounded away from zero, saturated.
    pub fn round(self) -> Fx
        ensures { result ≡ fx_round self }
    {
        let count = ((self.units.unsigned_abs() + HALF) / SCALE as u64) as i64;
        whole(if self.units < 0 { -count } else { count })
    }

    /// The whole number that is left when the fraction is cut off.
    pub fn trunc(self) -> Fx
        ensures { result ≡ fx_trunc self }
    {
        whole(self.units / SCALE)
    }
}

/// A whole number as a float, saturated.
fn whole(n: i64) -> Fx
    ensures { result ≡ whole n }
{
    Fx::from_units(n.saturating_mul(SCALE))
}
