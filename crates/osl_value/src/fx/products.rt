ghost use Rattle.std.specs.Prelude.{◌≡◌};
ghost use Rattle.osl_value.specs.Numbers.{saturated, fx_mul, fx_div, fx_fmod, fx_mod};

use crate::fx::{Fx, SCALE};

impl Fx {
    /// The product, cut toward zero and saturated.
    pub fn mul(self, other: Fx) -> Fx
        ensures { result ≡ fx_mul self other }
    {
        let exact = self.units as i128 * other.units as i128;
        nearest(exact / SCALE as i128)
    }

    /// The quotient, cut toward zero and saturated; 0 where the divisor is 0.
    pub fn div(self, other: Fx) -> Fx
        ensures { result ≡ fx_div self other }
    {
        if other.units == 0 {
            return Fx::ZERO;
        }
        let exact = self.units as i128 * SCALE as i128;
        nearest(exact / other.units as i128)
    }

    /// The remainder of the units with the sign of `self`; 0 where the divisor is 0.
    pub fn fmod(self, other: Fx) -> Fx
        ensures { result ≡ fx_fmod self other }
    {
        if other.units == 0 {
            return Fx::ZERO;
        }
        Fx {
            units: self.units % other.units,
        }
    }

    /// The remainder of the units with the sign of the divisor; 0 where that is 0.
    pub fn modulo(self, other: Fx) -> Fx
        ensures { result ≡ fx_mod self other }
    {
        if other.units == 0 {
            return Fx::ZERO;
        }
        let rest = self.units.rem_euclid(other.units);
        if other.units < 0 && rest != 0 {
            Fx {
                units: rest + other.units,
            }
        } else {
            Fx { units: rest }
        }
    }
}

/// The float nearest to this number of units.
fn nearest(units: i128) -> Fx
    ensures { result ≡ saturated units }
{
    let most = i64::MAX as i128;
    Fx {
        units: units.clamp(-most, most) as i64,
    }
}
