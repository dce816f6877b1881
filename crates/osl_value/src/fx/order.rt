ghost use Rattle.std.specs.Prelude.{◌≡◌};
ghost use Rattle.osl_value.specs.Numbers.{fx_min, fx_max, fx_step, fx_clamp, fx_neg, fx_abs, fx_sign};

use crate::fx::{Fx, SCALE};

impl Fx {
    /// The lesser of the two.
    pub fn min(self, other: Fx) -> Fx
        ensures { result ≡ fx_min self other }
    {
        Fx {
            units: self.units.min(other.units),
        }
    }

    /// The greater of the two.
    pub fn max(self, other: Fx) -> Fx
        ensures { result ≡ fx_max self other }
    {
        Fx {
            units: self.units.max(other.units),
        }
    }

    /// 0 where `other` is below `self`, the edge, and 1 elsewhere.
    pub fn step(self, other: Fx) -> Fx
        ensures { result ≡ fx_step self other }
    {
        if other.units < self.units {
            Fx::ZERO
        } else {
            Fx::ONE
        }
    }

    /// At least `lo` and then at most `hi`.
    pub fn clamp(self, lo: Fx, hi: Fx) -> Fx
        ensures { result ≡ fx_clamp self lo hi }
    {
        self.max(lo).min(hi)
    }

    /// The number with the other sign.
    pub fn neg(self) -> Fx
        ensures { result ≡ fx_neg self }
    {
        Fx { units: -self.units }
    }

    /// The number without its sign.
    pub fn abs(self) -> Fx
        ensures { result ≡ fx_abs self }
    {
        Fx {
            units: self.units.abs(),
        }
    }

    /// -1, 0 or 1.
    pub fn sign(self) -> Fx
        ensures { result ≡ fx_sign self }
    {
        Fx {
            units: self.units.signum() * SCALE,
        }
    }
}
