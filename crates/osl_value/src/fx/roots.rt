ghost use Rattle.std.specs.Prelude.{◌≡◌, ◌*◌, ◌^◌, ◌<◌, ◌≤◌};
ghost use Rattle.osl_value.specs.Numbers.{scale, count_of, IsRoot, root_of, fx_sqrt, fx_inversesqrt};

use crate::fx::{Fx, SCALE};

impl Fx {
    /// The square root, cut to a whole number of units; 0 below 0.
    pub fn sqrt(self) -> Fx
        ensures value { result ≡ fx_sqrt self }
        ensures root { IsRoot (count_of self * scale) (count_of result) }
    {
        let root = root_of(self.units.max(0) as u128 * SCALE as u128);
        Fx { units: root as i64 }
    }

    /// One divided by the square root.
    pub fn inversesqrt(self) -> Fx
        ensures { result ≡ fx_inversesqrt self }
    {
        Fx::ONE.div(self.sqrt())
    }
}

/// The greatest number whose square is at most n, found bit by bit from the highest.
fn root_of(n: u128) -> u64
    requires { n < 2 ^ 94 }
    ensures value { result ≡ root_of n }
    ensures root { IsRoot n result }
    ensures bound { result ≤ 2 ^ 47 }
{
    let mut root = 0u64;
    for bit in (0..47u32).rev() {
        let next = root + (1 << bit);
        if next as u128 * next as u128 <= n {
            root = next;
        }
    }
    root
}
