ghost use Rattle.std.specs.Prelude.{◌≡◌};
ghost use Rattle.osl_value.specs.Numbers.{fx_mix, fx_smoothstep};

use crate::fx::{Fx, SCALE};

/// 2.0 and 3.0
const TWO: Fx = Fx { units: 2 * SCALE };

const THREE: Fx = Fx { units: 3 * SCALE };

impl Fx {
    /// `self` where t is 0, `other` where t is 1, and between them by t.
    pub fn mix(self, other: Fx, t: Fx) -> Fx
        ensures { result ≡ fx_mix self other t }
    {
        self.mul(Fx::ONE.sub(t)).add(other.mul(t))
    }

    /// 0 below e0, 1 from e1 on, and a smooth rise between them.
    pub fn smoothstep(e0: Fx, e1: Fx, x: Fx) -> Fx
        ensures { result ≡ fx_smoothstep e0 e1 x }
    {
        if x < e0 {
            return Fx::ZERO;
        }
        if x >= e1 {
            return Fx::ONE;
        }
        let t = x.sub(e0).div(e1.sub(e0));
        t.mul(t).mul(THREE.sub(TWO.mul(t)))
    }
}
