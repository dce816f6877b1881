ghost use Rattle.osl_value.specs.WellFormed.{AreFloats, IsPoint};

use crate::fx::Fx;

/// What the renderer gives for the globals of the same names at one point (OSL specification,
/// "Global variables").
#[derive(Clone, Copy, Debug)]
pub struct Point {
    /// The position.
    pub p: [Fx; 3],

    /// The shading normal.
    pub n: [Fx; 3],

    /// The geometric normal.
    pub ng: [Fx; 3],

    /// The direction of view.
    pub i: [Fx; 3],

    pub u: Fx,
    pub v: Fx,
}

impl Point {
    /// Each number of a point is a float. It does nothing: its contract is for callers who need this
    /// of a point.
    pub fn is_point(self)
        ensures { IsPoint self }
    {
        are_floats(self.p);
        are_floats(self.n);
        are_floats(self.ng);
        are_floats(self.i);
        let _u = self.u.units();
        let _v = self.v.units();
    }
}

/// Each number is a float.
fn are_floats(xs: [Fx; 3])
    ensures { AreFloats 3 xs }
{
    let _first = xs[0].units();
    let _second = xs[1].units();
    let _third = xs[2].units();
}
