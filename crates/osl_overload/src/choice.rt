ghost use Rattle.std.specs.Prelude.{◌≡◌, ◌^◌, ◌<◌, length};
ghost use Rattle.osl_overload.specs.declared.choice.Choice.{Choice};
ghost use Rattle.osl_overload.specs.Choice.{IsChoice};

use crate::cost::total;
use crate::signature::{Arg, Signature};
use crate::standing::{Standing, stands};

/// Which candidate a call means.
#[derive(Clone, Copy, Debug, PartialEq, Eq)]
pub enum Choice {
    /// The candidate of this number, counted from 0: the one that costs least.
    Chosen(u32),
    /// No candidate takes the arguments.
    NoCandidate,
    /// Two candidates cost least.
    Ambiguous,
}

/// Chooses among the candidates of a call, of which there are fewer than 2^32. It looks at each argument once for each
/// candidate.
pub fn choose(candidates: &[Signature], args: &[Arg]) -> Choice
    requires { length candidates.now < 2 ^ 32 }
    ensures choice { IsChoice candidates.now args.now result }
    ensures only { (other : Choice) → IsChoice candidates.now args.now other → other ≡ result }
{
    let mut standing = Standing::Nobody;
    for (i, candidate) in candidates.iter().enumerate() {
        standing = stands(i as u32, total(candidate.params.as_slice(), args), standing);
    }
    match standing {
        Standing::One(i, _) => Choice::Chosen(i),
        Standing::Nobody => Choice::NoCandidate,
        Standing::Tie(_) => Choice::Ambiguous,
    }
}
