//! How the candidates that were looked at stand to each other.

ghost use Rattle.std.specs.Prelude.{◌≡◌};
ghost use Rattle.osl_overload.specs.Standing.{stands};

/// How the candidates stand.
#[derive(Clone, Copy)]
pub enum Standing {
    /// None fits.
    Nobody,
    /// The candidate of this number costs this, and each other costs more.
    One(u32, u64),
    /// Two candidates cost this, and none costs less.
    Tie(u64),
}

/// How the candidates stand when the one of number `i` costs this.
pub fn stands(i: u32, cost: Option<u64>, so_far: Standing) -> Standing
    ensures { result ≡ stands i cost so_far }
{
    let Some(cost) = cost else {
        return so_far;
    };
    match so_far {
        Standing::Nobody => Standing::One(i, cost),
        Standing::One(_, least) => {
            if cost < least {
                Standing::One(i, cost)
            } else if least < cost {
                so_far
            } else {
                Standing::Tie(least)
            }
        }
        Standing::Tie(least) => {
            if cost < least {
                Standing::One(i, cost)
            } else {
                so_far
            }
        }
    }
}
