//! The value of a turn. It has a file of its own, since its clause names the row of `Turn`, which the file that
//! declares `Turn` cannot import.
ghost use Rattle.std.specs.Prelude.{◌≡◌, []};
ghost use mir.Syntax.{named};
ghost use Rattle.std.specs.Borrow.{Lends, sem};
ghost use Rattle.osl_turnlock.specs.Seats.{turn_value};
ghost use Rattle.osl_turnlock.specs.contracts.lock.Turn.{the_row};

use super::Turn;
use crate::held::Held;

impl<T: Held> Turn<'_, T> {
    /// The value, to read and to change while the turn lasts. What is written through the reference is the
    /// turn's value from then on, and all else of the turn stays.
    pub fn value(&mut self) -> &mut T
        ensures* writes_back { sem 𝓛 (Lends (the_row (record { mir = named 1; lft = [] }) T.row T.Entry.row T.Base.row T.Held) T.row self.entry result (λ w. record self.old { value = w })) }
        ensures value { result.now ≡ turn_value self.old }
    {
        &mut self.value
    }
}
