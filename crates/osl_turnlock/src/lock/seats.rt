//! What a seat tells of itself.
ghost use Rattle.std.specs.Prelude.{◌≡◌, length};
ghost use Rattle.osl_turnlock.specs.Seats.{seat_list, seat_mark, seat_spare};

use super::Seat;
use crate::board::Place;
use crate::held::Held;

impl<T: Held> Seat<T> {
    /// The length of the log as far as the seat has seen it, in entries.
    pub fn seen(&self) -> u64
        ensures { result ≡ length (seat_list self.now) }
    {
        self.seen
    }

    /// The mark, or None where the seat has seen none.
    pub fn frozen(&self) -> Option<u64>
        ensures { result ≡ seat_mark self.now }
    {
        self.mark
    }

    /// How many seats can be split off this one and off those that come of it.
    pub fn spare(&self) -> u32
        ensures { result ≡ seat_spare self.now }
    {
        self.spare
    }

    pub(super) fn into_parts(self) -> (Place<T>, u64, Option<u64>, u32)
        ensures { (result.0 ≡ self.place) × (result.1 ≡ self.seen) × (result.2 ≡ self.mark) × (result.3 ≡ self.spare) }
    {
        let Self {
            place,
            seen,
            mark,
            spare,
        } = self;
        (place, seen, mark, spare)
    }
}
