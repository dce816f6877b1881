//! How a turn begins and ends.
ghost use Rattle.std.specs.Prelude.{◌≡◌, ◌+◌, ◌||◌, length, Some};
ghost use mathlib.Core.List.{IsPrefix};
ghost use Rattle.osl_turnlock.specs.Growth.{KeepsMark, came};
ghost use Rattle.osl_turnlock.specs.Seats.{seat_list, seat_mark, seat_own, seat_set, seat_base, IsOf, IsFree, IsInTurn, IsAlone, IsSameSeat, turn_value, turn_lock, turn_seat, seat_name};

use super::{Seat, Turn, TurnLock};
use crate::held::Held;
use std::sync::Wait;

impl<T: Held> TurnLock<T> {
    /// Waits for the seat's turn, and takes the value.
    ///
    /// The seat is of this lock and in no turn. The value's log begins with the seat's list, and a mark that
    /// the seat has is the value's. Where the seat is alone, the log is its list and the value's mark is its
    /// mark, none included. In the turn the seat's list and mark are the value's; all else of the seat stays.
    /// The call takes no memory. It may wait, and no clause says for how long.
    pub fn enter<'a, R: Wait>(&'a self, rt: &R, seat: &'a mut Seat<T>) -> Turn<'a, T>
        requires { IsOf self.now seat.old × IsFree seat.old }
        ensures lock { turn_lock result ≡ self.now }
        ensures seat { seat_name result ≡ seat.entry.ghost_name }
        ensures inside { IsInTurn (turn_seat result) × IsSameSeat seat.entry.now (turn_seat result) }
        ensures own { seat_own (turn_seat result) ≡ seat_own seat.entry.now }
        ensures set { seat_set (turn_seat result) ≡ seat_set seat.entry.now }

        // The seat has seen what the value is.
        ensures seen_log { seat_list (turn_seat result) ≡ T.log (turn_value result) }
        ensures seen_mark { seat_mark (turn_seat result) ≡ T.mark (turn_value result) }

        // The value goes on from what the seat had seen.
        ensures log { IsPrefix (seat_list seat.entry.now) (T.log (turn_value result)) }
        ensures mark { KeepsMark (seat_mark seat.entry.now) (T.mark (turn_value result)) }
        ensures base { Some (T.base (turn_value result)) ≡ seat_base seat.entry.now }
        ensures alone_log { IsAlone self.now seat.entry.now → T.log (turn_value result) ≡ seat_list seat.entry.now }
        ensures alone_mark { IsAlone self.now seat.entry.now → T.mark (turn_value result) ≡ seat_mark seat.entry.now }
    {
        let value = self.take(rt, seat);
        Turn {
            seat,
            lock: self,
            value,
        }
    }
}

impl<T: Held> Turn<'_, T> {
    /// Gives the value back, and ends the turn. It takes no memory and does not wait.
    ///
    /// Since the turn began the log has only grown at its end, a mark that was there is unchanged, and so is
    /// the base. The seat's list and mark become the value's. Its `own` grows by the number of entries that
    /// the turn added, and its `set` becomes true where the turn set the mark. All else of the seat stays.
    pub fn leave(self)
        requires seat { IsOf (turn_lock self) (turn_seat self) × IsInTurn (turn_seat self) }
        requires log { IsPrefix (seat_list (turn_seat self)) (T.log (turn_value self)) }
        requires mark { KeepsMark (seat_mark (turn_seat self)) (T.mark (turn_value self)) }
        requires base { Some (T.base (turn_value self)) ≡ seat_base (turn_seat self) }

        // `self.exit.0.now` is the seat that the turn had borrowed.
        ensures free { IsFree self.exit.0.now × IsSameSeat (turn_seat self.entry) self.exit.0.now }
        ensures seen_log { seat_list self.exit.0.now ≡ T.log (turn_value self.entry) }
        ensures seen_mark { seat_mark self.exit.0.now ≡ T.mark (turn_value self.entry) }
        ensures own { seat_own self.exit.0.now + length (seat_list (turn_seat self.entry))
            ≡ seat_own (turn_seat self.entry) + length (T.log (turn_value self.entry)) }
        ensures set { seat_set self.exit.0.now
            ≡ (seat_set (turn_seat self.entry) || came (seat_mark (turn_seat self.entry)) (T.mark (turn_value self.entry))) }
    {
        let Turn { seat, lock, value } = self;
        lock.give(seat, value);
    }
}
