//! The steps of a turn, on a seat that is lent for the call alone.
ghost use Rattle.std.specs.Prelude.{◌≡◌, ◌+◌, ◌||◌, length, Some};
ghost use mathlib.Core.List.{IsPrefix};
ghost use Rattle.osl_turnlock.specs.Growth.{KeepsMark, came};
ghost use Rattle.osl_turnlock.specs.Seats.{seat_list, seat_mark, seat_own, seat_set, seat_base, IsOf, IsFree, IsInTurn, IsAlone, IsSameSeat};

use super::{Seat, TurnLock};
use crate::board::{COUNT, HOME, SERVING, TICKET};
use crate::held::Held;
use crate::plays::{Await, Draw, End, Give};
use std::sync::Wait;
use std::thread;

impl<T: Held> TurnLock<T> {
    // Waits until the seat's number is served, and takes the value out of the slot.
    pub(super) fn take<R: Wait>(&self, rt: &R, seat: &mut Seat<T>) -> T
        requires { IsOf self.now seat.old × IsFree seat.old }
        ensures inside { IsInTurn seat.new × IsSameSeat seat.old seat.new }
        ensures own { seat_own seat.new ≡ seat_own seat.old }
        ensures set { seat_set seat.new ≡ seat_set seat.old }
        ensures seen_log { seat_list seat.new ≡ T.log result }
        ensures seen_mark { seat_mark seat.new ≡ T.mark result }
        ensures log { IsPrefix (seat_list seat.old) (T.log result) }
        ensures mark { KeepsMark (seat_mark seat.old) (T.mark result) }
        ensures base { Some (T.base result) ≡ seat_base seat.old }
        ensures alone_log { IsAlone self.now seat.old → T.log result ≡ seat_list seat.old }
        ensures alone_mark { IsAlone self.now seat.old → T.mark result ≡ seat_mark seat.old }
    {
        let shared = &self.board.shared;
        let ticket = shared.fetch_add::<Draw>(&mut seat.place, TICKET, 1);
        for _ in rt.forever() {
            if shared.load::<Await>(&mut seat.place, SERVING) == ticket {
                let value = shared.exchange(&mut seat.place, HOME, None).unwrap();
                seat.seen = value.count();
                seat.mark = value.mark();
                return value;
            }
            thread::yield_now();
        }
        unreachable!()
    }

    // Puts the value back into the slot, and has the next number served.
    pub(super) fn give(&self, seat: &mut Seat<T>, value: T)
        requires seat { IsOf self.now seat.old × IsInTurn seat.old }
        requires log { IsPrefix (seat_list seat.old) (T.log value) }
        requires mark { KeepsMark (seat_mark seat.old) (T.mark value) }
        requires base { Some (T.base value) ≡ seat_base seat.old }
        ensures free { IsFree seat.new × IsSameSeat seat.old seat.new }
        ensures seen_log { seat_list seat.new ≡ T.log value }
        ensures seen_mark { seat_mark seat.new ≡ T.mark value }
        ensures own { seat_own seat.new + length (seat_list seat.old) ≡ seat_own seat.old + length (T.log value) }
        ensures set { seat_set seat.new ≡ (seat_set seat.old || came (seat_mark seat.old) (T.mark value)) }
    {
        let shared = &self.board.shared;
        let seen = value.count();
        let mark = value.mark();
        let added = seen - seat.seen;
        let gap = shared.exchange(&mut seat.place, HOME, Some(value));
        let None = gap else { unreachable!() };
        shared.fetch_add::<Give>(&mut seat.place, COUNT, added);
        seat.seen = seen;
        seat.mark = mark;
        shared.fetch_add::<End>(&mut seat.place, SERVING, 1);
    }
}
