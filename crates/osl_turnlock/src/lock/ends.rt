//! How a lock is made and closed.
ghost use Rattle.std.specs.Prelude.{◌≡◌, ◌+◌, ◌-◌, ◌<◌, ◌≤◌, length, IfOk, IfErr, Some, false};
ghost use Rattle.osl_turnlock.specs.declared.board.Stage.TheVariants.{Idle};
ghost use Rattle.osl_turnlock.specs.Seats.{lock_seats, lock_start, lock_mark, seat_list, seat_mark, seat_spare, seat_own, seat_set, seat_base, IsOf, IsFree, IsAlone};

use super::{Seat, TurnLock};
use crate::board::{HOME, Opening, Place};
use crate::held::Held;
use atomic_table::{Refused, Table};
use osl_value::Memory;
use std::alloc::{AllocFailed, Global};
use std::snapshot::Snapshot;

impl<T: Held + Send> TurnLock<T> {
    /// A lock around the value, and its first seat, which is alone. There may be as many seats as `seats`,
    /// which is 1 to 1,024.
    ///
    /// The seat's list, mark and base are the value's. It has added nothing and set no mark.
    /// `Memory` alone is refused, and then the value comes back as it was.
    pub fn make(alloc: Global, value: T, seats: u32) -> Result<(TurnLock<T>, Seat<T>), (T, Memory)>
        requires { (0 < seats) × (seats ≤ 1024) }
        ensures seats { IfOk result (λ (lock, seat). lock_seats lock ≡ seats) }
        ensures start { IfOk result (λ (lock, seat). lock_start lock ≡ length (T.log value)) }
        ensures lock_mark { IfOk result (λ (lock, seat). lock_mark lock ≡ T.mark value) }

        ensures seat { IfOk result (λ (lock, seat). IsOf lock seat × IsFree seat) }
        ensures list { IfOk result (λ (lock, seat). seat_list seat ≡ T.log value) }
        ensures mark { IfOk result (λ (lock, seat). seat_mark seat ≡ T.mark value) }
        ensures base { IfOk result (λ (lock, seat). seat_base seat ≡ Some (T.base value)) }
        ensures spare { IfOk result (λ (lock, seat). seat_spare seat ≡ seats - 1) }
        ensures sums { IfOk result (λ (lock, seat). (seat_own seat ≡ 0) × (seat_set seat ≡ false)) }

        ensures refused { IfErr result (λ (back, memory). back ≡ value) }
    {
        let seen = value.count();
        let mark = value.mark();
        let about = Opening {
            value: Snapshot::of(&value),
            seats: seats as u64,
            start: seen,
            mark,
        };
        let mut slots = Vec::new(alloc);
        if let Err(AllocFailed { value }) = slots.push(Some(value)) {
            slots.destroy_empty();
            return Err((value.unwrap(), Memory));
        }
        match Table::new(alloc, &[0, 0, seen], slots, &about) {
            Ok((board, place)) => Ok((
                TurnLock { board },
                Seat {
                    place,
                    seen,
                    mark,
                    spare: seats - 1,
                },
            )),
            Err(Refused { mut slots }) => {
                let value = slots.pop().unwrap();
                slots.destroy_empty();
                Err((value.unwrap(), Memory))
            }
        }
    }
}

impl<T: Held> TurnLock<T> {
    /// Ends the lock, and gives the value back. It takes no memory and does not wait.
    ///
    /// The seat is of this lock, in no turn and alone. The value's log is its list, the value's mark is its
    /// mark, none included, and the base is its base. The log has `own` entries more than it had when the
    /// lock was made.
    pub fn close(self, seat: Seat<T>) -> T
        requires seat { IsOf self seat × IsFree seat }
        requires alone { IsAlone self seat }
        ensures log { T.log result ≡ seat_list seat }
        ensures mark { T.mark result ≡ seat_mark seat }
        ensures base { Some (T.base result) ≡ seat_base seat }
        ensures own { length (T.log result) ≡ lock_start self + seat_own seat }
    {
        let (place, _, _, _) = seat.into_parts();
        self.finish(place)
    }

    // Takes the value out of the table, which no other seat can reach any more.
    fn finish(self, place: Place<T>) -> T
        requires lock { (place.table_id ≡ self.board.shared.table_id) × (place.me.0.stage ≡ Idle) }
        requires alone { (0 < place.me.0.parts) × (place.me.0.parts ≡ place.me.0.origin.seats) }
        ensures log { T.log result ≡ place.me.0.list }
        ensures mark { T.mark result ≡ place.me.0.mark }
        ensures base { Some (T.base result) ≡ place.me.0.origin.base }
        ensures own { length place.me.0.list ≡ place.me.0.origin.start + place.me.0.own }
    {
        let Self { board } = self;
        let mut closed = board.close_with(place);
        let slot = closed.take(HOME);
        closed.free();
        slot.unwrap()
    }
}
