//! How a seat learns without a turn: it looks how long the log is, and seats are split and joined.
//! None of these calls waits or takes memory.
ghost use Rattle.std.specs.Prelude.{◌≡◌, ◌+◌, ◌-◌, ◌<◌, ◌||◌, [], length, false, None};
ghost use mathlib.Core.List.{IsPrefix};
ghost use Rattle.osl_turnlock.specs.declared.board.Stage.TheVariants.{Idle};
ghost use Rattle.osl_turnlock.specs.Growth.{KeepsMark, longer};
ghost use Rattle.osl_turnlock.specs.Views.{both, giver, taker};
ghost use Rattle.osl_turnlock.specs.Steps.{Joined};
ghost use Rattle.osl_turnlock.specs.Seats.{lock_start, lock_mark, seat_list, seat_mark, seat_spare, seat_own, seat_set, seat_base, IsOf, IsFree, IsAlone};

use super::{Seat, TurnLock};
use crate::board::{COUNT, Place};
use crate::held::Held;
use crate::plays::{Count, Cut, Giving, Glue, Learn};
use std::marker::Brand;

impl<T: Held> TurnLock<T> {
    /// Looks how long the log is, by one load.
    ///
    /// The seat is of this lock and in no turn. Its list becomes one that the old one begins and whose length
    /// is the answer. All else of the seat stays.
    pub fn count(&self, seat: &mut Seat<T>) -> u64
        requires { IsOf self.now seat.old × IsFree seat.old }
        ensures seat { IsOf self.now seat.new × IsFree seat.new }
        ensures list { IsPrefix (seat_list seat.old) (seat_list seat.new) }
        ensures length { result ≡ length (seat_list seat.new) }
        ensures mark { seat_mark seat.new ≡ seat_mark seat.old }
        ensures base { seat_base seat.new ≡ seat_base seat.old }
        ensures spare { seat_spare seat.new ≡ seat_spare seat.old }
        ensures own { seat_own seat.new ≡ seat_own seat.old }
        ensures set { seat_set seat.new ≡ seat_set seat.old }
    {
        seat.seen = self.board.shared.load::<Count>(&mut seat.place, COUNT);
        seat.seen()
    }

    /// A new seat, with `give` of the spare ones.
    ///
    /// The seat is of this lock and in no turn, and `give` is less than its spare. The new seat has the same
    /// list, mark and base, and has added nothing and set no mark. The old one loses what it gave and one
    /// more, and is otherwise as before.
    pub fn split(&self, seat: &mut Seat<T>, give: u32) -> Seat<T>
        requires seat { IsOf self.now seat.old × IsFree seat.old }
        requires room { give < seat_spare seat.old }

        // The new seat.
        ensures given { IsOf self.now result × IsFree result }
        ensures given_list { seat_list result ≡ seat_list seat.old }
        ensures given_mark { seat_mark result ≡ seat_mark seat.old }
        ensures given_base { seat_base result ≡ seat_base seat.old }
        ensures given_spare { seat_spare result ≡ give }
        ensures given_sums { (seat_own result ≡ 0) × (seat_set result ≡ false) }

        // The old seat.
        ensures kept { IsOf self.now seat.new × IsFree seat.new }
        ensures kept_list { seat_list seat.new ≡ seat_list seat.old }
        ensures kept_mark { seat_mark seat.new ≡ seat_mark seat.old }
        ensures kept_base { seat_base seat.new ≡ seat_base seat.old }
        ensures kept_spare { seat_spare seat.new ≡ seat_spare seat.old - 1 - give }
        ensures kept_own { seat_own seat.new ≡ seat_own seat.old }
        ensures kept_set { seat_set seat.new ≡ seat_set seat.old }
    {
        let place = self.cut::<Brand>(&mut seat.place, give);
        seat.spare -= give + 1;
        Seat {
            place,
            seen: seat.seen,
            mark: seat.mark,
            spare: give,
        }
    }

    /// Takes in what the other seat knows. Both are of this lock and in no turn.
    ///
    /// The list becomes the longer of the two, and each of them begins it. A mark that one of them had is the
    /// seat's, which has none where neither had one. The spare is the sum and one more, `own` is the sum, `set`
    /// is true where it was in one of them, and the base stays. Where the seat is alone afterwards, its list
    /// has `own` entries more than the log had when the lock was made, and it has no mark where `set` is false
    /// and the value had none then.
    pub fn join(&self, into: &mut Seat<T>, other: Seat<T>)
        requires into { IsOf self.now into.old × IsFree into.old }
        requires other { IsOf self.now other × IsFree other }
        ensures seat { IsOf self.now into.new × IsFree into.new }

        ensures list { seat_list into.new ≡ longer (seat_list into.old) (seat_list other) }
        ensures begins { IsPrefix (seat_list into.old) (seat_list into.new) }
        ensures other_begins { IsPrefix (seat_list other) (seat_list into.new) }
        ensures mark { KeepsMark (seat_mark into.old) (seat_mark into.new) }
        ensures other_mark { KeepsMark (seat_mark other) (seat_mark into.new) }
        ensures no_mark { seat_mark into.old ≡ None → seat_mark other ≡ None → seat_mark into.new ≡ None }

        ensures base { seat_base into.new ≡ seat_base into.old }
        ensures spare { seat_spare into.new ≡ seat_spare into.old + seat_spare other + 1 }
        ensures own { seat_own into.new ≡ seat_own into.old + seat_own other }
        ensures set { seat_set into.new ≡ (seat_set into.old || seat_set other) }

        ensures alone_list { IsAlone self.now into.new
            → length (seat_list into.new) ≡ lock_start self.now + seat_own into.new }
        ensures alone_mark { IsAlone self.now into.new
            → seat_set into.new ≡ false → lock_mark self.now ≡ None → seat_mark into.new ≡ None }
    {
        let (place, seen, mark, spare) = other.into_parts();
        self.merge(&mut into.place, place);
        if into.seen < seen {
            into.seen = seen;
        }
        if into.mark.is_none() {
            into.mark = mark;
        }
        into.spare += spare + 1;
    }

    // The new view has to be a function of the old one, so the number given goes in by `G`, which the caller picks.
    fn cut<G: Giving>(&self, place: &mut Place<T>, give: u32) -> Place<T>
        requires lock { (place.old.table_id ≡ self.now.board.shared.table_id) × (give ≡ G.give) }
        requires room { (give + 1 < place.old.me.0.parts) × (place.old.me.1 ≡ []) }
        requires idle { place.old.me.0.stage ≡ Idle }
        ensures kept { (place.new.table_id ≡ place.old.table_id) × (place.new.me ≡ (giver give place.old.me.0, [])) }
        ensures given { (result.table_id ≡ place.old.table_id) × (result.me ≡ (taker give place.old.me.0, [])) }
    {
        self.board.shared.split_seat::<Cut<G>>(place)
    }

    // The base's join tells nothing, so a look follows, which tells what holds of the view that the two became.
    fn merge(&self, place: &mut Place<T>, other: Place<T>)
        requires lock { (place.old.table_id ≡ self.now.board.shared.table_id) × (other.table_id ≡ self.now.board.shared.table_id) }
        requires live { (0 < place.old.me.0.parts) × (0 < other.me.0.parts) }
        requires idle { (place.old.me.0.stage ≡ Idle) × (other.me.0.stage ≡ Idle) }
        requires bare { (place.old.me.1 ≡ []) × (other.me.1 ≡ []) }
        ensures kept { (place.new.table_id ≡ place.old.table_id) × (place.new.me ≡ (both place.old.me.0 other.me.0, [])) }
        ensures learned { Joined place.old.me.0 other.me.0 }
    {
        let shared = &self.board.shared;
        shared.join_seat::<Glue>(place, other);
        shared.load::<Learn>(place, COUNT);
    }
}
