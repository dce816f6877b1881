//! The lock, its seats and its turns. What they can do is in the modules below.
ghost use Rattle.std.specs.Prelude.{◌≡◌, ◌+◌, ◌<◌, length};

use crate::board::{Board, Place};
use crate::held::Held;

mod ends;
mod seats;
mod sharing;
mod steps;
mod turns;
mod value;

/// A lock around a value that threads change in turns. Contracts see of it how many seats there may be
/// (`lock_seats`), and the length of the value's log (`lock_start`) and the value's mark (`lock_mark`) when the
/// lock was made.
pub struct TurnLock<T: Held> {
    board: Board<T>,
    ghost sized: { (board.shared.table_id.words ≡ 3) × (board.shared.table_id.slots ≡ 1) },
    ghost roomy: { 0 < board.shared.key.seats },
}

/// A place at a lock, for one thread at a time. Contracts see of it
/// - of which lock it is (`IsOf`), and whether it is in a turn (`IsInTurn`) or in none (`IsFree`);
/// - the beginning of the log that it has seen (`seat_list`), the mark, where it has seen one (`seat_mark`),
///   and the base of the lock's values (`seat_base`);
/// - how many seats can be split off it (`seat_spare`). It is alone (`IsAlone`) where that is one less than
///   the lock's seats, since then each other seat was joined into it;
/// - how many entries its turns have added (`seat_own`), and whether one of them set the mark (`seat_set`).
pub struct Seat<T: Held> {
    place: Place<T>,
    seen: u64,
    mark: Option<u64>,
    spare: u32,
    ghost seen_is: { seen ≡ length place.me.0.list },
    ghost mark_is: { mark ≡ place.me.0.mark },
    ghost spare_is: { spare + 1 ≡ place.me.0.parts },
}

/// A seat's turn, which has the value (`turn_value`) out. It must be left: it is not `Drop`, so a function that
/// lets one go is refused.
pub struct Turn<'a, T: Held> {
    seat: &'a mut Seat<T>,
    lock: &'a TurnLock<T>,
    value: T,
}

/// A seat that is dropped keeps what is spare of it, so no seat of its lock is alone from then on.
impl<T: Held> Drop for Seat<T> {
    fn drop(self) {
        let Self {
            place: _,
            seen: _,
            mark: _,
            spare: _,
        } = self;
    }
}

/// Drops the value too.
impl<T: Held + Drop> Drop for TurnLock<T> {
    fn drop(self) {
        let Self { board } = self;
        drop(board);
    }
}
