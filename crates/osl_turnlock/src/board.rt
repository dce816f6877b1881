//! The words and the slot of a lock, what each seat knows, and the rule over them.
use crate::held::Held;
use atomic_table::{Table, TableRule};
use std::alloc::Global;
use std::collections::LinkedList;
use std::snapshot::Snapshot;

/// The word with the number that the next seat draws.
pub(crate) const TICKET: usize = 0;

/// The word with the number whose seat may take the slot.
pub(crate) const SERVING: usize = 1;

/// The word with the length of the log.
pub(crate) const COUNT: usize = 2;

/// The slot in which the value lies while no seat has it.
pub(crate) const HOME: usize = 0;

/// What a seat is doing.
pub enum Stage {
    Idle,
    Waiting,
    /// The slot is out with the seat.
    Inside,
    /// The slot is back, and the next number is not served yet.
    Leaving,
}

/// What all seats of a lock agree on: how many there may be, and the log's length, the mark and the base at the
/// start. The base is there but in what is left of a seat that was joined into another.
pub struct Origin<B> {
    pub seats: u64,
    pub start: u64,
    pub mark: Option<u64>,
    pub base: Option<B>,
}

/// What a seat knows. No value of it is made: it is for the proofs, so its numbers do not wrap.
pub struct Known<E, B> {
    pub origin: Origin<B>,
    /// 1 and the seat's spare, or 0 where it was joined into another.
    pub parts: u64,
    pub stage: Stage,
    /// The number of its turn, where it is in one.
    pub number: u64,
    pub list: LinkedList<E>,
    pub mark: Option<u64>,
    pub own: u64,
    pub set: bool,
    /// The shorter list and the second mark of the last join.
    pub beside: LinkedList<E>,
    pub beside_mark: Option<u64>,
}

/// What the table is told when it is made: the value, how many seats there may be, and the value's count and mark.
pub struct Opening<T> {
    pub value: Snapshot<T>,
    pub seats: u64,
    pub start: u64,
    pub mark: Option<u64>,
}

impl<T> Drop for Opening<T> {
    fn drop(self) {
        let Self {
            value: _,
            seats: _,
            start: _,
            mark: _,
        } = self;
    }
}

/// The rule of the lock.
pub struct Turns;

impl<T: Held> TableRule<Option<T>, Known<T::Entry, T::Base>, Opening<T>> for Turns {
    ghost use Rattle.osl_turnlock.specs.Rule.{Kept, first_known};

    ghost holds = { λ key. Kept T.log T.mark T.base key };

    ghost first = { λ key. first_known T.log T.mark T.base key };
}

/// The table of a lock, and a place at it.
pub type Board<T> = Table<
    Option<T>,
    Known<<T as Held>::Entry, <T as Held>::Base>,
    Opening<T>,
    Turns,
    Global,
>;

pub type Place<T> = atomic_table::Seat<Option<T>, Known<<T as Held>::Entry, <T as Held>::Base>>;
