//! A lock that threads take in turns, one after another, in the order in which they asked.
//!
//! Its one job is to let threads share a value that only grows. Such a value (`Held`) is seen with a log to
//! which entries are added, a mark that is set once and a base that never changes. Each thread has a `Seat`,
//! which has seen a beginning of the log. A seat enters, waits for its number to be served, has the value for
//! a `Turn`, and leaves. Seats are split off one another and joined again; the last one closes the lock and
//! gets the value back.
//!
//! The words are a ticket counter, the number that is served, and the log's length. They change in single
//! atomic steps of `atomic_table`, and each step keeps one rule over the words, the value and what each seat
//! knows.
//! Nothing is said of how long a seat waits, nor that it is ever served.
//!
//! Definitions: `specs/Seats.antt` has the words of the public contracts, `specs/Growth.antt` those on logs and
//! marks, `specs/Rule.antt` the rule over `specs/Views.antt`, and `specs/Steps.antt` what each step tells its seat.
#![tactic(auto)]

mod board;
mod held;
mod lock;
mod plays;
#[cfg(test)]
mod tests;

pub use held::Held;
pub use lock::{Seat, Turn, TurnLock};
