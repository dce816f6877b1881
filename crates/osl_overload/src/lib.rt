//! Which of several functions of one name a call means.
//!
//! Passing an argument costs 0 to 3, by what has to be made of its kind; a candidate costs what its arguments cost
//! together. The one candidate of least cost is chosen. The costs are defined in `specs/Cost.antt`, and the three answers
//! in `specs/Choice.antt`.
#![tactic(auto)]

pub mod choice;
pub mod cost;
pub mod signature;
mod standing;

pub use choice::{Choice, choose};
pub use signature::{Arg, Formal, FormalList, Kind, Signature};
