//! The tests of which validity is made up, part by part.

pub mod allowed;
pub mod form;
pub mod limits;
pub mod opened;
pub mod ops;
pub mod ranges;
pub mod role;
pub mod sections;
pub mod symbols;
