//! Tests that cross crates: rows of sources, with their tokens, the shapes of their trees, whether they have a typing,
//! what their typed trees say, and their sizes; names through blocks; and whole jobs, with their status and what they print.
//! What is expected was written by hand, from the language's rules and the formats.
#![tactic(auto)]

#[cfg(test)]
mod jobs;
#[cfg(test)]
mod names;
#[cfg(test)]
mod shape;
#[cfg(test)]
mod sizes;
#[cfg(test)]
mod tests;
#[cfg(test)]
mod trees;
#[cfg(test)]
mod typing;

/// The longest source that is read.
#[cfg(test)]
pub(crate) const LIMIT: usize = 1_048_576;
