//! Tests of values, operations and small parts, in tables, a module for each crate but the turn lock, whose tests stand
//! beside it. What is expected was worked out by hand or by exact arithmetic outside of the program.
#![tactic(auto)]

#[cfg(test)]
mod bits;
#[cfg(test)]
mod closures;
#[cfg(test)]
mod decimals;
#[cfg(test)]
mod demo;
#[cfg(test)]
mod execution;
#[cfg(test)]
mod fans;
#[cfg(test)]
mod operations;
#[cfg(test)]
mod overloads;
#[cfg(test)]
mod stores;
#[cfg(test)]
mod strings;
#[cfg(test)]
mod value_texts;
#[cfg(test)]
mod values;
#[cfg(test)]
mod words;
