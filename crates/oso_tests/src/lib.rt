//! Tests of code, in tables: which code is valid and which flaw is its first, the text of code, read and written, and what
//! runs of layers ask for and give. What is expected was worked out by hand or by exact arithmetic, from the rules of
//! docs/CODE.md and docs/FORMATS.md.
#![tactic(auto)]

#[cfg(test)]
mod changes;
#[cfg(test)]
mod code;
#[cfg(test)]
mod flaws;
#[cfg(test)]
mod runs;
#[cfg(test)]
mod texts;
