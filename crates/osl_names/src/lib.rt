//! What a name means at a place of a source: the variables and the structures that are declared, each looked up at once.
//!
//! A `Scope` is seen as the bindings of `osl_typed`, innermost first, and `Structures` as the list of their declarations:
//! `specs/Scopes.antt` of `osl_typed` defines both. Refused memory is the one fault, and leaves a table as it was.
#![tactic(auto)]

pub mod fields;
mod names;
pub mod scope;
mod stack;
pub mod structures;

pub use fields::Fields;
pub use scope::Scope;
pub use structures::Structures;
