//! The typing of a source: from a syntax tree to its typed tree.
//!
//! The model is `typed` of `osl_typed` (`specs/FileTyping.antt`, and below it `BodyTyping` and `Typing`), which has the
//! typed form of a tree if there is one. Each module here has the functions of one of its parts, with the definition of
//! the part as their contract: a walk over the tree that answers what the definition has, in one pass.
#![tactic(auto)]

mod above;
mod constancy;
mod declarations;
mod definitions;
mod expr;
mod longest;
mod metadata;
mod params;
mod shader;
mod statements;

pub use osl_typing::TypeError;
pub use shader::check;
