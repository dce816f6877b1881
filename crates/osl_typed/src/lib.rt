//! The typed tree of a source, and what it means: what a layer gives, run from its source.
//!
//! The tree has each name tied to its declaration, each call to its function, and each promotion written in. A
//! value is the list of its leaves, and a run goes from state to state. The definitions are in `specs/`: `Typing`,
//! `BodyTyping` and `FileTyping` say which typed tree a syntax tree has, `Expressions`, `Statements` and `SourceRun`
//! what it means, and `Sizes` how much code it may become.
#![tactic(auto)]

pub mod expr;
pub mod found;
pub mod laws;
mod measure;
pub mod shader;
pub mod sizes;
pub mod stmt;
mod tables;
pub mod typed;
pub mod types;

pub use expr::{Argument, Increment, Part, Root, TypedExpr};
pub use found::{Binding, Callee, Form, Found};
pub use shader::{TypedDatum, TypedFunction, TypedParam, TypedShader, TypedStructure};
pub use sizes::Sizes;
pub use stmt::{Declared, TypedForStart, TypedInit, TypedStmt};
pub use typed::Typed;
