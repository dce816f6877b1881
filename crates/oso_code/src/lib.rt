//! Code of a shader: flat operations over symbols, which code is valid, and what it means.
//!
//! The types are those of the text of code: a `Raw` is its symbols, sections and ops. Contracts see a
//! `Shader` as its `Raw`, which is valid.
//!
//! Definitions: `specs/Valid.antt` has `IsValid` and `first_flaw`, on which `Symbols`, `Names`, `Holding`, `Sections`,
//! `Ops` and `Ranges` say what each part has to be; `specs/CodeRun.antt` has `code_run` and `ops_run`, over the steps of
//! `Steps` and the runs of ranges of `Run`; `Uses` says what an op reads, writes and overwrites. What each operation
//! takes and gives is the table of `osl_value` (`specs/Table.antt` there). What holds of all valid code is in
//! `specs/Laws.antt`: how its ranges lie (`Nesting`), and that each symbol has a value of its type along a run (`Typed`).
#![tactic(auto)]

pub mod checks;
mod copies;
pub mod error;
mod flaws;
pub mod holding;
pub mod laws;
pub mod list;
pub mod name;
pub mod op;
pub mod raw;
pub mod shader;
pub mod symbol;
mod valid;

pub use error::{CodeError, FlawKind};
pub use list::ListOf;
pub use op::{Op, Section};
pub use raw::Raw;
pub use shader::Shader;
pub use symbol::{Class, Meta, Symbol};
pub use valid::validate;
