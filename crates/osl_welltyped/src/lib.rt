//! What a typing guarantees, so that a code generator may rely on it.
//!
//! `specs/WellTyped.antt` defines which typed shaders are well typed, over the rules of expressions (`Kinded`) and of
//! statements (`StatementsFit`), and over heights and literals (`Measures`). `laws` has what is proved of typings.
#![tactic(auto)]

pub mod laws;
