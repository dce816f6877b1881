//! What a typing guarantees along a run of the source: each leaf and each global variable holds a value of its type, in
//! range, and so does what a layer gives.
//!
//! `specs/Typed.antt` defines such states, and which expressions, statements and calls keep them; `specs/Laws.antt` says what
//! is proved, and `laws` has it as contracts. The lemma files go from values (`Values`) over leaves and parts of variables to
//! the nodes of expressions (`NodeTypes`), statements, functions and the layer.
#![tactic(auto)]

pub mod laws;
