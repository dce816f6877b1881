//! What generated code stands for, and how the code of parts makes up the code of a whole.
//!
//! The definitions are in `specs/`: `Bodies` says which symbols a body's variables have, `Relation` when a state of the
//! source and one of the code belong together, `RunEnds` how a piece of code ends beside its source, and `Codes` what
//! code stands for an expression, a list of expressions or a statement. `PartCodes` and `CallCodes` are of writes of
//! parts and of calls. Each lemma file in `proofs/` is of one kind of node.
#![tactic(auto)]
