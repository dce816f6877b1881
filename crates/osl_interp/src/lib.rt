//! The run of one layer's code, which stops where it needs a connected parameter that was not given and goes on when it is given.
//!
//! Contracts see a run as its code, its point, its budget, what is known of its inputs, and how far it has come (`specs/Progress.antt`);
//! `specs/Calls.antt` says what each call asks for and gives, and `laws` what runs say of the code (`specs/Whole.antt`).
//!
//! It is a machine over the ops of valid code, with a stack of the ranges that it is in. What a machine still comes to, by the
//! meaning of code, is `meaning` in `specs/Meaning.antt`: each step keeps it (`specs/Advances.antt`, `specs/Stops.antt`), and
//! `specs/View.antt` ties it to what contracts see.
#![tactic(auto)]

mod frame;
mod inputs;
mod known;
pub mod laws;
mod layer_run;
mod leave;
mod machine;
mod ops;
mod outputs;
mod run;
mod start;
mod steps;
mod stop;

pub use inputs::inputs_fit;
pub use layer_run::{Given, LayerRun, OutRef, Status};
pub use steps::Steps;
pub use stop::LayerStop;
