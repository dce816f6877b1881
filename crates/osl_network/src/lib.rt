//! Networks of connected layers: what a group of layers is, how statements build one, and what it shows at a point.
//!
//! A network is a group without what its shaders are: its layers with their parameters, instance values and connections,
//! and the outputs that are asked (`specs/Network.antt`). Which statements build which group, and the first that is
//! refused, is in `specs/Building.antt` and `specs/Statements.antt`; what holds of all groups in `specs/Groups.antt` and `Laws`. What a group
//! shows is defined over whatever runs its layers (`Runs`, `Meaning`, `Needed`): for layers of code and for layers of source
//! (`specs/Shaders.antt`) alike.
#![tactic(auto)]

pub mod laws;
pub mod port;
pub mod refusal;
pub mod statement;
pub mod variables;

pub use port::Port;
pub use refusal::GroupError;
pub use statement::Statement;
pub use variables::{Var, VarList, VarPoint};
