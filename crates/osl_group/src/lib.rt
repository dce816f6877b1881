//! The instance values of a group's layers, and what a builder of groups keeps: loaded shaders, and values that wait.
//!
//! What a group is, and which values are a group's, is defined in `osl_network` (`specs/Network.antt`, `specs/Groups.antt`).
//! Values share the layers that do not change. Loaded shaders (`Shaders`) are seen as the list of their names and codes
//! (`specs/Loaded.antt`), each found by its name, and each with its parameters, found by theirs.
#![tactic(auto)]

pub mod loaded;
mod names;
pub mod ports;
pub mod shaders;
pub mod values;
pub mod waiting;

pub use loaded::LoadedShader;
pub use shaders::Shaders;
pub use values::Values;
pub use waiting::{WaitingValue, WaitingValues};
