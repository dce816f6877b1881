//! Numbers, types and values of the shading language, and the table of its operations.
//!
//! A float is seen as its whole number of units of 10^-9, a string as its bytes, a value as its
//! type, numbers and texts, and a list of parts or of values as the list. `specs/Numbers.antt`,
//! `Strings.antt`, `Geometry.antt` and `Closures.antt` define what operations do, `Table.antt` has
//! one line for each operation, and `Apply.antt` says which types it takes and which value it
//! gives. `laws` has what holds of the table as a whole.
#![tactic(auto)]

pub mod closure;
pub mod fx;
pub mod laws;
pub mod layer_values;
pub mod memory;
pub mod op_name;
pub mod point;
pub mod shader_kind;
pub mod text;
pub mod types;
pub mod value;

pub use closure::{Part, PartList, Primitive};
pub use fx::Fx;
pub use layer_values::LayerValues;
pub use memory::Memory;
pub use op_name::OpName;
pub use point::Point;
pub use shader_kind::ShaderKind;
pub use text::Text;
pub use types::{Base, Ty};
pub use value::Value;
