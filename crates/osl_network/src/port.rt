//! A parameter of a shader, as a group sees it.

use osl_value::{Text, Ty};

/// A parameter of a shader, as a group sees it.
#[derive(Debug, Drop)]
pub struct Port {
    pub name: Text,
    pub ty: Ty,
    pub output: bool,

    /// The shader's own metadata says `int lockgeom = 0` of it.
    pub loose: bool,
}
