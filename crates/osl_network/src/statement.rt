//! The statements that describe a group.

use osl_value::{Text, Value};

/// A statement of a group (OSL's shader groups: `Parameter`, `Shader`, `ConnectShaders` and the renderer's outputs).
#[derive(Debug, Drop)]
pub enum Statement {
    /// An instance value for the next layer, and whether the parameter is locked, if it says so.
    Param {
        name: Text,
        value: Value,
        lockgeom: Option<bool>,
    },
    /// A layer: an instance of a shader.
    Shader {
        shader: Text,
        layer: Text,
    },
    /// A connection from an output of an earlier layer to a parameter of a later one.
    Connect {
        src_layer: Text,
        src_param: Text,
        dst_layer: Text,
        dst_param: Text,
    },
    /// An output that is asked for.
    Output {
        layer: Text,
        param: Text,
    },
}
