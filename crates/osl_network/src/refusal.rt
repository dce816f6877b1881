//! Why a call that builds a group is refused.

/// Why a call that builds a group is refused, each by the condition of the call (`specs/Building.antt`).
#[derive(Clone, Copy, Debug, PartialEq, Eq)]
pub enum GroupError {
    /// A shader of this name is loaded already.
    SameShader,
    /// No shader of this name is loaded.
    NoShader,
    /// A layer of this name is there already.
    SameLayer,
    /// There is no layer of this name.
    NoLayer,
    /// There is no parameter of this name.
    NoParam,
    /// The parameter is no output.
    NotOutput,
    /// The parameter is an output.
    NotInput,
    /// The source's layer does not come before the other.
    NotUpstream,
    /// The types do not fit.
    WrongType,
    /// The parameter is connected already.
    Connected,
    /// There are as many as there may be.
    TooMany,
    /// The group has no layer.
    Empty,
    /// An allocation failed.
    Memory,
}
