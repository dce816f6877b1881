//! How a run stops.

/// How a run of a layer stops.
#[derive(Clone, Copy, Debug, PartialEq, Eq)]
pub enum LayerStop {
    Done,

    /// The layer gives nothing: the budget is spent, or it read a connected parameter that was given nothing.
    Spent,

    /// It is at the read of the connected parameter of this number, which was not given.
    Needs(u32),
}
