/// What a range of ops is to the op that runs it.
#[derive(Clone, Copy, Debug, PartialEq, Eq)]
pub enum Role {
    LoopBody,
    CallBody,

    /// A side of an `if`, a condition, or the step of a `for`.
    Part,
}
