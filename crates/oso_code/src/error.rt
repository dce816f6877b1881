/// Where code has a flaw.
#[derive(Clone, Copy, Debug, PartialEq, Eq)]
pub enum FlawKind {
    /// A symbol, or the shader's name or metadata.
    Symbol,
    /// An operation's arguments, or a section.
    Op,
    /// A jump, a `break` or a `continue`.
    Jump,
    /// A limit that is passed.
    Limit,
}

/// Why code was refused.
#[derive(Clone, Copy, Debug, PartialEq, Eq)]
pub enum CodeError {
    /// Out of memory.
    Memory,
    /// The code is not valid. `at` is the number of the symbol or of the op at fault, and 0 for a limit.
    Flaw { kind: FlawKind, at: u32 },
}
