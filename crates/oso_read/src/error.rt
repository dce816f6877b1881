use std::alloc::{AllocError, AllocFailed};

/// What is wrong with a line of a text of code.
#[derive(Clone, Copy, Debug, PartialEq, Eq)]
pub enum OsoKind {
    /// The first line or the second, among those that mean something, is not as it should be.
    Header,
    /// The line's words are not in the grammar of the text, or there is no `end`.
    Line,
    /// The symbol's name is taken or not allowed, the symbol is out of order, or a global is wrong.
    Symbol,
    /// The op is unknown, or its arguments do not fit; or the section does not fit.
    Op,
    /// A jump, a `break` or a `continue` is not valid.
    Jump,
    /// The line passes a limit.
    Limit,
}

/// Why a text is no shader's.
#[derive(Clone, Copy, Debug, PartialEq, Eq)]
pub enum OsoError {
    /// An allocation failed.
    Memory,
    /// The kind of the first fault, and its line, counted from 1.
    Bad { kind: OsoKind, line: u32 },
}

impl From<AllocError> for OsoError {
    ghost use Rattle.std.specs.Prelude.{◌≡◌};
    ghost use Rattle.oso_read.specs.declared.error.OsoError.TheVariants.{Memory};

    ghost from_gives = { λ _ e. e ≡ Memory };

    fn from(_error: AllocError) -> OsoError {
        OsoError::Memory
    }
}

impl<T: Drop> From<AllocFailed<T>> for OsoError {
    ghost use Rattle.std.specs.Prelude.{◌≡◌};
    ghost use Rattle.oso_read.specs.declared.error.OsoError.TheVariants.{Memory};

    ghost from_gives = { λ _ e. e ≡ Memory };

    fn from(_error: AllocFailed<T>) -> OsoError {
        OsoError::Memory
    }
}
