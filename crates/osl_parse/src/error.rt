//! Why a list of tokens has no tree.

use osl_value::Memory;
use std::alloc::AllocError;

/// Why no tree was answered.
#[derive(Clone, Copy, Debug, PartialEq, Eq)]
pub enum SyntaxError {
    /// An allocation failed.
    Memory,
    /// No tree spells the tokens, or only one that is higher than 256.
    NoTree,
}

impl From<AllocError> for SyntaxError {
    ghost use Rattle.std.specs.Prelude.{◌≡◌};
    ghost use Rattle.osl_parse.specs.declared.error.SyntaxError.TheVariants as errors;

    ghost from_gives = { λ _ e. e ≡ errors.Memory };

    fn from(_error: AllocError) -> SyntaxError {
        SyntaxError::Memory
    }
}
