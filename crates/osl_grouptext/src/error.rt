use osl_value::Memory;
use std::alloc::AllocFailed;

/// Why a group's text was not read.
#[derive(Clone, Copy, Debug, PartialEq, Eq)]
pub enum GroupTextError {
    /// The first statement that is not in the grammar, counted from 1.
    Syntax { statement: u32 },
    /// An allocation failed.
    Memory,
}

impl From<Memory> for GroupTextError {
    ghost use Rattle.std.specs.Prelude.{◌≡◌};
    ghost use Rattle.osl_grouptext.specs.declared.error.GroupTextError.TheVariants as errors;

    ghost from_gives = { λ _ e. e ≡ errors.Memory };

    fn from(_error: Memory) -> GroupTextError {
        GroupTextError::Memory
    }
}

impl<T: Drop> From<AllocFailed<T>> for GroupTextError {
    ghost use Rattle.std.specs.Prelude.{◌≡◌};
    ghost use Rattle.osl_grouptext.specs.declared.error.GroupTextError.TheVariants as errors;

    ghost from_gives = { λ _ e. e ≡ errors.Memory };

    fn from(_error: AllocFailed<T>) -> GroupTextError {
        GroupTextError::Memory
    }
}
