use osl_value::Memory as NoMemory;
use std::alloc::AllocError;
use thiserror::Error;

/// Why a tree was not typed.
#[derive(Clone, Copy, Debug, PartialEq, Eq, Error)]
pub enum TypeError {
    /// The tree has no typing.
    #[error("the source has no typing")]
    NoTyping,
    /// An allocation failed.
    #[error("out of memory")]
    Memory,
}

impl From<AllocError> for TypeError {
    ghost use Rattle.std.specs.Prelude.{◌≡◌};
    ghost use Rattle.osl_typing.specs.declared.error.TypeError.TheVariants.{Memory};

    ghost from_gives = { λ _ e. e ≡ Memory };

    fn from(_error: AllocError) -> TypeError {
        TypeError::Memory
    }
}

impl From<NoMemory> for TypeError {
    ghost use Rattle.std.specs.Prelude.{◌≡◌};
    ghost use Rattle.osl_typing.specs.declared.error.TypeError.TheVariants.{Memory};

    ghost from_gives = { λ _ e. e ≡ Memory };

    fn from(_error: NoMemory) -> TypeError {
        TypeError::Memory
    }
}
