ghost use Rattle.std.specs.Prelude.{◌≡◌};

use crate::error::{OsoError, OsoKind};
use osl_value::Memory;
use osl_valuetext::Unread;
use std::alloc::{AllocError, AllocFailed};

/// What is wrong with a line, or that an allocation failed.
#[derive(Clone, Copy, Debug, PartialEq, Eq)]
pub(crate) enum LineFault {
    Memory,
    Kind(OsoKind),
}

impl LineFault {
    ghost use Rattle.oso_read.specs.Finds.{fault_of, error_at};

    /// The fault of a line whose words are misspelled.
    pub(crate) fn of(unread: Unread, kind: OsoKind) -> LineFault
        ensures { result ≡ fault_of unread kind }
    {
        match unread {
            Unread::Memory => LineFault::Memory,
            Unread::Misspelled => LineFault::Kind(kind),
        }
    }

    /// The fault with its line.
    pub(crate) fn at(self, line: u32) -> OsoError
        ensures { result ≡ error_at self line }
    {
        match self {
            LineFault::Memory => OsoError::Memory,
            LineFault::Kind(kind) => OsoError::Bad { kind, line },
        }
    }
}

impl From<Memory> for LineFault {
    ghost use Rattle.std.specs.Prelude.{◌≡◌};
    ghost use Rattle.oso_read.specs.declared.fault.LineFault.TheVariants as faults;

    ghost from_gives = { λ _ e. e ≡ faults.Memory };

    fn from(_error: Memory) -> LineFault {
        LineFault::Memory
    }
}

impl From<AllocError> for LineFault {
    ghost use Rattle.std.specs.Prelude.{◌≡◌};
    ghost use Rattle.oso_read.specs.declared.fault.LineFault.TheVariants.{Memory};

    ghost from_gives = { λ _ e. e ≡ Memory };

    fn from(_error: AllocError) -> LineFault {
        LineFault::Memory
    }
}

impl<T: Drop> From<AllocFailed<T>> for LineFault {
    ghost use Rattle.std.specs.Prelude.{◌≡◌};
    ghost use Rattle.oso_read.specs.declared.fault.LineFault.TheVariants.{Memory};

    ghost from_gives = { λ _ e. e ≡ Memory };

    fn from(_error: AllocFailed<T>) -> LineFault {
        LineFault::Memory
    }
}

impl From<Memory> for OsoError {
    ghost use Rattle.std.specs.Prelude.{◌≡◌};
    ghost use Rattle.oso_read.specs.declared.error.OsoError.TheVariants as errors;

    ghost from_gives = { λ _ e. e ≡ errors.Memory };

    fn from(_error: Memory) -> OsoError {
        OsoError::Memory
    }
}
