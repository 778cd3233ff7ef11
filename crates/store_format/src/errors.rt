//! Why a store wasn't made.

use redo_journal::{DiskFault, GrowError};
use spb_edge::Memory;
use thiserror::Error;

/// Why a store wasn't made.
#[derive(Clone, Copy, Debug, PartialEq, Eq, Drop, Error)]
pub enum FormatError {
    /// The disk's size isn't 0.
    #[error("not empty")]
    NotEmpty,
    /// The disk failed, and counted it.
    #[error("disk fault")]
    DiskFault,
    /// There is no memory, for the pages that are written or for the disk's growth.
    #[error("out of memory")]
    Memory,
}

impl From<DiskFault> for FormatError {
    ghost use Rattle.std.specs.Prelude.{◌≡◌};
    ghost use Rattle.store_format.specs.declared.errors.FormatError.TheVariants as format;

    ghost from_gives = { λ _ e. e ≡ format.DiskFault };

    fn from(_: DiskFault) -> FormatError {
        FormatError::DiskFault
    }
}

impl From<GrowError> for FormatError {
    ghost use Rattle.store_format.specs.Errors.{IsSameError};

    ghost from_gives = { IsSameError };

    fn from(error: GrowError) -> FormatError {
        match error {
            GrowError::DiskFault => FormatError::DiskFault,
            GrowError::Memory => FormatError::Memory,
        }
    }
}

impl From<Memory> for FormatError {
    ghost use Rattle.std.specs.Prelude.{◌≡◌};
    ghost use Rattle.store_format.specs.declared.errors.FormatError.TheVariants as format;

    ghost from_gives = { λ _ e. e ≡ format.Memory };

    fn from(_: Memory) -> FormatError {
        FormatError::Memory
    }
}
