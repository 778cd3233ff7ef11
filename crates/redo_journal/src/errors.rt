//! Why a call of the journal didn't succeed.

use thiserror::Error;

/// The disk failed, and counted it.
#[derive(Clone, Copy, Debug, PartialEq, Eq, Drop, Error)]
#[error("disk fault")]
pub struct DiskFault;

/// A field of the journal's header.
#[derive(Clone, Copy, Debug, PartialEq, Eq, Drop)]
pub enum Field {
    /// The number of images.
    Count(u32),
    /// The number of the page that the image at this place, from 0, replaces.
    Page {
        /// Which image.
        place: u32,
        /// The page's number.
        number: u32,
    },
}

/// Why a recovery ended early.
#[derive(Clone, Copy, Debug, PartialEq, Eq, Drop, Error)]
pub enum RecoverError {
    /// The disk failed, and counted it.
    #[error("disk fault")]
    DiskFault,
    /// The gate is open over a header whose field, the first such one, is out of its range.
    #[error("bad journal header")]
    BadHeader(Field),
}

/// Why bytes weren't written to a disk that may grow.
#[derive(Clone, Copy, Debug, PartialEq, Eq, Drop, Error)]
pub enum GrowError {
    /// The disk failed, and counted it.
    #[error("disk fault")]
    DiskFault,
    /// There is no memory for the growth.
    #[error("out of memory")]
    Memory,
}

/// Why a page wasn't staged.
#[derive(Clone, Copy, Debug, PartialEq, Eq, Drop, Error)]
pub enum StageError {
    /// As many other pages are staged as a change may have.
    #[error("too many pages in a change")]
    TooMany,
}

impl From<DiskFault> for RecoverError {
    ghost use Rattle.std.specs.Prelude.{◌≡◌};
    ghost use Rattle.redo_journal.specs.declared.errors.RecoverError.TheVariants as recover;

    ghost from_gives = { λ _ e. e ≡ recover.DiskFault };

    fn from(_: DiskFault) -> RecoverError {
        RecoverError::DiskFault
    }
}

impl From<DiskFault> for GrowError {
    ghost use Rattle.std.specs.Prelude.{◌≡◌};
    ghost use Rattle.redo_journal.specs.declared.errors.GrowError.TheVariants as grow;

    ghost from_gives = { λ _ e. e ≡ grow.DiskFault };

    fn from(_: DiskFault) -> GrowError {
        GrowError::DiskFault
    }
}
