//! Why a store didn't open.

use page_laws::Rule;
use redo_journal::DiskFault;
use spb_edge::Memory;
use thiserror::Error;

/// Why a store's file didn't open.
#[derive(Clone, Copy, Debug, PartialEq, Eq, Drop, Error)]
pub enum OpenError {
    /// The file is no store, or one of another format.
    #[error("not a store")]
    NotStore,
    /// A page breaks a rule of the file.
    #[error("damaged page {page} rule {}", .rule.name())]
    Damaged {
        /// The page.
        page: u32,
        /// The rule.
        rule: Rule,
    },
    /// The disk failed, and counted it.
    #[error("disk fault")]
    DiskFault,
    /// There is no memory.
    #[error("out of memory")]
    Memory,
}

impl From<DiskFault> for OpenError {
    ghost use Rattle.std.specs.Prelude.{◌≡◌};
    ghost use Rattle.store_core.specs.declared.errors.OpenError.TheVariants as refusal;

    ghost from_gives = { λ _ e. e ≡ refusal.DiskFault };

    fn from(_: DiskFault) -> OpenError {
        OpenError::DiskFault
    }
}

impl From<Memory> for OpenError {
    ghost use Rattle.std.specs.Prelude.{◌≡◌};
    ghost use Rattle.store_core.specs.declared.errors.OpenError.TheVariants as refusal;

    ghost from_gives = { λ _ e. e ≡ refusal.Memory };

    fn from(_: Memory) -> OpenError {
        OpenError::Memory
    }
}
