//! Why a call on a store didn't succeed.

use page_laws::{PageError, Rule, TreeError};
use redo_journal::DiskFault;
use spb_edge::Memory;
use thiserror::Error;

/// The error after which a store is spent: the file is to be opened again.
#[derive(Clone, Copy, Debug, PartialEq, Eq, Drop, Error)]
pub enum First {
    /// The disk failed, and counted it.
    #[error("disk fault")]
    DiskFault,
    /// A page breaks a rule of the file.
    #[error("damaged page {page} rule {}", .rule.name())]
    Damaged {
        /// The page.
        page: u32,
        /// The rule.
        rule: Rule,
    },
    /// Memory ran out.
    #[error("out of memory")]
    Memory,
}

/// Why an object wasn't added, removed or given.
#[derive(Clone, Copy, Debug, PartialEq, Eq, Drop, Error)]
pub enum ChangeError {
    /// The collection has an object under the id.
    #[error("id exists")]
    Exists,
    /// The collection has no object under the id.
    #[error("id absent")]
    Absent,
    /// The store has as many objects as it may have.
    #[error("store full")]
    Full,
    /// The disk failed, and counted it.
    #[error("disk fault")]
    DiskFault,
    /// A page breaks a rule of the file.
    #[error("damaged page {page} rule {}", .rule.name())]
    Damaged {
        /// The page.
        page: u32,
        /// The rule.
        rule: Rule,
    },
    /// Memory ran out.
    #[error("out of memory")]
    Memory,
    /// An earlier call failed.
    #[error("spent by an earlier error")]
    Spent {
        /// How it failed.
        first: First,
    },
}

impl From<Memory> for First {
    ghost use Rattle.std.specs.Prelude.{◌≡◌};
    ghost use Rattle.open_store.specs.declared.errors.First.TheVariants as first;

    ghost from_gives = { λ _ e. e ≡ first.Memory };

    fn from(_: Memory) -> First {
        First::Memory
    }
}

impl From<DiskFault> for First {
    ghost use Rattle.std.specs.Prelude.{◌≡◌};
    ghost use Rattle.open_store.specs.declared.errors.First.TheVariants as first;

    ghost from_gives = { λ _ e. e ≡ first.DiskFault };

    fn from(_: DiskFault) -> First {
        First::DiskFault
    }
}

impl From<PageError> for First {
    ghost use Rattle.std.specs.Prelude.{◌≡◌};
    ghost use Rattle.open_store.specs.Errors.{page_first};

    ghost from_gives = { λ why e. e ≡ page_first why };

    fn from(why: PageError) -> First {
        match why {
            PageError::Fault => First::DiskFault,
            PageError::Memory => First::Memory,
        }
    }
}

impl From<TreeError> for First {
    ghost use Rattle.std.specs.Prelude.{◌≡◌};
    ghost use Rattle.open_store.specs.Errors.{tree_first};

    ghost from_gives = { λ why e. e ≡ tree_first why };

    fn from(why: TreeError) -> First {
        match why {
            TreeError::Fault => First::DiskFault,
            TreeError::Damaged { page, rule } => First::Damaged { page, rule },
            TreeError::Memory => First::Memory,
        }
    }
}

impl From<First> for ChangeError {
    ghost use Rattle.std.specs.Prelude.{◌≡◌};
    ghost use Rattle.open_store.specs.Errors.{change_error};

    ghost from_gives = { λ first e. e ≡ change_error first };

    fn from(first: First) -> ChangeError {
        match first {
            First::DiskFault => ChangeError::DiskFault,
            First::Damaged { page, rule } => ChangeError::Damaged { page, rule },
            First::Memory => ChangeError::Memory,
        }
    }
}
