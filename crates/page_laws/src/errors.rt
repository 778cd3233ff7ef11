//! Why a call on pages didn't succeed.

use crate::Rule;
use spb_edge::Memory;
use thiserror::Error;

/// Why a page wasn't given.
#[derive(Clone, Copy, Debug, PartialEq, Eq, Drop, Error)]
pub enum PageError {
    /// What holds the pages failed, and counted it.
    #[error("page fault")]
    Fault,
    /// There is no memory for the page.
    #[error("out of memory")]
    Memory,
}

/// Why what the pages hold wasn't given.
#[derive(Clone, Copy, Debug, PartialEq, Eq, Drop, Error)]
pub enum TreeError {
    /// What holds the pages failed, and counted it.
    #[error("page fault")]
    Fault,
    /// A page breaks a rule of the file.
    #[error("damaged page {page} rule {}", .rule.name())]
    Damaged {
        /// The page.
        page: u32,
        /// The rule.
        rule: Rule,
    },
    /// There is no memory.
    #[error("out of memory")]
    Memory,
}

impl From<Memory> for PageError {
    ghost use Rattle.std.specs.Prelude.{◌≡◌};
    ghost use Rattle.page_laws.specs.declared.errors.PageError.TheVariants as page;

    ghost from_gives = { λ _ e. e ≡ page.Memory };

    fn from(_: Memory) -> PageError {
        PageError::Memory
    }
}

impl From<Memory> for TreeError {
    ghost use Rattle.std.specs.Prelude.{◌≡◌};
    ghost use Rattle.page_laws.specs.declared.errors.TreeError.TheVariants as tree;

    ghost from_gives = { λ _ e. e ≡ tree.Memory };

    fn from(_: Memory) -> TreeError {
        TreeError::Memory
    }
}

impl From<PageError> for TreeError {
    ghost use Rattle.std.specs.Prelude.{◌≡◌};
    ghost use Rattle.page_laws.specs.Errors.{tree_error};

    ghost from_gives = { λ why e. e ≡ tree_error why };

    fn from(why: PageError) -> TreeError {
        match why {
            PageError::Fault => TreeError::Fault,
            PageError::Memory => TreeError::Memory,
        }
    }
}
