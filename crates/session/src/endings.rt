//! How sessions end.

use open_store::First;
use page_laws::Rule;
use thiserror::Error;

/// Why a session gives no reply.
#[derive(Clone, Copy, Debug, PartialEq, Eq, Drop, Error)]
pub enum Ending {
    /// The disk failed, and counted it.
    #[error("disk fault")]
    DiskFault,
    /// A page breaks a rule of the file.
    #[error("damaged page {page} rule {}", .rule.name())]
    Damaged {
        /// The page.
        page: u32,
        /// The rule.
        rule: Rule,
    },
    /// Memory ran out.
    #[error("out of memory")]
    NoMemory,
    /// The session ended before.
    #[error("the session has ended")]
    Spent {
        /// How it ended.
        first: First,
    },
}

impl From<First> for Ending {
    ghost use Rattle.std.specs.Prelude.{◌≡◌};
    ghost use Rattle.session.specs.Endings.{ending_of};

    ghost from_gives = { λ first e. e ≡ ending_of first };

    fn from(first: First) -> Ending {
        match first {
            First::DiskFault => Ending::DiskFault,
            First::Damaged { page, rule } => Ending::Damaged { page, rule },
            First::Memory => Ending::NoMemory,
        }
    }
}
