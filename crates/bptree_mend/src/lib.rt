//! Two neighbours in a B+-tree on pages, of which one has too few rows: joined, or evened.
#![tactic(auto)]

mod inners;
mod leaves;
mod mended;

pub use inners::mend_inners;
pub use leaves::mend_leaves;
pub use mended::Mended;
