//! The lists that answers are made of, and their order.
#![tactic(auto)]

mod lists;

pub use lists::{Pairs, Ranks, arrange, arrange_ids};
pub use spb_edge::Ids;
