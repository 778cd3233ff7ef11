//! Pages over a journal: a change of some of them happens whole or not at all, or is abandoned.
#![tactic(auto)]

mod change;
mod store;

pub use store::{PageStore, abandon_goes_back, calm_keeps_pages};
