//! A store in a file once it is open: what adds, removes and gives its objects.
#![tactic(auto)]

mod adding;
mod errors;
mod getting;
mod laws;
mod lists;
mod removing;
mod slot_change;
mod store;

pub use errors::{ChangeError, First};
pub use laws::stored_is_standing;
pub use store::Store;
