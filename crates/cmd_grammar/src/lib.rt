//! The command language: lines as commands, and replies as lines.
//!
//! A command's words are one space apart. They are tested in this order: the command's name and the number of words,
//! the collection, the id or the radius, the object. The first that fails is named.
#![tactic(auto)]

mod laws;
mod lines;
mod replies;

pub use laws::one_line;
pub use lines::{LineError, read_command};
pub use replies::write_reply;
pub use spb_defs::{Command, Reply, What};
