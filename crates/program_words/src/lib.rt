//! The words of the program: what they ask for, and the file that they name.
//!
//! `clap` reads them, one subcommand for each kind of work; what it finds is read as spaces and numbers here.
#![tactic(auto)]

mod command_line;
mod matched;
mod words;

pub use words::{file_of, read_words};
