//! A file of the system as a disk.
//!
//! Nothing is known of the bytes of the file. The disk keeps the file's length, and counts each call that fails.
#![tactic(auto)]

mod disk;
mod opening;

pub use disk::FileDisk;
