//! The texts of numbers and of objects.
//!
//! A number is written in decimal, without a sign and without a leading zero. A vector is written as its components
//! with commas between them, a string as two lower-case hexadecimal digits for each byte, and a set as its elements
//! with commas between them, or `-` if it has none.
#![tactic(auto)]

mod laws;
mod numbers;
mod objects;
mod parts;
mod writing;

pub use laws::one_text;
pub use numbers::number;
pub use objects::{TextError, read_object};
pub use parts::cut;
pub use writing::write_object;
