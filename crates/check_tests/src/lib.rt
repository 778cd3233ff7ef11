//! Tests of the check of a tree, and of neighbours that are mended. A crate of its own, so that what it
//! tests is proved once, without them.
#![tactic(auto)]

#[cfg(test)]
mod checking;
#[cfg(test)]
mod damage;
#[cfg(test)]
mod growing;
#[cfg(test)]
mod mending;
#[cfg(test)]
mod trees;
