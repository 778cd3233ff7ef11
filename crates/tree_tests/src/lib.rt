//! Tests of the B+-trees on pages. A crate of its own, so that what it tests is proved once, without them.
#![tactic(auto)]

#[cfg(test)]
mod boxes;
#[cfg(test)]
mod insertions;
#[cfg(test)]
mod nodes;
#[cfg(test)]
mod shelves;
#[cfg(test)]
mod walks;
