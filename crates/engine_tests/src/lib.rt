//! Tests of pivots, of rows and of the engines over them. A crate of its own, so that what it tests is proved once, without them.
#![tactic(auto)]

#[cfg(test)]
mod bounds;
#[cfg(test)]
mod choices;
#[cfg(test)]
mod nearest;
#[cfg(test)]
mod ranges;
#[cfg(test)]
mod row_lists;
#[cfg(test)]
mod tables;
