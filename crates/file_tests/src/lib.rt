//! Tests of the programs over files: stores in memory disks that are made, opened, changed, damaged and stopped; and of a
//! session after the fault that ended it. A crate of its own, so that the top call is proved once, without them.
#![tactic(auto)]

#[cfg(test)]
mod additions;
#[cfg(test)]
mod endings;
#[cfg(test)]
mod images;
#[cfg(test)]
mod openings;
#[cfg(test)]
mod plays;
#[cfg(test)]
mod recoveries;
#[cfg(test)]
mod refusals;
#[cfg(test)]
mod rows;
#[cfg(test)]
mod trials;
