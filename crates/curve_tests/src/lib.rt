//! Tests of the curves. A crate of its own, so that what it tests is proved once, without them.
#![tactic(auto)]

#[cfg(test)]
mod grids;
#[cfg(test)]
mod hilbert;
#[cfg(test)]
mod z_order;
