//! Tests of the edge, of lists of answers and of the built-in metrics. A crate of its own, so that what it tests is proved once, without them.
#![tactic(auto)]

#[cfg(test)]
mod edge;
#[cfg(test)]
mod lists;
#[cfg(test)]
mod metrics;
