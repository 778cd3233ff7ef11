//! Tests of the journal: the order of its calls, and what faults and crashes leave of a change. A crate of
//! its own, so that the journal is proved once, without them.
#![tactic(auto)]

#[cfg(test)]
mod calls;
#[cfg(test)]
mod commits;
#[cfg(test)]
mod faults;
#[cfg(test)]
mod files;
#[cfg(test)]
mod growth;
#[cfg(test)]
mod headers;
#[cfg(test)]
mod staging;
#[cfg(test)]
mod stops;
#[cfg(test)]
mod words;
