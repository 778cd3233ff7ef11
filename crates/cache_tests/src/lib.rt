//! Tests of the page cache: what it reads of the disk. A crate of its own, so that the cache is proved once, without them.
#![tactic(auto)]

#[cfg(test)]
mod changes;
#[cfg(test)]
mod faults;
#[cfg(test)]
mod files;
#[cfg(test)]
mod random;
#[cfg(test)]
mod reads;
