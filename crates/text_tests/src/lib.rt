//! Tests of the texts: objects, commands, replies, samples and trials. A crate of its own, so that what it tests is proved once, without them.
#![tactic(auto)]

#[cfg(test)]
mod commands;
#[cfg(test)]
mod objects;
#[cfg(test)]
mod samples;
#[cfg(test)]
mod trials;
