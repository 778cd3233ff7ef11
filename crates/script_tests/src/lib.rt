//! Tests of the top call: scripts, what they are answered, and what a plain program answers. A crate of its
//! own, so that the top call is proved once, without them.
#![tactic(auto)]

#[cfg(test)]
mod draws;
#[cfg(test)]
mod faults;
#[cfg(test)]
mod limits;
#[cfg(test)]
mod mixed;
#[cfg(test)]
mod order;
#[cfg(test)]
mod plays;
#[cfg(test)]
mod rows;
#[cfg(test)]
mod statuses;
