//! Tests of pages, slots and profiles, and of new stores' files. A crate of its own, so that what it tests is proved once, without them.
#![tactic(auto)]

#[cfg(test)]
mod free_numbers;
#[cfg(test)]
mod new_files;
#[cfg(test)]
mod pages;
#[cfg(test)]
mod profiles;
#[cfg(test)]
mod slots;
