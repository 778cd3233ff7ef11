//! That the trees and slots of a store break no rule, as a law.
#![tactic(auto)]

mod laws;

pub use laws::held_trees_break_no_rule;
