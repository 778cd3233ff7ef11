//! Laws of the definitions: an answer is the same for rows in any order, and a table of rows for each collection holds
//! the members of a state.
#![tactic(auto)]
