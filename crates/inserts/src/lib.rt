// An insertion: the move of an add that adds a record.
#![tactic(auto)]

pub mod insert;
