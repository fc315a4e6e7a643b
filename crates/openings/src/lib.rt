// Opening a slice.
#![tactic(auto)]

pub mod open;
