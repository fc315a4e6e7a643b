// The moves of an add, a remove and a contains: walks down, and what is done where they end.
#![tactic(auto)]

pub mod walk;
