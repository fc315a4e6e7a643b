// A run: steps of one station, until it is answered.
#![tactic(auto)]

pub mod run;
