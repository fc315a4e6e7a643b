// The moves of a nearest: looks and tours.
#![tactic(auto)]

mod look;
mod progress;
mod reached;
pub mod search;
mod tour;
