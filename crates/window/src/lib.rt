// Moisture over the last scans: a window of readings, and the figures of those present.
#![tactic(auto)]

pub mod begin;
pub mod figures;
pub mod lent;
pub mod refusal;
mod sound;
pub mod steady;
pub mod update;
pub mod window;
