// Frames: calls as bytes, read and written.
#![tactic(auto)]

pub mod frame;
pub mod read;
pub mod refusal;
mod shape;
pub mod write;
