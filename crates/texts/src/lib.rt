// The text that the frame runner prints: the header, and the line of each frame.
#![tactic(auto)]

mod decimal;
pub mod line;
pub mod output;
pub mod text;
