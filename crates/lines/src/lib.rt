// Lines: a frame applied to the words of an index, and the line that the frame runner prints for it.
#![tactic(auto)]

pub mod apply;
pub mod line;
