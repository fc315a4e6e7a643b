// The reader of frames, a struct that holds the lent bytes and its position.
#![tactic(auto)]

pub mod reader;
