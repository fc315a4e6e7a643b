// What each call does to the words: definitions alone, in `specs/`, with the structs that they speak of. There is no function here; the crates above have the code.
#![tactic(auto)]

pub mod aim;
pub mod climb;
pub mod insert;
pub mod progress;
pub mod queue;
pub mod reached;
pub mod tree;
pub mod turn;
pub mod unlink;
pub mod walk;
