// The audit: the tree, the queue, and whether they are all the rows. It only looks.
#![tactic(auto)]

pub mod audit;
mod climb;
mod queue;
mod sum;
mod tree;
mod whole;
