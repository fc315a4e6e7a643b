// Steps and withdrawals, each in a module of its own; `turn` is what they share.
#![tactic(auto)]

pub mod step;
mod turn;
pub mod withdraw;
