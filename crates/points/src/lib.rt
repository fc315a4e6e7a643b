// Points of five coordinates: their ranges, order, the two rules of distance, square by factors and cuts, the choice between two records, and points as
// words.
#![tactic(auto)]

pub mod choice;
pub mod cut;
pub mod number;
pub mod order;
pub mod pick;
pub mod point;
pub mod rule;
pub mod scale;
mod signed;
pub mod square;
pub mod word;
