// What the programs that try the index share: slices of words that are read and written anywhere, the seed of a text, and a fixed generator of numbers.
#![tactic(auto)]

pub mod bytes;
pub mod cells;
pub mod random;
