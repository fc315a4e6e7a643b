// Calls on the index alone, from the items of a text: each gives the number that its item says, and a refused one leaves every word.
#![tactic(auto)]

pub mod ends;
mod framed;
mod opened;
pub mod raw;
