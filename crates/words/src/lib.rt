// Where each word of the slice stands, single words, parts of a slice, and what it means that slices agree. Only this crate, `stations` and `rows` know the offsets.
#![tactic(auto)]

pub mod layout;
pub mod part;
pub mod refusal;
pub mod rule;
pub mod word;
