// The plain side of `cases`: a list of records with a call at each station, the bounds that steps are held to, the checks counted, and the texts of cases.
#![tactic(auto)]

pub mod book;
pub mod given;
mod list;
mod opening;
mod own;
pub mod parts;
pub mod point;
pub mod reference;
mod removals;
pub mod scale;
mod seeds;
mod square;
mod stretch;
pub mod table;
pub mod text;
mod verdict;
