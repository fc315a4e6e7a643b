// Searches that other stations try to hold up: where a search stands, and removals and adds that disturb it.
#![tactic(auto)]

pub mod contest;
pub mod disturb;
pub mod hindered;
pub mod stand;
