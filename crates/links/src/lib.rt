// What a row links to, rows with other links, and the answer that is written at a station: what walks and searches share.
#![tactic(auto)]

pub mod answer;
pub mod link;
pub mod relink;
