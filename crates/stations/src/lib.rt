// The common record and the stations' records, read, checked and written. Words and station stay two arguments: C gives a call both, each step writes
// other stations' records and rows through the same words, and a struct that borrows them would be made anew around each of these functions.
#![tactic(auto)]

pub mod answer;
pub mod call;
pub mod common;
pub mod counter;
pub mod counts;
pub mod scale;
pub mod station;
pub mod target;
pub mod track;
