// Submission, which touches two records and no row.
#![tactic(auto)]

pub mod submit;
