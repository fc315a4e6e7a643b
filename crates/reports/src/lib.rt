// The report, which reads the common record.
#![tactic(auto)]

pub mod report;
