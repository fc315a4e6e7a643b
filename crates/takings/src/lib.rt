// Taking, which empties a station's record and touches no row.
#![tactic(auto)]

pub mod take;
