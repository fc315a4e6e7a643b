// An unlinking: the move of a remove that removes a record.
#![tactic(auto)]

pub mod unlink;
