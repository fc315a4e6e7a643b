// Events on the index and on the plain list at once, with what each gives compared: single ones, those of a text, random histories, every order of two parties.
#![tactic(auto)]

pub mod drive;
pub mod history;
pub mod orders;
pub mod scales;
pub mod script;
mod sheets;
pub mod stairs;
