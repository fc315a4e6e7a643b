// How far a search has come.
use stations::call::Best;

// What an unfinished nearest call keeps of its work: where the search stands, its phase (0 down, 1 up), the first row that it missed, and the
// best record so far. It is not sound once a row was not what it must be; a flag, since `strayed` keeps the rest and laws of a search's rows speak of it.
#[derive(Clone, Copy)]
pub struct Progress {
    pub cursor: u32,
    pub phase: u32,
    pub missed: u32,
    pub best: Best,
    pub sound: bool,
}
