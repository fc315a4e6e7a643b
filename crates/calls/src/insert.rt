// What an insert reads before it writes.
use rows::row::Row;

// The rule, by which a new cut is chosen; the first two free rows, the leaf where the walk ended, and the row above it, each with its number.
#[derive(Clone, Copy)]
pub struct Site {
    pub rule: u32,
    pub first: u32,
    pub front: Row,
    pub second: u32,
    pub behind: Row,
    pub at: u32,
    pub leaf: Row,
    pub over: u32,
    pub cut: Row,
}
