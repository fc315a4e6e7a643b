// What an unlink reads before it writes.
use rows::row::Row;

// The last row of the queue, the leaf, the cut over it, the cut's other child, and the row above that cut, each with its number.
#[derive(Clone, Copy)]
pub struct Around {
    pub tail: u32,
    pub last: Row,
    pub at: u32,
    pub leaf: Row,
    pub over: u32,
    pub cut: Row,
    pub side: u32,
    pub other: Row,
    pub above: u32,
    pub grand: Row,
}
