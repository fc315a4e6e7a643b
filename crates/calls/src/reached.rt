// Where a move of a search leads.
use crate::progress::Progress;

// Where a search stands, with the parent link of that row on its way up, none on its way down, and the square of the best so far.
#[derive(Clone, Copy)]
pub struct Reached {
    pub above: u32,
    pub square: u64,
    pub progress: Progress,
}
