// What an audit knows of the queue on its way through it.

// The queue, walked from its head up to the row `at`: the row before it, the rows passed, the number of the last awaited removal passed, and
// whether the row before it was that removal's leaf. A flag, since `broken` keeps the rest and the laws of the audit speak of it.
#[derive(Clone, Copy)]
pub struct Queued {
    pub sound: bool,
    pub at: u32,
    pub last: u32,
    pub rows: u32,
    pub number: u32,
    pub half: bool,
}
