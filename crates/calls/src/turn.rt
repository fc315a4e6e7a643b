// Whose turn it is.
use stations::call::Call;

// The unfinished call of a station that makes a step, in an index of so many rows.
#[derive(Clone, Copy)]
pub struct Turn {
    pub rows: u32,
    pub s: u32,
    pub call: Call,
}
