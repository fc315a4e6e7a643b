// What a climb of an audit comes to, row by row.

// A flag, since `over_row` and the laws of a climb row by row speak of it. A climb: the row that it has come to, that row's parent link, and whether every cut so far sent the point to the row below.
#[derive(Clone, Copy)]
pub struct Climb {
    pub from: u32,
    pub up: u32,
    pub sound: bool,
}
