// The way of one step of a walk.

// Six rows on the way down, and the row after them.
#[derive(Clone, Copy)]
pub struct Way {
    pub at: u32,
    pub one: u32,
    pub two: u32,
    pub three: u32,
    pub four: u32,
    pub five: u32,
    pub to: u32,
}
