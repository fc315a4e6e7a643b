// What an audit counts of the tree.

// The leaves among the rows looked at, and whether all of these are sound; a flag, since `scan` and its laws speak of both.
#[derive(Clone, Copy)]
pub struct Count {
    pub leaves: u32,
    pub sound: bool,
}
