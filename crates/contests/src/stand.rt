// Where a search stands in the tree, read from the words of the index: a station that would hold it up looks there first.
use plain_list::book::Book;
use plain_list::point::PlainPoint;
use rows::row::{Row, read_row};
use stations::counts::read_counts;
use stations::track::{UP, read_track};
use words::layout::{MOST_ROWS, NONE};

// The words of an index of so many rows, to be looked at.
#[derive(Clone, Copy)]
pub struct Sight<'a> {
    words: &'a [u32],
    pub rows: u32,
}

impl<'a> Sight<'a> {
    // The words of the index under way, which has two rows for each place.
    pub fn of(words: &'a [u32], book: &Book) -> Sight<'a> {
        Sight {
            words,
            rows: book.table.places.saturating_mul(2).min(MOST_ROWS),
        }
    }

    // The root.
    pub fn root(self) -> u32 {
        read_counts(self.words).root
    }

    // The cursor of a station; none where there is no such station.
    pub fn cursor(self, s: u32) -> u32 {
        read_track(self.words, s).cursor
    }

    // Whether the search of a station is on its way up.
    fn goes_up(self, s: u32) -> bool {
        read_track(self.words, s).phase == UP
    }

    // The parent of a row of the tree, none for any other row.
    fn parent(self, r: u32) -> u32 {
        match read_row(self.words, self.rows, r) {
            Row::Leaf { parent, .. } | Row::Cut { parent, .. } => parent,
            _ => NONE,
        }
    }

    // The children of a cut; any other row itself on either side.
    pub fn children(self, r: u32) -> (u32, u32) {
        match read_row(self.words, self.rows, r) {
            Row::Cut { left, right, .. } => (left, right),
            _ => (r, r),
        }
    }

    // The sibling of a row; the row itself where it has no parent.
    pub fn sibling(self, r: u32) -> u32 {
        let over = self.parent(r);
        let (left, right) = self.children(over);
        if left == r {
            right
        } else if over == NONE {
            r
        } else {
            left
        }
    }

    // The record of a row that is a leaf.
    pub fn record(self, r: u32) -> Option<PlainPoint> {
        match read_row(self.words, self.rows, r) {
            Row::Leaf { point, .. } => Some(PlainPoint::from(point)),
            _ => None,
        }
    }

    // Whether a row has at most three cuts above it.
    fn is_high(self, r: u32) -> bool {
        let third = (0..3).fold(r, |row, _| self.parent(row));
        self.parent(third) == NONE
    }

    // The record on whose leaf a search stands, where that leaf has at most three cuts above it.
    pub fn high_leaf(self, s: u32) -> Option<PlainPoint> {
        let r = self.cursor(s);
        if self.is_high(r) {
            self.record(r)
        } else {
            None
        }
    }

    // Whether a search has gone around nearly all of the tree: it is on its way up, with few cuts left above it, or past the root.
    pub fn is_late(self, s: u32) -> bool {
        let r = self.cursor(s);
        r == NONE || (self.goes_up(s) && self.is_high(r))
    }
}
