// The tree of an audit: every row answers for itself, and the leaves are counted. Nothing is kept from row to row but the count.
ghost use Rattle.std.specs.Prelude.{◌≡◌};
ghost use Rattle.rows.specs.Row.{row_at};
ghost use Rattle.calls.specs.Tree.{links_up, forks, row_count, added, counted, scan, root_sound, tree_of, tree_in};

use calls::tree::Count;
use rows::row::{Row, read_row};
use stations::common::rows_in;
use stations::counts::read_counts;
use words::layout::NONE;

// What an audit reads of the tree: the words with so many rows, and the root link.
#[derive(Clone, Copy)]
pub(crate) struct Rooted<'a> {
    pub(crate) words: &'a [u32],
    pub(crate) rows: u32,
    pub(crate) root: u32,
}

// Whether a row is a leaf or a cut with this parent link.
fn links_up(row: Row, parent: u32) -> bool
    ensures { result ≡ links_up parent row }
{
    match row {
        Row::Leaf { parent: over, .. } | Row::Cut { parent: over, .. } => over == parent,
        _ => false,
    }
}

// One row more. A count is a number with a flag beside it, as the definitions and what is proved of them speak of it (`scan`, `tree_in`).
#[tactic(auto, unfolding(calls::specs::Sum::plus))]
fn add(c: Count, row: Count) -> Count
    ensures { result ≡ added c row }
{
    Count {
        leaves: c.leaves.saturating_add(row.leaves),
        sound: row.sound,
    }
}

impl<'a> Rooted<'a> {
    // The row that a link names.
    pub(crate) fn row(self, r: u32) -> Row
        ensures { result ≡ row_at self.entry.words.now self.entry.rows r }
    {
        read_row(self.words, self.rows, r)
    }

    // Whether the two rows below a cut differ and link back to it.
    fn forks(self, r: u32, left: u32, right: u32) -> bool
        ensures { result ≡ forks self.entry.words.now self.entry.rows r left right }
    {
        (left != right) & (links_up(self.row(left), r) & links_up(self.row(right), r))
    }

    // The count of one row.
    fn row_count(self, r: u32) -> Count
        ensures { result ≡ row_count self.entry.words.now self.entry.rows self.entry.root r (row_at self.entry.words.now self.entry.rows r) }
    {
        match self.row(r) {
            Row::Bad => Count {
                leaves: 0,
                sound: false,
            },
            Row::Spare { .. } | Row::Removed { .. } => Count {
                leaves: 0,
                sound: true,
            },
            Row::Leaf { parent, point, .. } => Count {
                leaves: 1,
                sound: self.climbs(point, r, parent),
            },
            Row::Cut { left, right, .. } => Count {
                leaves: 0,
                sound: self.forks(r, left, right),
            },
        }
    }

    // After an unsound row none is looked at.
    fn count_row(self, r: u32, c: Count) -> Count
        ensures { result ≡ counted c (row_count self.entry.words.now self.entry.rows self.entry.root r (row_at self.entry.words.now self.entry.rows r)) }
    {
        if c.sound {
            add(c, self.row_count(r))
        } else {
            c
        }
    }

    // All the rows.
    #[tactic(auto, using(calls::proofs::TreeLaws::scan_first, calls::proofs::TreeLaws::scan_on))]
    fn scan(self) -> Count
        ensures { result ≡ scan self.entry.words.now self.entry.rows self.entry.root self.entry.rows }
    {
        let mut c = Count {
            leaves: 0,
            sound: true,
        };
        for r in 0..self.rows {
            c = self.count_row(r, c);
        }
        c
    }

    // Whether the root link is none, or that of a leaf or a cut without a parent.
    fn root_sound(self) -> bool
        ensures { result ≡ root_sound self.entry.root (row_at self.entry.words.now self.entry.rows self.entry.root) }
    {
        (self.root == NONE) | links_up(self.row(self.root), NONE)
    }
}

// All the rows counted, and the root.
fn tree_of(c: Count, sound: bool) -> Count
    ensures { result ≡ tree_of c sound }
{
    Count {
        sound: c.sound & sound,
        ..c
    }
}

// The tree that the root links to.
#[tactic(auto, unfolding(calls::specs::Tree::tree_in))]
pub(crate) fn tree(words: &[u32]) -> Count
    ensures { result ≡ tree_in words.now }
{
    let tree = Rooted {
        words,
        rows: rows_in(words),
        root: read_counts(words).root,
    };
    tree_of(tree.scan(), tree.root_sound())
}
