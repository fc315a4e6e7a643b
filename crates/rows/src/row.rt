// Rows: sixteen words each, read and written as values.
ghost use Rattle.std.specs.Prelude.{◌≡◌, ◌+◌, ◌≤◌, length, MatchOption};
ghost use Rattle.words.specs.Layout.{row_size};
ghost use Rattle.words.specs.Rule.{rule_at};
ghost use Rattle.rows.specs.declared.row.Row.TheVariants.{Bad};
ghost use Rattle.rows.specs.Row.{is_row, record_in, in_rows, checked_row, as_leaf, row_of, row_at, spare_words, record_words, cut_words, filled_row, put_row};

use points::cut::Cut;
use points::number::in_range_by;
use points::point::Point;
use points::word::{axis_word, cut_at, cut_in_range, sum_word, word};
use words::layout::{MOST_ROWS, ROW_SIZE, at_row};
use words::part::{point_from, write_part};
use words::rule::read_rule;
use words::word::{curve_in, link_in};

// The kinds of a row. Numbers and no enum: a word may hold any, `row_of` takes it for a kind and gives `Bad` for one that is none.
const SPARE_KIND: u32 = 0;

const REMOVED_KIND: u32 = 1;

pub(crate) const LEAF_KIND: u32 = 2;

pub(crate) const CUT_KIND: u32 = 3;

#[derive(Clone, Copy)]
pub enum Row {
    // No row, or one with a field out of range. No Option: `row_at`, and the definitions and laws above it, are by these five cases.
    Bad,
    // A free row: the next one, and the number of the removal that freed it.
    Spare {
        next: u32,
        freed: u32,
    },
    // A free row that keeps the removed record, with the number of the change that added it.
    Removed {
        next: u32,
        freed: u32,
        added: u32,
        point: Point,
        curve: u32,
    },
    // A record that is held.
    Leaf {
        parent: u32,
        added: u32,
        point: Point,
        curve: u32,
    },
    // A cut, and the rows on its two sides.
    Cut {
        parent: u32,
        cut: Cut,
        left: u32,
        right: u32,
    },
}

// Whether a record has a link, a point and a curve in range under the rule.
fn record_in(rule: u32, rows: u32, link: u32, point: Point, curve: u32) -> bool
    ensures { result ≡ record_in rule rows link point curve }
{
    link_in(rows, link) & in_range_by(rule, point) & curve_in(curve)
}

impl Row {
    // The row of sixteen words, by their kind.
    #[tactic(auto, unfolding(crate::specs::Row::row_of, crate::specs::Row::as_spare, crate::specs::Row::as_removed, crate::specs::Row::as_leaf, crate::specs::Row::as_cut))]
    fn from_words(part: &[u32; ROW_SIZE]) -> Row
        ensures { result ≡ row_of part.now }
    {
        match part[0] {
            SPARE_KIND => Row::Spare {
                next: part[1],
                freed: part[2],
            },
            REMOVED_KIND => Row::Removed {
                next: part[1],
                freed: part[2],
                added: part[3],
                point: point_from(part, 4),
                curve: part[9],
            },
            LEAF_KIND => as_leaf(part),
            CUT_KIND => Row::Cut {
                parent: part[1],
                cut: cut_at(part[4], part[5]),
                left: part[6],
                right: part[7],
            },
            _ => Row::Bad,
        }
    }

    // Whether it is one.
    fn is_row(self) -> bool
        ensures { result ≡ is_row self }
    {
        !matches!(self, Row::Bad)
    }

    // Whether every field is in range under a rule, for an index of so many rows.
    #[tactic(auto, unfolding(crate::specs::Row::in_rows))]
    fn in_rows(self, rule: u32, rows: u32) -> bool
        ensures { result ≡ in_rows rule rows self }
    {
        match self {
            Row::Bad => false,
            Row::Spare { next, .. } => link_in(rows, next),
            Row::Removed {
                next: link,
                point,
                curve,
                ..
            }
            | Row::Leaf {
                parent: link,
                point,
                curve,
                ..
            } => record_in(rule, rows, link, point, curve),
            Row::Cut {
                parent,
                cut,
                left,
                right,
            } => link_in(rows, parent) & cut_in_range(rule, cut) & (left < rows) & (right < rows),
        }
    }

    // The row where it is in range, else `Bad`.
    #[tactic(auto, unfolding(crate::specs::Row::checked_row))]
    fn checked(self, rule: u32, rows: u32) -> Row
        ensures { result ≡ checked_row rule rows self }
    {
        if self.in_rows(rule, rows) {
            self
        } else {
            Row::Bad
        }
    }
}

// Sixteen words as a leaf.
#[tactic(auto, unfolding(crate::specs::Row::as_leaf))]
pub(crate) fn as_leaf(part: &[u32; ROW_SIZE]) -> Row
    ensures { result ≡ as_leaf part.now }
{
    Row::Leaf {
        parent: part[1],
        added: part[3],
        point: point_from(part, 4),
        curve: part[9],
    }
}

// The words of the row r of an index of so many rows, where there is one.
#[tactic(auto, unfolding(crate::specs::Row::row_at, words::specs::Layout::at_row))]
pub(crate) fn row_words(words: &[u32], rows: u32, r: u32) -> Option<&[u32; ROW_SIZE]>
    ensures { MatchOption result (row_at words.now rows r ≡ Bad) (λ part. row_at words.now rows r ≡ checked_row (rule_at words.now) rows (row_of part.now)) }
{
    if r < rows {
        let start = at_row(r);
        words.get(start..start + ROW_SIZE)?.as_array()
    } else {
        None
    }
}

// The row r of an index of so many rows; `Bad` where there is none or a field is out of range.
pub fn read_row(words: &[u32], rows: u32, r: u32) -> Row
    ensures { result ≡ row_at words.now rows r }
{
    match row_words(words, rows, r) {
        Some(part) => Row::from_words(part).checked(read_rule(words), rows),
        None => Row::Bad,
    }
}

// The sixteen words of a spare row.
#[tactic(auto, unfolding(crate::specs::Row::spare_words))]
fn spare_words(next: u32, freed: u32) -> [u32; 16]
    ensures { result ≡ spare_words next freed }
{
    [
        SPARE_KIND, next, freed, 0, 0, 0, 0, 0, 0, 0, 0, 0, 0, 0, 0, 0,
    ]
}

// The sixteen words of a record, held or removed. Its fields stand one by one, since `Row` has them so in two variants, one with `next` and one with `parent`.
#[tactic(auto, unfolding(crate::specs::Row::record_words, words::specs::Part::point_words))]
fn record_words(kind: u32, link: u32, freed: u32, added: u32, point: Point, curve: u32) -> [u32; 16]
    ensures { result ≡ record_words kind link freed added point curve }
{
    [
        kind,
        link,
        freed,
        added,
        word(point, 1),
        word(point, 2),
        word(point, 3),
        word(point, 4),
        word(point, 5),
        curve,
        0,
        0,
        0,
        0,
        0,
        0,
    ]
}

// The first eight words of a cut; its grades follow.
#[tactic(auto, unfolding(crate::specs::Row::cut_words))]
fn cut_words(parent: u32, cut: Cut, left: u32, right: u32) -> [u32; 8]
    ensures { result ≡ cut_words parent cut left right }
{
    [
        CUT_KIND,
        parent,
        0,
        0,
        axis_word(cut),
        sum_word(cut),
        left,
        right,
    ]
}

// Writes a row from one offset on. The grades of a cut stay.
#[tactic(auto, using(words::proofs::Lent::part_fits), unfolding(crate::specs::Row::filled_row, crate::specs::Row::encode_row, crate::specs::Row::spare_words, crate::specs::Row::record_words, crate::specs::Row::cut_words, words::specs::Part::point_words))]
fn fill_row(words: &mut [u32], at: usize, row: Row)
    requires { at + row_size ≤ length words.old }
    ensures { words.new ≡ filled_row words.old at row }
{
    match row {
        Row::Bad => {}
        Row::Spare { next, freed } => {
            let from = spare_words(next, freed);
            write_part(words, at, &from);
        }
        Row::Removed {
            next,
            freed,
            added,
            point,
            curve,
        } => {
            let from = record_words(REMOVED_KIND, next, freed, added, point, curve);
            write_part(words, at, &from);
        }
        Row::Leaf {
            parent,
            added,
            point,
            curve,
        } => {
            let from = record_words(LEAF_KIND, parent, 0, added, point, curve);
            write_part(words, at, &from);
        }
        Row::Cut {
            parent,
            cut,
            left,
            right,
        } => {
            let from = cut_words(parent, cut, left, right);
            write_part(words, at, &from);
        }
    }
}

// Writes the row r; nothing where there is none, and nothing for `Bad`. The grades of a cut stay.
#[tactic(auto, unfolding(crate::specs::Row::put_row, words::specs::Layout::at_row))]
pub fn write_row(words: &mut [u32], r: u32, row: Row)
    ensures { words.new ≡ put_row words.old r row }
{
    if row.is_row() & (r < MOST_ROWS) {
        let at = at_row(r);
        if at + ROW_SIZE <= words.len() {
            fill_row(words, at, row);
        }
    }
}
