// Rows of the tree, leaves and cuts, as a search reads them: cuts first, which it reads most, and each field tested as a word.
ghost use Rattle.std.specs.Prelude.{◌≡◌, ◌+◌, ◌≤◌};
ghost use Rattle.points.specs.Word.{cut_at, sum_span_of};
ghost use Rattle.rows.specs.Row.{in_rows, checked_row, as_leaf, as_cut, row_of, row_at};
ghost use Rattle.rows.specs.Tree.{tree_row, at_child, child_at};

use crate::row::{CUT_KIND, LEAF_KIND, Row, as_leaf, row_words};
use points::cut::Cut;
use points::word::{cut_words_in_range, point_words_in_range, sum_low_at};
use words::layout::{ROW_SIZE, at_row};
use words::rule::read_rule;
use words::word::{curve_in, get, link_in};

// Whether sixteen words are a cut in range under a rule, by the words alone.
#[tactic(auto, unfolding(crate::specs::Row::in_rows, crate::specs::Row::as_cut))]
fn cut_sound(part: &[u32; ROW_SIZE], rule: u32, rows: u32) -> bool
    ensures { result ≡ in_rows rule rows (as_cut part.now) }
{
    link_in(rows, part[1])
        & cut_words_in_range(rule, part[4], part[5])
        & (part[6] < rows)
        & (part[7] < rows)
}

// The same for a leaf.
#[tactic(auto, unfolding(crate::specs::Row::in_rows, crate::specs::Row::as_leaf, words::specs::Part::point_from))]
fn leaf_sound(part: &[u32; ROW_SIZE], rule: u32, rows: u32) -> bool
    ensures { result ≡ in_rows rule rows (as_leaf part.now) }
{
    link_in(rows, part[1])
        & point_words_in_range(rule, part[4], part[5], part[6], part[7], part[8])
        & curve_in(part[9])
}

// The cut of two words that are in range under some rule. It asks for that, since `points::word::cut_at` would test the axis again at every cut that is read.
fn sound_cut(axis: u32, sum: u32) -> Cut
    requires { (axis ≤ 8) × (sum ≤ sum_span_of (axis + 1)) }
    ensures { result ≡ cut_at axis sum }
{
    Cut {
        axis: axis + 1,
        sum: sum_low_at(axis) + sum as i32,
    }
}

// Sixteen words as a cut in range, else `Bad`.
#[tactic(auto, using(crate::proofs::TreeLaws::cut_tells), unfolding(crate::specs::Row::checked_row, crate::specs::Row::as_cut))]
fn tree_cut(part: &[u32; ROW_SIZE], rule: u32, rows: u32) -> Row
    ensures { result ≡ checked_row rule rows (as_cut part.now) }
{
    if cut_sound(part, rule, rows) {
        Row::Cut {
            parent: part[1],
            cut: sound_cut(part[4], part[5]),
            left: part[6],
            right: part[7],
        }
    } else {
        Row::Bad
    }
}

// Sixteen words as a leaf in range, else `Bad`.
#[tactic(auto, unfolding(crate::specs::Row::checked_row))]
fn tree_leaf(part: &[u32; ROW_SIZE], rule: u32, rows: u32) -> Row
    ensures { result ≡ checked_row rule rows (as_leaf part.now) }
{
    if leaf_sound(part, rule, rows) {
        as_leaf(part)
    } else {
        Row::Bad
    }
}

// The row of sixteen words where it is a leaf or a cut in range, else `Bad`.
#[tactic(auto, using(crate::proofs::TreeLaws::tree_of_cut, crate::proofs::TreeLaws::tree_of_leaf, crate::proofs::TreeLaws::tree_of_none))]
fn tree_of(part: &[u32; ROW_SIZE], rule: u32, rows: u32) -> Row
    ensures { result ≡ tree_row (checked_row rule rows (row_of part.now)) }
{
    match part[0] {
        CUT_KIND => tree_cut(part, rule, rows),
        LEAF_KIND => tree_leaf(part, rule, rows),
        _ => Row::Bad,
    }
}

// The row r where it is one of the tree, else `Bad`.
pub fn read_tree(words: &[u32], rows: u32, r: u32) -> Row
    ensures { result ≡ tree_row (row_at words.now rows r) }
{
    match row_words(words, rows, r) {
        Some(part) => tree_of(part, read_rule(words), rows),
        None => Row::Bad,
    }
}

// The word of the child of row r on a side, left or not.
#[tactic(auto, unfolding(crate::specs::Tree::at_child, words::specs::Layout::at_row))]
fn at_child(r: u32, left: bool) -> usize
    ensures { result ≡ at_child r left }
{
    let first = at_row(r);
    if left { first + 6 } else { first + 7 }
}

// The child of the cut in row r on a side. It is read again, since choosing one of two links that are read already would be a jump.
#[tactic(auto, unfolding(crate::specs::Tree::child_at))]
pub fn child_at(words: &[u32], r: u32, left: bool) -> u32
    ensures { result ≡ child_at words.now r left }
{
    get(words, at_child(r, left))
}
