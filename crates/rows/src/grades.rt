// The grades that may lie on each side of a cut: 127 slots a side, the bits of four words.
ghost use Rattle.std.specs.Prelude.{◌≡◌};
ghost use Rattle.rows.specs.Grades.{slot_of, at_slot, has_bit, with_bit, admits, mark_side, mark_toward, begin_grades};

use crate::tree::child_at;
use points::point::Point;
use points::word::word;
use words::layout::{MOST_ROWS, ROW_SIZE, at_row};
use words::word::{get, put};

// The slot of a point. Grades that differ by a multiple of 127 share one.
#[tactic(auto, unfolding(crate::specs::Grades::slot_of))]
pub fn slot_of(point: Point) -> u32
    ensures { result ≡ slot_of point }
{
    word(point, 1) % 127
}

// The word of slot k on a side, left or not, of row r.
#[tactic(auto, unfolding(crate::specs::Grades::at_slot, words::specs::Layout::at_row))]
fn at_slot(r: u32, left: bool, k: u32) -> usize
    ensures { result ≡ at_slot r left k }
{
    let first = at_row(r) + ((k / 32) as usize);
    if left { first + 8 } else { first + 12 }
}

// Whether bit k mod 32 of a word is set.
#[tactic(auto, unfolding(crate::specs::Grades::has_bit))]
fn has_bit(w: u32, k: u32) -> bool
    ensures { result ≡ has_bit w k }
{
    (w >> (k % 32)) & 1 == 1
}

// The word with that bit set.
#[tactic(auto, unfolding(crate::specs::Grades::with_bit))]
fn with_bit(w: u32, k: u32) -> u32
    ensures { result ≡ with_bit w k }
{
    w | (1 << (k % 32))
}

// Whether slot k may lie on a side of the cut in row r.
#[tactic(auto, unfolding(crate::specs::Grades::admits))]
pub fn admits(words: &[u32], r: u32, left: bool, k: u32) -> bool
    ensures { result ≡ admits words.now r left k }
{
    has_bit(get(words, at_slot(r, left, k)), k)
}

// Puts slot k among those of a side of the cut in row r.
#[tactic(auto, unfolding(crate::specs::Grades::mark_side))]
fn mark_side(words: &mut [u32], r: u32, left: bool, k: u32)
    ensures { words.new ≡ mark_side words.old r left k }
{
    let at = at_slot(r, left, k);
    let marked = with_bit(get(words, at), k);
    put(words, at, marked);
}

// Puts slot k on the side of the cut in row r where the child `to` hangs. A walk that stays, at a leaf, marks nothing.
#[tactic(auto, unfolding(crate::specs::Grades::mark_toward))]
pub fn mark_toward(words: &mut [u32], r: u32, to: u32, k: u32)
    ensures { words.new ≡ mark_toward words.old r to k }
{
    if r != to {
        let left = child_at(words, r, true) == to;
        mark_side(words, r, left, k);
    }
}

// Gives the new cut in row r its grades: slot `here` on the side that is told, slot `there` on the other, and no more.
#[tactic(auto, unfolding(crate::specs::Grades::begin_grades, crate::specs::Grades::no_grades, words::specs::Layout::at_row))]
pub fn begin_grades(words: &mut [u32], r: u32, left: bool, here: u32, there: u32)
    ensures { words.new ≡ begin_grades words.old r left here there }
{
    if r < MOST_ROWS {
        let at = at_row(r);
        if at + ROW_SIZE <= words.len() {
            words[at + 8..at + ROW_SIZE].fill(0);
            mark_side(words, r, left, here);
            mark_side(words, r, !left, there);
        }
    }
}
