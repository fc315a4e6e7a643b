// Points and cuts as the words that are stored: a coordinate less the least of its axis, a sum less twice that.
ghost use Rattle.std.specs.Prelude.{◌≡◌, ◌+◌, not, ◌||◌, eqb, leb, ltb};
ghost use Rattle.points.specs.Rule.{dry_rule};
ghost use Rattle.points.specs.Number.{in_range_by};
ghost use Rattle.points.specs.Word.{stored_in, loaded_in, sum_range_of, span_of, sum_span_of, word_of, coordinate_at, point_at, axis_word_of, sum_word_of, cut_at, cut_in_range};

use crate::cut::Cut;
use crate::number::number_range_on;
use crate::point::{Point, Range, range_on};
use crate::rule::{DRY_RULE, is_axis_by, shift};

// The word for none, which stands for no number of a range: the definitions `stored_in` and `loaded_in` have it so.
const NONE: u32 = 4294967295;

impl Range {
    // A number in a range as its distance from the least; for any other the word for none.
    #[tactic(auto, unfolding(crate::specs::Word::stored_in))]
    fn stored(self, x: i32) -> u32
        ensures { result ≡ stored_in self x }
    {
        if self.holds(x) {
            x.abs_diff(self.low)
        } else {
            NONE
        }
    }

    // The number of a range at a distance from the least; past the greatest the number that is in no range.
    #[tactic(auto, unfolding(crate::specs::Word::loaded_in))]
    fn loaded(self, w: u32) -> i32
        ensures { result ≡ loaded_in self w }
    {
        let x = i64::from(self.low) + i64::from(w);
        if x <= i64::from(self.high) {
            x as i32
        } else {
            i32::MAX
        }
    }
}

// The range of the sums of two numbers of an axis.
#[tactic(auto, using(crate::proofs::WordLaws::sum_fits, crate::proofs::WordLaws::sum_fits_high), unfolding(crate::specs::Word::sum_range_of))]
fn sum_range_on(axis: u32) -> Range
    ensures { result ≡ sum_range_of axis }
{
    let one = number_range_on(axis);
    Range {
        low: one.low + one.low,
        high: one.high + one.high,
    }
}

// The greatest word of an axis's coordinates.
#[tactic(auto, using(crate::proofs::WordLaws::range_high))]
fn span_on(axis: u32) -> u32
    ensures { result ≡ span_of axis }
{
    let r = range_on(axis);
    r.stored(r.high)
}

// The greatest word of an axis's sums.
#[tactic(auto, using(crate::proofs::WordLaws::sum_range_high))]
fn sum_span_on(axis: u32) -> u32
    ensures { result ≡ sum_span_of axis }
{
    let r = sum_range_on(axis);
    r.stored(r.high)
}

// The least of an axis's sums.
fn sum_low_on(axis: u32) -> i32
    ensures { result ≡ (sum_range_of axis).low }
{
    sum_range_on(axis).low
}

// The greatest word of the sums of an axis, by the word of that axis, one less than its number. It is compiled to a table of nine numbers, where ranges
// would be put on the stack at every use. This and the next stay two tables: one function for both, given a closure, would hide that each arm is a constant.
#[tactic(auto, using(crate::proofs::PointLaws::sum_range_rest))]
fn sum_span_at(axis: u32) -> u32
    ensures { result ≡ sum_span_of (axis + 1) }
{
    match axis {
        0 => sum_span_on(1),
        1 => sum_span_on(2),
        2 => sum_span_on(3),
        3 => sum_span_on(4),
        4 => sum_span_on(5),
        5 => sum_span_on(6),
        6 => sum_span_on(7),
        7 => sum_span_on(8),
        _ => sum_span_on(9),
    }
}

// The least of its sums, by the same word.
#[tactic(auto, using(crate::proofs::PointLaws::sum_range_rest))]
pub fn sum_low_at(axis: u32) -> i32
    ensures { result ≡ (sum_range_of (axis + 1)).low }
{
    match axis {
        0 => sum_low_on(1),
        1 => sum_low_on(2),
        2 => sum_low_on(3),
        3 => sum_low_on(4),
        4 => sum_low_on(5),
        5 => sum_low_on(6),
        6 => sum_low_on(7),
        7 => sum_low_on(8),
        _ => sum_low_on(9),
    }
}

// The word of a point's coordinate on an axis.
#[tactic(auto, unfolding(crate::specs::Word::word_of))]
pub fn word(p: Point, axis: u32) -> u32
    ensures { result ≡ word_of p axis }
{
    range_on(axis).stored(p.coordinate(axis))
}

// The coordinate that a word stands for on an axis.
#[tactic(auto, unfolding(crate::specs::Word::coordinate_at))]
fn coordinate_at(axis: u32, w: u32) -> i32
    ensures { result ≡ coordinate_at axis w }
{
    range_on(axis).loaded(w)
}

// The point of five words; it is in range exactly if each of them is.
#[tactic(auto, unfolding(crate::specs::Word::point_at))]
pub fn point_at(grade: u32, weight: u32, moisture: u32, speed: u32, draw: u32) -> Point
    ensures { result ≡ point_at grade weight moisture speed draw }
{
    Point {
        grade: coordinate_at(1, grade),
        weight: coordinate_at(2, weight),
        moisture: coordinate_at(3, moisture),
        speed: coordinate_at(4, speed),
        draw: coordinate_at(5, draw),
    }
}

// Whether a word is that of a coordinate in range.
fn word_in_range(axis: u32, w: u32) -> bool
    ensures { result ≡ leb w (span_of axis) }
{
    w <= span_on(axis)
}

// Whether the word of a moisture in range is one that the rule lets pass; of words, where `number` has the same of coordinates.
fn moisture_word_by(rule: u32, moisture: u32) -> bool
    ensures { result ≡ (not (eqb rule dry_rule) || ltb moisture 10000) }
{
    (rule != DRY_RULE) | (moisture < 10000)
}

// Whether the point of five words is in range under a rule, by the words alone. They come one by one, since a row has them among its other words and no copy is made.
#[tactic(auto, using(crate::proofs::WordLaws::point_at_by))]
pub fn point_words_in_range(
    rule: u32,
    grade: u32,
    weight: u32,
    moisture: u32,
    speed: u32,
    draw: u32,
) -> bool
    ensures { result ≡ in_range_by rule (point_at grade weight moisture speed draw) }
{
    word_in_range(1, grade)
        & word_in_range(2, weight)
        & word_in_range(3, moisture)
        & moisture_word_by(rule, moisture)
        & word_in_range(4, speed)
        & word_in_range(5, draw)
}

// Whether a cut has an axis that the rule goes by, and a sum that two points in range can have there.
#[tactic(auto, unfolding(crate::specs::Word::cut_in_range))]
pub fn cut_in_range(rule: u32, cut: Cut) -> bool
    ensures { result ≡ cut_in_range rule cut }
{
    is_axis_by(rule, cut.axis) & sum_range_on(cut.axis).holds(cut.sum)
}

// The word of a cut's axis: one less than its number; the word for none where there is no such axis.
#[tactic(auto, unfolding(crate::specs::Word::axis_word_of))]
pub fn axis_word(cut: Cut) -> u32
    ensures { result ≡ axis_word_of cut }
{
    match cut.axis {
        1..=9 => cut.axis - 1,
        _ => NONE,
    }
}

// The word of a cut's sum.
#[tactic(auto, unfolding(crate::specs::Word::sum_word_of))]
pub fn sum_word(cut: Cut) -> u32
    ensures { result ≡ sum_word_of cut }
{
    sum_range_on(cut.axis).stored(cut.sum)
}

// The cut of two words; it is in range exactly if both of them are.
#[tactic(auto, unfolding(crate::specs::Word::cut_at))]
pub fn cut_at(axis: u32, sum: u32) -> Cut
    ensures { result ≡ cut_at axis sum }
{
    if axis <= 8 {
        Cut {
            axis: axis + 1,
            sum: sum_range_on(axis + 1).loaded(sum),
        }
    } else {
        Cut { axis: 0, sum: 0 }
    }
}

// Whether the cut of two words is in range under a rule, by the words alone.
#[tactic(auto, using(crate::proofs::NumberLaws::shift_le, crate::proofs::WordLaws::axis_by_word, crate::proofs::WordLaws::cut_at_in_range))]
pub fn cut_words_in_range(rule: u32, axis: u32, sum: u32) -> bool
    ensures { result ≡ cut_in_range rule (cut_at axis sum) }
{
    let by = shift(rule);
    ((axis == 0) | ((1 + by <= axis) & (axis <= 4 + by))) & (sum <= sum_span_at(axis))
}
