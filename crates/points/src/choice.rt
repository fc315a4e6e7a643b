// The choice of the nearest: which of two records a target chooses, and when a far side holds none that it would.
ghost use Rattle.std.specs.Prelude.{◌≡◌};
ghost use Rattle.points.specs.Cut.{goes_left};
ghost use Rattle.points.specs.Choice.{same_grade, chosen_at, chosen_over, far_gap, excluded};

use crate::cut::Cut;
use crate::order::tie;
use crate::point::Point;
use crate::scale::Scale;
use crate::signed::twice;
use crate::square::{counted_square, square};

// Whether two points have one grade.
#[tactic(auto, unfolding(crate::specs::Choice::same_grade, crate::specs::Order::by_axis, crate::specs::Point::coordinate_of))]
pub fn same_grade(a: Point, b: Point) -> bool
    ensures { result ≡ same_grade a b }
{
    a.grade == b.grade
}

// Whether a, whose square is x, is chosen over b, whose square is y: the smaller square, then the heavier, then the lower point. With
// `x.cmp(&y).then_with(..)` a run of choices between random points took 7 % longer.
pub fn chosen_at(x: u64, y: u64, a: Point, b: Point) -> bool
    ensures { result ≡ chosen_at x y a b }
{
    if x < y {
        return true;
    }
    if y < x {
        return false;
    }
    tie(a, b).is_lt()
}

// Whether a target chooses a over b.
#[tactic(auto, unfolding(crate::specs::Choice::chosen_over, crate::specs::Choice::chosen_by))]
pub fn chosen_over(scale: Scale, target: Point, a: Point, b: Point) -> bool
    ensures { result ≡ chosen_over scale target a b }
{
    chosen_at(square(scale, target, a), square(scale, target, b), a, b)
}

// Whether a cut sends a target left: exactly if twice its number on the axis is less than the sum.
#[tactic(auto, unfolding(crate::specs::Cut::goes_left))]
pub fn aims_left(cut: Cut, target: Point) -> bool
    ensures { result ≡ goes_left cut target }
{
    twice(target.picked_number(cut.axis)) < i64::from(cut.sum)
}

// Twice the least distance of a target from the far side of a cut, on the cut's axis.
#[tactic(auto, using(crate::proofs::SignedLaws::far_small), unfolding(crate::specs::Choice::far_gap, crate::specs::Cut::goes_left))]
fn far_gap(cut: Cut, target: Point) -> u64
    ensures { result ≡ far_gap cut target }
{
    let double = twice(target.picked_number(cut.axis));
    let sum = i64::from(cut.sum);
    if double < sum {
        sum.abs_diff(double)
    } else {
        double.abs_diff(sum) + 1
    }
}

// Whether no record beyond a cut can be chosen over one at the best square.
#[tactic(auto, unfolding(crate::specs::Choice::excluded, crate::specs::Choice::excluded_by, crate::specs::Square::topped))]
pub fn far_side_excluded(scale: Scale, cut: Cut, target: Point, best: u64) -> bool
    ensures { result ≡ excluded scale cut target best }
{
    if cut.axis == 1 {
        return true;
    }
    let count = u64::from(scale.count_on(cut.axis));
    best.saturating_mul(4) < counted_square(count, far_gap(cut, target))
}
