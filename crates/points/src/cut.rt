// Cuts of the tree: the cut between two points, and the side on which a cut sends a point.
ghost use Rattle.std.specs.Prelude.{◌≡◌, ◌≤◌};
ghost use Rattle.points.specs.Rule.{axis_of};
ghost use Rattle.points.specs.Cut.{wider_of, spread_of, widest_of, cut_of, goes_left};

use crate::point::Point;
use crate::rule::axis_by;
use crate::signed::twice;
use crate::square::gap;

// An axis, and the sum of two numbers there.
#[derive(Clone, Copy)]
pub struct Cut {
    pub axis: u32,
    pub sum: i32,
}

// An axis with the gap of two points there.
#[derive(Clone, Copy)]
pub struct Spread {
    pub axis: u32,
    pub gap: u32,
}

// The wider of two spreads; the first where they are equal, which `max_by_key` would give up for the last.
#[tactic(auto, unfolding(crate::specs::Cut::wider_of))]
fn wider(first: Spread, second: Spread) -> Spread
    ensures { result ≡ wider_of first second }
{
    if first.gap < second.gap {
        second
    } else {
        first
    }
}

// The spread of two points on the k-th axis that a rule goes by.
#[tactic(auto, unfolding(crate::specs::Cut::spread_of))]
fn spread_by(rule: u32, a: Point, b: Point, k: u32) -> Spread
    requires { k ≤ 5 }
    ensures { result ≡ spread_of a b (axis_of rule k) }
{
    let axis = axis_by(rule, k);
    Spread {
        axis,
        gap: gap(a, b, axis),
    }
}

// Of the axes that a rule goes by, that of the greatest gap, the lowest on a tie.
#[tactic(auto, using(crate::proofs::CutLaws::widening))]
fn widest(rule: u32, a: Point, b: Point) -> u32
    ensures { result ≡ widest_of rule a b }
{
    let mut widest = spread_by(rule, a, b, 1);
    for k in 2..6 {
        widest = wider(widest, spread_by(rule, a, b, k));
    }
    widest.axis
}

// The cut between two points under a rule. A sum past the least or the greatest `i32` stops there.
pub fn cut_between(rule: u32, a: Point, b: Point) -> Cut
    ensures { result ≡ cut_of rule a b }
{
    let axis = widest(rule, a, b);
    Cut {
        axis,
        sum: a.number(axis).saturating_add(b.number(axis)),
    }
}

// Whether a cut sends a point left: exactly if twice its number on the axis is less than the sum.
#[tactic(auto, unfolding(crate::specs::Cut::goes_left))]
pub fn goes_left(cut: Cut, p: Point) -> bool
    ensures { result ≡ goes_left cut p }
{
    twice(p.number(cut.axis)) < i64::from(cut.sum)
}
