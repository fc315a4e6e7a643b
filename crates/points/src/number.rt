// The numbers of a point by which squares and cuts go: on axes 1 to 5 its coordinates, on axes 6 to 9 what rule 2 makes of axes 2 to 5.
ghost use Rattle.std.specs.Prelude.{◌≡◌};
ghost use Rattle.points.specs.Number.{dry_of, grown_of, number_of, number_range_of, in_range_by};

use crate::pick::pick;
use crate::point::{Point, Range, in_range, range_on};
use crate::rule::DRY_RULE;
use crate::signed::capped;

impl Point {
    // The dry weight: weight × (10,000 − moisture). It stops at the least and at the greatest `i32`.
    #[tactic(auto, using(crate::proofs::SignedLaws::dry_fits), unfolding(crate::specs::Number::dry_of))]
    fn dry(self) -> i32
        ensures { result ≡ dry_of self }
    {
        let solid = 10000 - i64::from(self.moisture);
        capped(i64::from(self.weight) * solid)
    }

    // A coordinate times 10,000. It stops at the least and at the greatest `i32`.
    #[tactic(auto, using(crate::proofs::SignedLaws::grown_fits), unfolding(crate::specs::Number::grown_of))]
    fn grown(self, axis: u32) -> i32
        ensures { result ≡ grown_of self axis }
    {
        capped(10000 * i64::from(self.coordinate(axis)))
    }

    // The number of a point on an axis. Any axis above 9 is taken for axis 9.
    #[tactic(auto, unfolding(crate::specs::Number::number_of))]
    pub(crate) fn number(self, axis: u32) -> i32
        ensures { result ≡ number_of self axis }
    {
        match axis {
            0..=5 => self.coordinate(axis),
            6 => self.dry(),
            _ => self.grown(axis - 4),
        }
    }

    // The same, chosen with no jump, for a search: the axes of its cuts follow no order that a processor could foresee. All numbers are worked out for it, so
    // that it takes longer where the axes can be foreseen.
    pub(crate) fn picked_number(self, axis: u32) -> i32
        ensures { result ≡ number_of self axis }
    {
        let eight = pick(axis == 8, self.grown(4), self.grown(5));
        let seven = pick(axis == 7, self.grown(3), eight);
        let six = pick(axis == 6, self.dry(), seven);
        pick(axis <= 5, self.coordinate(axis), six)
    }
}

// The range of those numbers, on axes 6 to 9 of points with a moisture of at most 9,999.
#[tactic(auto, unfolding(crate::specs::Number::number_range_of))]
pub(crate) fn number_range_on(axis: u32) -> Range
    ensures { result ≡ number_range_of axis }
{
    match axis {
        0..=5 => range_on(axis),
        6 => Range {
            low: 1,
            high: 1000000000,
        },
        7 => Range {
            low: 0,
            high: 99990000,
        },
        8 => Range {
            low: 0,
            high: 300000000,
        },
        _ => Range {
            low: -20000000,
            high: 20000000,
        },
    }
}

// Whether every coordinate lies in its range, and under rule 2 the moisture below 10,000.
#[tactic(auto, unfolding(crate::specs::Number::in_range_by))]
pub fn in_range_by(rule: u32, p: Point) -> bool
    ensures { result ≡ in_range_by rule p }
{
    in_range(p) & ((rule != DRY_RULE) | (p.moisture < 10000))
}
