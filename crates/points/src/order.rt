// The order of points: axis by axis, the first that differs decides; and their order on a tie.
ghost use Rattle.std.specs.Prelude.{◌≡◌};
ghost use Rattle.points.specs.Order.{by_axis, compared_of, tie_of, same_point};

use crate::point::Point;
use std::cmp::Ordering;

// What a comparison tells: the order, and how many axes it looked at.
#[derive(Clone, Copy)]
pub struct Compared {
    pub order: Ordering,
    pub looked: u32,
}

// The order of two points on one axis.
#[tactic(auto, unfolding(crate::specs::Order::by_axis))]
pub(crate) fn by_axis(a: Point, b: Point, axis: u32) -> Ordering
    ensures { result ≡ by_axis a b axis }
{
    a.coordinate(axis).cmp(&b.coordinate(axis))
}

// The order of two points. The comparison ends at the first axis that differs.
#[tactic(auto, using(crate::proofs::ComparedLaws::comparison))]
pub(crate) fn compare(a: Point, b: Point) -> Compared
    ensures { result ≡ compared_of a b }
{
    let mut compared = Compared {
        order: Ordering::Equal,
        looked: 0,
    };
    for looked in 1..6 {
        compared = Compared {
            order: by_axis(a, b, looked),
            looked,
        };
        if compared.order.is_ne() {
            break;
        }
    }
    compared
}

// The order of two points on a tie: the heavier first, and of two of one weight the lower.
#[tactic(auto, unfolding(crate::specs::Order::tie_of, crate::specs::Order::compared_of))]
pub fn tie(a: Point, b: Point) -> Ordering
    ensures { result ≡ tie_of a b }
{
    by_axis(b, a, 2).then_with(|| compare(a, b).order)
}

// Whether two points are one.
#[tactic(auto, unfolding(crate::specs::Order::same_point, crate::specs::Order::compared_of))]
pub fn same_point(a: Point, b: Point) -> bool
    ensures { result ≡ same_point a b }
{
    compare(a, b).order.is_eq()
}
