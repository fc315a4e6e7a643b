// The square of two points: how far apart they lie on axes 2 to 5, by the rule and the factors of a scale.
ghost use Rattle.std.specs.Prelude.{◌≡◌, ◌+◌, ◌*◌, ◌≤◌};
ghost use Rattle.points.specs.Square.{gap_of, topped, four_squares, square_of, most_square};

use crate::point::Point;
use crate::rule::DRY_RULE;
use crate::scale::Scale;

// The greatest square of points and factors in range under a rule.
#[tactic(auto, unfolding(crate::specs::Square::most_square))]
pub fn most_square(rule: u32) -> u64
    ensures { result ≡ most_square rule }
{
    if rule == DRY_RULE {
        17625567969600000016
    } else {
        11015800001000
    }
}

// How far apart two points lie on an axis.
#[tactic(auto, unfolding(crate::specs::Square::gap_of))]
pub(crate) fn gap(a: Point, b: Point, axis: u32) -> u32
    ensures { result ≡ gap_of a b axis }
{
    a.number(axis).abs_diff(b.number(axis))
}

// The squared gap as often as an axis counts, which stops at the greatest number.
#[tactic(auto, using(crate::proofs::SquareLaws::topped_again), unfolding(crate::specs::Square::topped))]
pub(crate) fn counted_square(count: u64, gap: u64) -> u64
    ensures { result ≡ topped (count * (gap * gap)) }
{
    if (count <= 1024) & (gap <= 134217727) {
        return count * (gap * gap);
    }
    if (count <= 16) & (gap <= 1073741823) {
        return count * (gap * gap);
    }
    count.saturating_mul(gap.saturating_mul(gap))
}

// How far apart two points lie on each of the axes that a rule takes for 2 to 5.
#[derive(Clone, Copy)]
struct Gaps {
    weight: u32,
    moisture: u32,
    speed: u32,
    draw: u32,
}

impl Gaps {
    // The four added up.
    fn sum(self) -> u64
        ensures { result ≡ self.weight + self.moisture + self.speed + self.draw }
    {
        u64::from(self.weight)
            + u64::from(self.moisture)
            + u64::from(self.speed)
            + u64::from(self.draw)
    }
}

// The square of a gap.
fn squared(gap: u32) -> u64
    ensures { result ≡ gap * gap }
{
    u64::from(gap) * u64::from(gap)
}

impl Scale {
    // The sum of four squared gaps, each as often as its factor says, where each part and every sum of them may stop at the greatest number.
    #[tactic(auto, unfolding(crate::specs::Square::topped, crate::specs::Square::four_squares))]
    fn stopped_squares(self, gaps: Gaps) -> u64
        ensures { result ≡ topped (four_squares self gaps.weight gaps.moisture gaps.speed gaps.draw) }
    {
        let first = counted_square(u64::from(self.weight), u64::from(gaps.weight));
        let second = counted_square(u64::from(self.moisture), u64::from(gaps.moisture));
        let third = counted_square(u64::from(self.speed), u64::from(gaps.speed));
        let fourth = counted_square(u64::from(self.draw), u64::from(gaps.draw));
        first
            .saturating_add(second)
            .saturating_add(third)
            .saturating_add(fourth)
    }

    // The same sum, where it does not pass the greatest number.
    #[tactic(auto, unfolding(crate::specs::Square::four_squares))]
    fn plain_squares(self, gaps: Gaps) -> u64
        requires { four_squares self gaps.weight gaps.moisture gaps.speed gaps.draw ≤ 18446744073709551615 }
        ensures { result ≡ four_squares self gaps.weight gaps.moisture gaps.speed gaps.draw }
    {
        u64::from(self.weight) * squared(gaps.weight)
            + u64::from(self.moisture) * squared(gaps.moisture)
            + u64::from(self.speed) * squared(gaps.speed)
            + u64::from(self.draw) * squared(gaps.draw)
    }

    // The four factors added up. A trait for the four fields of this struct and of `Gaps` would be longer than both sums.
    fn factor_sum(self) -> u64
        ensures { result ≡ self.weight + self.moisture + self.speed + self.draw }
    {
        u64::from(self.weight)
            + u64::from(self.moisture)
            + u64::from(self.speed)
            + u64::from(self.draw)
    }

    // The same sum, which stops at the greatest number. Where the gaps and the factors add up to no more than two bounds, as they do for points and factors in
    // range under rule 1, nothing can stop, and none of the four is tested.
    #[tactic(auto, using(crate::proofs::SquareLaws::squares_fit, crate::proofs::SquareLaws::squares_plain))]
    fn topped_squares(self, gaps: Gaps) -> u64
        ensures { result ≡ topped (four_squares self gaps.weight gaps.moisture gaps.speed gaps.draw) }
    {
        if (gaps.sum() <= 67108863) & (self.factor_sum() <= 4096) {
            self.plain_squares(gaps)
        } else {
            self.stopped_squares(gaps)
        }
    }
}

// The square of two points. A sum past the greatest number stops there; none does for points and factors in range.
#[tactic(auto, unfolding(crate::specs::Square::square_of, crate::specs::Square::plain_square, crate::specs::Rule::shift_of))]
pub fn square(scale: Scale, a: Point, b: Point) -> u64
    ensures { result ≡ square_of scale a b }
{
    if scale.rule == DRY_RULE {
        scale.stopped_squares(Gaps {
            weight: gap(a, b, 6),
            moisture: gap(a, b, 7),
            speed: gap(a, b, 8),
            draw: gap(a, b, 9),
        })
    } else {
        scale.topped_squares(Gaps {
            weight: gap(a, b, 2),
            moisture: gap(a, b, 3),
            speed: gap(a, b, 4),
            draw: gap(a, b, 5),
        })
    }
}
