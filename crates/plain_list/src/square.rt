// The square of two points by the rule and the factors of an opening. The numbers are the table's own, each counted from the least of its axis: only
// differences count, but that a dry weight takes the whole weight.
use crate::point::PlainPoint;
use crate::scale::{DRY_RULE, PlainScale};

// The numbers of a point on axes 2 to 5 under a rule. Under rule 2 they are the dry weight, in 10,000 parts, and 10,000 times each of the other three.
fn numbers_by(rule: u32, p: PlainPoint) -> [u64; 4] {
    let weight = u64::from(p.weight);
    let others = [p.moisture, p.speed, p.draw].map(u64::from);
    let [moisture, speed, draw] = others;
    if rule == DRY_RULE {
        let solid = 10000u64.saturating_sub(moisture);
        [
            (weight + 1) * solid,
            10000 * moisture,
            10000 * speed,
            10000 * draw,
        ]
    } else {
        [weight, moisture, speed, draw]
    }
}

// The square of two points: the sum of the squared differences on axes 2 to 5, each times its factor.
pub fn square(scale: PlainScale, a: PlainPoint, b: PlainPoint) -> u64 {
    let x = numbers_by(scale.rule, a);
    let y = numbers_by(scale.rule, b);
    let apart = x.iter().zip(y.iter()).map(|(x, y)| x.abs_diff(*y));
    let parts = scale.factors.iter().zip(apart).map(|(factor, apart)| {
        apart
            .saturating_mul(apart)
            .saturating_mul(u64::from(*factor))
    });
    parts.fold(0u64, |sum, part| sum.saturating_add(part))
}
