// The scale of an opening: its rule, and how much each axis counts in the square.
ghost use Rattle.std.specs.Prelude.{◌≡◌};
ghost use Rattle.points.specs.Scale.{count_of, most_factor, factor_in, factors_in, plain_scale};

use crate::pick::pick;
use crate::rule::{DRY_RULE, PLAIN_RULE, shift};

// The rule, and the factors of the axes 2 to 5.
#[derive(Clone, Copy)]
pub struct Scale {
    pub rule: u32,
    pub weight: u32,
    pub moisture: u32,
    pub speed: u32,
    pub draw: u32,
}

impl Scale {
    // How much an axis counts in the square: its factor, 0 for an axis that the rule does not take in. It is chosen with no jump, as a coordinate is.
    #[tactic(auto, using(crate::proofs::NumberLaws::shift_le), unfolding(crate::specs::Scale::count_of))]
    pub(crate) fn count_on(self, axis: u32) -> u32
        ensures { result ≡ count_of self axis }
    {
        let by = shift(self.rule);
        let five = pick(axis == 5 + by, self.draw, 0);
        let four = pick(axis == 4 + by, self.speed, five);
        let three = pick(axis == 3 + by, self.moisture, four);
        pick(axis == 2 + by, self.weight, three)
    }
}

// The greatest factor under a rule.
#[tactic(auto, unfolding(crate::specs::Scale::most_factor))]
fn most_factor(rule: u32) -> u32
    ensures { result ≡ most_factor rule }
{
    if rule == DRY_RULE { 16 } else { 1000 }
}

// Whether a factor is in range under a rule.
fn factor_in(rule: u32, factor: u32) -> bool
    ensures { result ≡ factor_in rule factor }
{
    (1 <= factor) & (factor <= most_factor(rule))
}

// Whether every factor is in range under the rule.
#[tactic(auto, unfolding(crate::specs::Scale::factors_in))]
pub fn factors_in(scale: Scale) -> bool
    ensures { result ≡ factors_in scale }
{
    factor_in(scale.rule, scale.weight)
        & factor_in(scale.rule, scale.moisture)
        & factor_in(scale.rule, scale.speed)
        & factor_in(scale.rule, scale.draw)
}

// Rule 1 and four ones.
pub fn plain_scale() -> Scale
    ensures { result ≡ plain_scale }
{
    Scale {
        rule: PLAIN_RULE,
        weight: 1,
        moisture: 1,
        speed: 1,
        draw: 1,
    }
}
