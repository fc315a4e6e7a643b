// The rule and the factors of an opening, by which the table works out its squares.
use points::scale::Scale;

// Rule 1, which goes by the coordinates themselves, and rule 2, which goes by dry weight. An opening may name any other number, which is refused.
pub const PLAIN_RULE: u32 = 1;

pub const DRY_RULE: u32 = 2;

// The rule, and the factors of weight, moisture, speed and draw.
#[derive(Clone, Copy)]
pub struct PlainScale {
    pub rule: u32,
    pub factors: [u32; 4],
}

impl From<PlainScale> for Scale {
    fn from(scale: PlainScale) -> Scale {
        let [weight, moisture, speed, draw] = scale.factors;
        Scale {
            rule: scale.rule,
            weight,
            moisture,
            speed,
            draw,
        }
    }
}

impl PlainScale {
    // Four ones under a rule.
    pub fn ones_by(rule: u32) -> PlainScale {
        PlainScale {
            rule,
            factors: [1; 4],
        }
    }

    // Rule 1 and four ones.
    pub fn ones() -> PlainScale {
        PlainScale::ones_by(PLAIN_RULE)
    }

    // Whether there is such a rule.
    pub fn is_rule(self) -> bool {
        matches!(self.rule, PLAIN_RULE | DRY_RULE)
    }

    // Whether every factor is in range under the rule: 1 to 1,000, under rule 2 1 to 16.
    pub fn in_range(self) -> bool {
        let most = if self.rule == DRY_RULE { 16 } else { 1000 };
        self.factors
            .iter()
            .all(|factor| 1 <= *factor && *factor <= most)
    }

    // The greatest moisture under the rule.
    pub fn most_moisture(self) -> u32 {
        if self.rule == DRY_RULE { 9999 } else { 10000 }
    }
}
