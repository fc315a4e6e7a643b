// The two rules of distance: rule 1 goes by the coordinates, rule 2 by dry weight, on axes 6 to 9 in the place of 2 to 5.
ghost use Rattle.std.specs.Prelude.{◌≡◌, ◌≤◌};
ghost use Rattle.points.specs.Rule.{rule_in, shift_of, axis_of, is_axis_by};

// The rule of the coordinates, and that of dry weight. A rule stays a number: callers may name one that there is not, which question 20 refuses (`rule_in`).
pub const PLAIN_RULE: u32 = 1;

pub const DRY_RULE: u32 = 2;

// Whether a rule is 1 or 2.
pub fn rule_in(rule: u32) -> bool
    ensures { result ≡ rule_in rule }
{
    (PLAIN_RULE <= rule) & (rule <= DRY_RULE)
}

// How far the axes that a rule takes for 2 to 5 are from these.
#[tactic(auto, unfolding(crate::specs::Rule::shift_of))]
pub(crate) fn shift(rule: u32) -> u32
    ensures { result ≡ shift_of rule }
{
    if rule == DRY_RULE { 4 } else { 0 }
}

// The k-th of the five axes that a rule goes by.
#[tactic(auto, using(crate::proofs::NumberLaws::shift_le), unfolding(crate::specs::Rule::axis_of))]
pub(crate) fn axis_by(rule: u32, k: u32) -> u32
    requires { k ≤ 5 }
    ensures { result ≡ axis_of rule k }
{
    let by = shift(rule);
    if k == 1 { 1 } else { k + by }
}

// Whether an axis is one that a rule goes by.
#[tactic(auto, using(crate::proofs::NumberLaws::shift_le))]
pub(crate) fn is_axis_by(rule: u32, axis: u32) -> bool
    ensures { result ≡ is_axis_by rule axis }
{
    let by = shift(rule);
    (axis == 1) | ((2 + by <= axis) & (axis <= 5 + by))
}
