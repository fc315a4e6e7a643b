// The rule of the opening, by which the rows and the records of the stations are judged.
ghost use Rattle.std.specs.Prelude.{◌≡◌};
ghost use Rattle.words.specs.Rule.{rule_at};

use crate::layout::AT_RULE;
use crate::word::get;

// The rule; 0 where the slice has no such word.
#[tactic(auto, unfolding(crate::specs::Rule::rule_at, crate::specs::Layout::at_rule))]
pub fn read_rule(words: &[u32]) -> u32
    ensures { result ≡ rule_at words.now }
{
    get(words, AT_RULE)
}
