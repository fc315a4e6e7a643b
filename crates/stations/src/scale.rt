// The scale of the common record: the factors of the opening, in four words one after the other, and then the rule.
ghost use Rattle.std.specs.Prelude.{◌≡◌};
ghost use Rattle.stations.specs.Scale.{scale_at, scale_words, put_scale};

use points::scale::Scale;
use words::layout::{AT_SCALE, COMMON_SIZE};
use words::part::write_part;
use words::rule::read_rule;
use words::word::get;

// The scale; five zeros where the slice is too short for the common record. The length is asked once, so that the five words are read without asking again.
#[tactic(auto, unfolding(crate::specs::Scale::scale_at, crate::specs::Scale::scale_from, words::specs::Layout::at_scale))]
pub fn read_scale(words: &[u32]) -> Scale
    ensures { result ≡ scale_at words.now }
{
    if COMMON_SIZE <= words.len() {
        Scale {
            rule: read_rule(words),
            weight: get(words, AT_SCALE),
            moisture: get(words, AT_SCALE + 1),
            speed: get(words, AT_SCALE + 2),
            draw: get(words, AT_SCALE + 3),
        }
    } else {
        Scale {
            rule: 0,
            weight: 0,
            moisture: 0,
            speed: 0,
            draw: 0,
        }
    }
}

// Its five words.
#[tactic(auto, unfolding(crate::specs::Scale::scale_words))]
fn scale_words(scale: Scale) -> [u32; 5]
    ensures { result ≡ scale_words scale }
{
    [
        scale.weight,
        scale.moisture,
        scale.speed,
        scale.draw,
        scale.rule,
    ]
}

// Writes the scale; nothing where the slice is too short for the common record.
#[tactic(auto, using(words::proofs::Lent::part_fits), unfolding(crate::specs::Scale::put_scale, crate::specs::Scale::scale_words, words::specs::Layout::at_scale))]
pub fn write_scale(words: &mut [u32], scale: Scale)
    ensures { words.new ≡ put_scale words.old scale }
{
    if COMMON_SIZE <= words.len() {
        write_part(words, AT_SCALE, &scale_words(scale));
    }
}
