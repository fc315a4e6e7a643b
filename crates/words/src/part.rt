// Parts of a slice: some words from one offset on.
ghost use Rattle.std.specs.Prelude.{◌≡◌};
ghost use Rattle.words.specs.Part.{point_from, put_part};

use crate::word::get;
use points::point::Point;
use points::word::point_at;

// The point of five words from word k on.
#[tactic(auto, unfolding(crate::specs::Part::point_from, crate::specs::Words::get))]
pub fn point_from(part: &[u32], k: u32) -> Point
    ensures { result ≡ point_from part.now k }
{
    let at = k as usize;
    point_at(
        get(part, at),
        get(part, at + 1),
        get(part, at + 2),
        get(part, at + 3),
        get(part, at + 4),
    )
}

// Writes words from one offset on; nothing where they do not all fit.
#[tactic(auto, using(crate::proofs::Lent::part_fits, crate::proofs::Lent::part_past))]
pub fn write_part(words: &mut [u32], at: usize, from: &[u32])
    ensures { words.new ≡ put_part words.old from.now at }
{
    if at <= words.len() && from.len() <= words.len() - at {
        words[at..at + from.len()].copy_from_slice(from);
    }
}
