// Single words. Outside of the slice 0 is read, and nothing is written.
ghost use Rattle.std.specs.Prelude.{◌≡◌};
ghost use Rattle.words.specs.Words.{get, put, more};
ghost use Rattle.words.specs.Range.{link_in, curve_in};

use crate::layout::{MOST_CURVE, NONE};

// The word at an offset.
#[tactic(auto, unfolding(crate::specs::Words::get))]
pub fn get(words: &[u32], at: usize) -> u32
    ensures { result ≡ get words.now at }
{
    words.get(at).copied().unwrap_or(0)
}

// Writes the word at an offset. Through `get_mut` it does not prove: what the slice holds after `*word = v` is not told as an update of it.
#[tactic(auto, using(crate::proofs::WordLaws::put_outside), unfolding(crate::specs::Words::put))]
pub fn put(words: &mut [u32], at: usize, v: u32)
    ensures { words.new ≡ put words.old at v }
{
    if at < words.len() {
        words[at] = v;
    }
}

// A link is none or one of so many rows.
#[tactic(auto, unfolding(crate::specs::Range::link_in))]
pub fn link_in(rows: u32, x: u32) -> bool
    ensures { result ≡ link_in rows x }
{
    (x == NONE) | (x < rows)
}

// A curve is 1 to 999,999. The two tests are joined with no jump, as those of every field that a step reads.
#[tactic(auto, unfolding(crate::specs::Range::curve_in))]
pub fn curve_in(curve: u32) -> bool
    ensures { result ≡ curve_in curve }
{
    (1 <= curve) & (curve <= MOST_CURVE)
}

// One more, which stops at the greatest word.
#[tactic(auto, unfolding(crate::specs::Words::more))]
pub fn more(x: u32) -> u32
    ensures { result ≡ more x }
{
    x.saturating_add(1)
}
