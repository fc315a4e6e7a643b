// The target of a station's last search, in four words of the common record.
ghost use Rattle.std.specs.Prelude.{◌≡◌};
ghost use Rattle.stations.specs.Target.{pair_of, target_of, target_words, no_target, target_at, put_target};

use crate::station::{station_words, write_station};
use points::point::{Point, on_axis};
use points::word::{point_at, word};
use words::layout::{NONE, at_target};

// How many moistures there are.
const MOISTURES: u32 = 10001;

// The word of a grade and a moisture; that for none where one of them is out of range.
#[tactic(auto, using(crate::proofs::TargetLaws::grade_most, crate::proofs::TargetLaws::moisture_most), unfolding(crate::specs::Target::pair_of))]
fn pair_of(p: Point) -> u32
    ensures { result ≡ pair_of p }
{
    if on_axis(p, 1) & on_axis(p, 3) {
        word(p, 1) * MOISTURES + word(p, 3)
    } else {
        NONE
    }
}

// The target of four words, whatever they are.
#[tactic(auto, unfolding(crate::specs::Target::target_of))]
fn target_of(part: &[u32; 4]) -> Point
    ensures { result ≡ target_of part.now }
{
    let pair = part[3];
    point_at(
        pair / MOISTURES,
        part[0],
        pair % MOISTURES,
        part[1],
        part[2],
    )
}

// The four words of a target.
#[tactic(auto, unfolding(crate::specs::Target::target_words))]
fn target_words(p: Point) -> [u32; 4]
    ensures { result ≡ target_words p }
{
    [word(p, 2), word(p, 4), word(p, 5), pair_of(p)]
}

// The target of no station.
fn no_target() -> Point
    ensures { result ≡ no_target }
{
    point_at(0, 0, 0, 0, 0)
}

// The target of the last search of a station.
#[tactic(auto, using(crate::proofs::PartLaws::target_read, crate::proofs::PartLaws::target_lacks))]
pub fn read_target(words: &[u32], s: u32) -> Point
    ensures { result ≡ target_at words.now s }
{
    match station_words(words, s, at_target(s)) {
        Some(part) => target_of(part),
        None => no_target(),
    }
}

// Writes the target of a station's search.
#[tactic(auto, using(crate::proofs::PartLaws::target_written))]
pub fn write_target(words: &mut [u32], s: u32, p: Point)
    ensures { words.new ≡ put_target words.old s p }
{
    write_station(words, s, at_target(s), &target_words(p));
}
