// The call of a station, with the best record of its search so far.
ghost use Rattle.std.specs.Prelude.{◌≡◌};
ghost use Rattle.stations.specs.Call.{best_of, best_words, no_best, best_sound, call_of, call_words, no_call, call_at, kind_in, curve_for, call_sound, put_best, put_asked, put_call};

use crate::station::{point_words, station_words, write_station};
use points::number::in_range_by;
use points::point::Point;
use points::word::point_at;
use words::layout::{MOST_CURVE, at_best, at_call};
use words::part::point_from;
use words::word::curve_in;

// The kinds of a call. Numbers and no enum: `call_of` takes any word for a kind, and `kind_in` tells which are.
pub const ADD_KIND: u32 = 1;

pub const REMOVE_KIND: u32 = 2;

pub const CONTAINS_KIND: u32 = 3;

pub const NEAREST_KIND: u32 = 4;

// The best record of a search so far; its curve is 0 where there is none. No Option: where there is none, `best_of` and `best_words` keep the point of its words.
#[derive(Clone, Copy)]
pub struct Best {
    pub curve: u32,
    pub point: Point,
}

// A call; `asof` is the number of changes at its submission.
#[derive(Clone, Copy)]
pub struct Call {
    pub kind: u32,
    pub point: Point,
    pub curve: u32,
    pub asof: u32,
    pub best: Best,
}

// No best record.
pub fn no_best() -> Best
    ensures { result ≡ no_best }
{
    Best {
        curve: 0,
        point: point_at(0, 0, 0, 0, 0),
    }
}

impl Best {
    // The best record of six words.
    #[tactic(auto, unfolding(crate::specs::Call::best_of))]
    fn from_words(part: &[u32; 6]) -> Best
        ensures { result ≡ best_of part.now }
    {
        Best {
            curve: part[0],
            point: point_from(part, 1),
        }
    }

    // Its six words.
    #[tactic(auto, unfolding(crate::specs::Call::best_words, words::specs::Part::point_words))]
    fn to_words(self) -> [u32; 6]
        ensures { result ≡ best_words self }
    {
        let [grade, weight, moisture, speed, draw] = point_words(self.point);
        [self.curve, grade, weight, moisture, speed, draw]
    }

    // Whether there is none, or it is in range under the rule.
    #[tactic(auto, unfolding(crate::specs::Call::best_sound))]
    fn is_sound(self, rule: u32) -> bool
        ensures { result ≡ best_sound rule self }
    {
        (self.curve == 0) | ((self.curve <= MOST_CURVE) & in_range_by(rule, self.point))
    }
}

impl Call {
    // The call of eight words, with its best.
    #[tactic(auto, unfolding(crate::specs::Call::call_of))]
    fn from_words(part: &[u32; 8], best: Best) -> Call
        ensures { result ≡ call_of part.now best }
    {
        Call {
            kind: part[0],
            point: point_from(part, 1),
            curve: part[6],
            asof: part[7],
            best,
        }
    }

    // Its eight words, but for its best.
    #[tactic(auto, unfolding(crate::specs::Call::call_words, words::specs::Part::point_words))]
    fn to_words(self) -> [u32; 8]
        ensures { result ≡ call_words self }
    {
        let [grade, weight, moisture, speed, draw] = point_words(self.point);
        [
            self.kind, grade, weight, moisture, speed, draw, self.curve, self.asof,
        ]
    }
}

// A call of no kind.
fn no_call() -> Call
    ensures { result ≡ no_call }
{
    Call {
        kind: 0,
        point: point_at(0, 0, 0, 0, 0),
        curve: 0,
        asof: 0,
        best: no_best(),
    }
}

// The call of a station; of no kind where there is no such station.
#[tactic(auto, using(crate::proofs::PartLaws::call_read, crate::proofs::PartLaws::call_lacks, crate::proofs::PartLaws::best_lacks))]
pub fn read_call(words: &[u32], s: u32) -> Call
    ensures { result ≡ call_at words.now s }
{
    match (
        station_words(words, s, at_call(s)),
        station_words(words, s, at_best(s)),
    ) {
        (Some(part), Some(best)) => Call::from_words(part, Best::from_words(best)),
        _ => no_call(),
    }
}

// Whether there is such a kind.
pub fn kind_in(kind: u32) -> bool
    ensures { result ≡ kind_in kind }
{
    matches!(kind, ADD_KIND..=NEAREST_KIND)
}

// An add has a curve in range, any other kind none.
fn curve_for(kind: u32, curve: u32) -> bool
    ensures { result ≡ curve_for kind curve }
{
    if kind == ADD_KIND {
        curve_in(curve)
    } else {
        curve == 0
    }
}

// Whether every field of a call is in range, under the rule and where so many changes were made.
#[tactic(auto, unfolding(crate::specs::Call::call_sound))]
pub fn call_sound(rule: u32, call: Call, changes: u32) -> bool
    ensures { result ≡ call_sound rule call changes }
{
    kind_in(call.kind)
        & in_range_by(rule, call.point)
        & curve_for(call.kind, call.curve)
        & (call.asof <= changes)
        & call.best.is_sound(rule)
}

// Writes the best record of a station.
#[tactic(auto, using(crate::proofs::PartLaws::best_written))]
pub fn write_best(words: &mut [u32], s: u32, best: Best)
    ensures { words.new ≡ put_best words.old s best }
{
    write_station(words, s, at_best(s), &best.to_words());
}

// Writes a call but for its best.
#[tactic(auto, using(crate::proofs::PartLaws::asked_written))]
fn write_asked(words: &mut [u32], s: u32, call: Call)
    ensures { words.new ≡ put_asked words.old s call }
{
    write_station(words, s, at_call(s), &call.to_words());
}

// Writes the call of a station.
#[tactic(auto, unfolding(crate::specs::Call::put_call))]
pub fn write_call(words: &mut [u32], s: u32, call: Call)
    ensures { words.new ≡ put_call words.old s call }
{
    write_asked(words, s, call);
    write_best(words, s, call.best);
}
