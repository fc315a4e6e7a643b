// The stations: which there are, and their states.
ghost use Rattle.std.specs.Prelude.{◌≡◌, ◌+◌, ◌&&◌, [], true, false, cond, leb, length, MatchOption};
ghost use Rattle.words.specs.Words.{part};
ghost use Rattle.words.specs.Part.{point_words, put_part};
ghost use Rattle.stations.specs.Station.{has_station, is_idle, is_unfinished, is_waiting, submitted, answered, emptied, state_at, put_state};

use points::point::Point;
use points::word::word;
use words::layout::{NONE, RECORDS, STATIONS, at_station};
use words::part::write_part;
use words::word::{get, put};

// The states: no call and no answer, an unfinished call, an answer that waits.
const IDLE: u32 = 0;

const UNFINISHED: u32 = 1;

const WAITING: u32 = 2;

// What a station is doing, with methods that hand the new state back. No enum: `state_at` takes any word for a state, and leaves it to the questions.
#[derive(Clone, Copy)]
pub struct State {
    pub word: u32,
}

impl State {
    // Whether there is no call and no answer.
    pub fn is_idle(self) -> bool
        ensures { result ≡ is_idle self }
    {
        self.word == IDLE
    }

    // Whether there is an unfinished call.
    pub fn is_unfinished(self) -> bool
        ensures { result ≡ is_unfinished self }
    {
        self.word == UNFINISHED
    }

    // Whether an answer waits.
    pub(crate) fn is_waiting(self) -> bool
        ensures { result ≡ is_waiting self }
    {
        self.word == WAITING
    }

    // The state after a submission.
    pub fn submitted(mut self) -> State
        ensures { result ≡ submitted self }
    {
        self.word = UNFINISHED;
        self
    }

    // The state after the step that answers.
    pub fn answered(mut self) -> State
        ensures { result ≡ answered self }
    {
        self.word = WAITING;
        self
    }

    // The state after a taking: idle.
    pub fn emptied(mut self) -> State
        ensures { result ≡ emptied self }
    {
        self.word = IDLE;
        self
    }
}

// Whether the station is one of the eight, in a slice that has their records.
#[tactic(auto, unfolding(crate::specs::Station::has_station))]
pub(crate) fn has_station(words: &[u32], s: u32) -> bool
    ensures { result ≡ has_station words.now s }
{
    (s < STATIONS) & (RECORDS <= words.len())
}

// The five words of a point.
#[tactic(auto, unfolding(words::specs::Part::point_words))]
pub(crate) fn point_words(p: Point) -> [u32; 5]
    ensures { result ≡ point_words p [] }
{
    [word(p, 1), word(p, 2), word(p, 3), word(p, 4), word(p, 5)]
}

// N words of a station from an offset on, where there is such a station and the slice has them.
pub(crate) fn station_words<const N: usize>(words: &[u32], s: u32, at: usize) -> Option<&[u32; N]>
    ensures { MatchOption result ((has_station words.now s && leb (at + N) (length words.now)) ≡ false) (λ found. (has_station words.now s ≡ true) × (found.now ≡ part words.now at N)) }
{
    if has_station(words, s) {
        words.get(at..)?.first_chunk()
    } else {
        None
    }
}

// Writes words of a station from an offset on.
pub(crate) fn write_station(words: &mut [u32], s: u32, at: usize, from: &[u32])
    ensures { words.new ≡ cond (has_station words.old s) (put_part words.old from.now at) words.old }
{
    if has_station(words, s) {
        write_part(words, at, from);
    }
}

// The state of a station.
#[tactic(auto, unfolding(crate::specs::Station::state_at))]
pub fn read_state(words: &[u32], s: u32) -> State
    ensures { result ≡ state_at words.now s }
{
    if has_station(words, s) {
        State {
            word: get(words, at_station(s)),
        }
    } else {
        State { word: NONE }
    }
}

// Writes the state of a station.
#[tactic(auto, unfolding(crate::specs::Station::put_state))]
pub fn write_state(words: &mut [u32], s: u32, state: State)
    ensures { words.new ≡ put_state words.old s state }
{
    if has_station(words, s) {
        put(words, at_station(s), state.word);
    }
}
