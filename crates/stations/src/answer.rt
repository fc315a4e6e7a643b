// The answer of a station, and the answer that waits there.
ghost use Rattle.std.specs.Prelude.{◌≡◌};
ghost use Rattle.stations.specs.Answer.{answer_of, answer_words, no_answer, code_in, answer_sound, answer_at, put_answer, waiting_at};

use crate::station::{point_words, read_state, station_words, write_station};
use points::number::in_range_by;
use points::point::Point;
use points::square::most_square;
use points::word::point_at;
use words::layout::{MOST_CURVE, at_answer};
use words::part::point_from;
use words::rule::read_rule;

// The codes of an answer: a record was added, the point is held already, no place is left, no change is left, the record was removed, the point is not
// held, the point is held, the nearest record, no record has the grade, the call was withdrawn.
// Numbers and no enum: `answer_of` takes any word for a code, and `code_in` tells which are.
pub const CODE_ADDED: u32 = 1;

pub const CODE_HELD: u32 = 2;

pub const CODE_FULL: u32 = 3;

pub const CODE_SPENT: u32 = 4;

pub const CODE_REMOVED: u32 = 5;

pub const CODE_MISSING: u32 = 6;

pub const CODE_CONTAINED: u32 = 7;

pub const CODE_NEAREST: u32 = 8;

pub const CODE_NONE: u32 = 9;

pub const CODE_WITHDRAWN: u32 = 11;

// An answer: code, point, curve, square.
#[derive(Clone, Copy)]
pub struct Answer {
    pub code: u32,
    pub point: Point,
    pub curve: u32,
    pub square: u64,
}

// How many numbers a word holds. The library has no conversion between a `u64` and two words.
const WORDS: u64 = 4294967296;

impl Answer {
    // The answer of nine words.
    #[tactic(auto, unfolding(crate::specs::Answer::answer_of))]
    fn from_words(part: &[u32; 9]) -> Answer
        ensures { result ≡ answer_of part.now }
    {
        Answer {
            code: part[0],
            point: point_from(part, 1),
            curve: part[6],
            square: u64::from(part[7]) + WORDS * u64::from(part[8]),
        }
    }

    // Its nine words.
    #[tactic(auto, unfolding(crate::specs::Answer::answer_words, words::specs::Part::point_words))]
    fn to_words(self) -> [u32; 9]
        ensures { result ≡ answer_words self }
    {
        let [grade, weight, moisture, speed, draw] = point_words(self.point);
        [
            self.code,
            grade,
            weight,
            moisture,
            speed,
            draw,
            self.curve,
            (self.square % WORDS) as u32,
            (self.square / WORDS) as u32,
        ]
    }
}

// An answer of no code.
fn no_answer() -> Answer
    ensures { result ≡ no_answer }
{
    Answer {
        code: 0,
        point: point_at(0, 0, 0, 0, 0),
        curve: 0,
        square: 0,
    }
}

// The answer of a station; of no code where there is no such station.
#[tactic(auto, using(crate::proofs::PartLaws::answer_read, crate::proofs::PartLaws::answer_lacks))]
fn read_answer(words: &[u32], s: u32) -> Answer
    ensures { result ≡ answer_at words.now s }
{
    match station_words(words, s, at_answer(s)) {
        Some(part) => Answer::from_words(part),
        None => no_answer(),
    }
}

// Whether there is such a code.
fn code_in(code: u32) -> bool
    ensures { result ≡ code_in code }
{
    matches!(code, CODE_ADDED..=CODE_NONE | CODE_WITHDRAWN)
}

// Whether every field of an answer is in range under the rule.
#[tactic(auto, unfolding(crate::specs::Answer::answer_sound))]
pub fn answer_sound(rule: u32, answer: Answer) -> bool
    ensures { result ≡ answer_sound rule answer }
{
    code_in(answer.code)
        & in_range_by(rule, answer.point)
        & (answer.curve <= MOST_CURVE)
        & (answer.square <= most_square(rule))
}

// Writes the answer of a station.
#[tactic(auto, using(crate::proofs::PartLaws::answer_written))]
pub fn write_answer(words: &mut [u32], s: u32, answer: Answer)
    ensures { words.new ≡ put_answer words.old s answer }
{
    write_station(words, s, at_answer(s), &answer.to_words());
}

// The answer that waits in a station. In line, since a taking, a run and C want to know little more than whether there is one, and an answer that is given goes through memory.
#[inline(always)]
#[tactic(auto, unfolding(crate::specs::Answer::waiting_at))]
pub fn read_waiting(words: &[u32], s: u32) -> Option<Answer>
    ensures { result ≡ waiting_at words.now s }
{
    let answer = read_answer(words, s);
    let waits = read_state(words, s).is_waiting() & answer_sound(read_rule(words), answer);
    waits.then_some(answer)
}
