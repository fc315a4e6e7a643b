// The refusals: the first question that a call fails.
ghost use Rattle.std.specs.Prelude.{◌≡◌};
ghost use Rattle.words.specs.Refusal.{number_of, asked, number_told};

use std::error::Error;
use std::fmt;

#[derive(Clone, Copy, Debug, PartialEq, Eq)]
pub enum Refusal {
    // The places are out of range.
    BadPlaces = 1,
    // The change limit is out of range.
    BadLimit = 2,
    // The slice is too short for the places.
    ShortSlice = 3,
    // The slice is not opened.
    NotOpened = 4,
    // There is no such station.
    NoStation = 5,
    // The station is not idle.
    NotIdle = 6,
    // There is no such kind of call.
    NoKind = 7,
    // The point is out of range.
    BadPoint = 8,
    // The curve of an add is out of range.
    BadCurve = 9,
    // The station has no unfinished call.
    NotUnfinished = 10,
    // A field that the call needs is out of range.
    Unsound = 11,
    // No answer waits.
    NothingWaits = 12,
    // A factor is out of range.
    BadFactor = 17,
    // There is no such rule.
    BadRule = 20,
}

impl Refusal {
    // The number of the question.
    pub fn number(self) -> u32
        ensures { result ≡ number_of self }
    {
        self as u32
    }
}

// A question: the refusal where it fails.
pub fn ask(passes: bool, refusal: Refusal) -> Result<(), Refusal>
    ensures { result ≡ asked passes refusal }
{
    if passes { Ok(()) } else { Err(refusal) }
}

// The number of a call: that of its refusal, or 0.
pub fn number_told<T: Drop>(outcome: Result<T, Refusal>) -> u32
    ensures { result ≡ number_told outcome }
{
    match outcome {
        Ok(_) => 0,
        Err(refusal) => refusal.number(),
    }
}

impl fmt::Display for Refusal {
    fn fmt<W: fmt::Write>(&self, f: &mut fmt::Formatter<W>) -> fmt::Result {
        f.write_str(match self {
            Refusal::BadPlaces => "the places are out of range",
            Refusal::BadLimit => "the change limit is out of range",
            Refusal::ShortSlice => "the slice is too short for the places",
            Refusal::NotOpened => "the slice is not opened",
            Refusal::NoStation => "there is no such station",
            Refusal::NotIdle => "the station is not idle",
            Refusal::NoKind => "there is no such kind of call",
            Refusal::BadPoint => "the point is out of range",
            Refusal::BadCurve => "the curve of an add is out of range",
            Refusal::NotUnfinished => "the station has no unfinished call",
            Refusal::Unsound => "a field that the call needs is out of range",
            Refusal::NothingWaits => "no answer waits",
            Refusal::BadFactor => "a factor is out of range",
            Refusal::BadRule => "there is no such rule",
        })
    }
}

impl Error for Refusal {}
