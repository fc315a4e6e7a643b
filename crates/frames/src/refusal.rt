// The refusals of a frame: the first question that it fails.
ghost use Rattle.std.specs.Prelude.{◌≡◌};
ghost use Rattle.frames.specs.Refusal.{number_of};

use std::error::Error;
use std::fmt;

#[derive(Clone, Copy, Debug, PartialEq, Eq)]
pub enum FrameRefusal {
    // Length bytes, or bytes that they count, are missing.
    NotWhole = 13,
    // There is no such kind of frame.
    NoKind = 14,
    // The length is not the kind's own.
    WrongLength = 15,
}

impl FrameRefusal {
    // The number of the question.
    pub fn number(self) -> u32
        ensures { result ≡ number_of self }
    {
        self as u32
    }
}

impl fmt::Display for FrameRefusal {
    fn fmt<W: fmt::Write>(&self, f: &mut fmt::Formatter<W>) -> fmt::Result {
        f.write_str(match self {
            FrameRefusal::NotWhole => "bytes of the frame are missing",
            FrameRefusal::NoKind => "there is no such kind of frame",
            FrameRefusal::WrongLength => "the length is not that of the kind",
        })
    }
}

impl Error for FrameRefusal {}
