// The shape of a frame, for reading and for writing: the kinds with their lengths, and where each field starts.
// A new kind is a variant with its number, its length and its row of `try_from`, and an offset for each of its fields.
ghost use Rattle.std.specs.Prelude.{◌≡◌};
ghost use Rattle.frames.specs.Shape.{length_of, size_of};
ghost use Rattle.frames.specs.Kind.{kind_number, kind_of};

use crate::refusal::FrameRefusal;

// The kinds, by their numbers.
#[derive(Clone, Copy, Debug, PartialEq, Eq)]
pub(crate) enum Kind {
    Open = 1,
    Submit = 2,
    Step = 3,
    Take = 4,
    Run = 5,
    OpenScaled = 6,
    OpenRuled = 7,
    Withdraw = 8,
}

impl Kind {
    // The number of a kind.
    pub(crate) fn number(self) -> u16
        ensures { result ≡ kind_number self }
    {
        self as u16
    }

    // The length of a kind's frames, which counts what follows its own two bytes.
    pub(crate) fn length(self) -> u16
        ensures { result ≡ length_of (kind_number self) }
    {
        match self {
            Kind::Open => 8,
            Kind::Submit => 26,
            Kind::Step | Kind::Take | Kind::Run | Kind::Withdraw => 3,
            Kind::OpenScaled => 16,
            Kind::OpenRuled => 17,
        }
    }
}

// Question 14: there is a kind, 1 to 8.
impl TryFrom<u16> for Kind {
    type Error = FrameRefusal;

    ghost try_from_gives = { λ number kind. kind ≡ kind_of number };

    #[tactic(auto, unfolding(crate::specs::Kind::kind_of))]
    fn try_from(number: u16) -> Result<Kind, FrameRefusal> {
        match number {
            1 => Ok(Kind::Open),
            2 => Ok(Kind::Submit),
            3 => Ok(Kind::Step),
            4 => Ok(Kind::Take),
            5 => Ok(Kind::Run),
            6 => Ok(Kind::OpenScaled),
            7 => Ok(Kind::OpenRuled),
            8 => Ok(Kind::Withdraw),
            _ => Err(FrameRefusal::NoKind),
        }
    }
}

// What every frame begins with. An offset is counted from the first byte of the frame.
pub(crate) const AT_LENGTH: u8 = 0;

pub(crate) const AT_KIND: u8 = 2;

// The fields of every opening.
pub(crate) const AT_PLACES: u8 = 4;

pub(crate) const AT_LIMIT: u8 = 6;

// The factors, behind them, in an opening with a rule as in one without.
pub(crate) const AT_WEIGHT_FACTOR: u8 = 10;

pub(crate) const AT_MOISTURE_FACTOR: u8 = 12;

pub(crate) const AT_SPEED_FACTOR: u8 = 14;

pub(crate) const AT_DRAW_FACTOR: u8 = 16;

// The rule, behind these.
pub(crate) const AT_RULE: u8 = 18;

// The station, in every frame that names one.
pub(crate) const AT_STATION: u8 = 4;

// The other fields of a submission.
pub(crate) const AT_CALL: u8 = 5;

pub(crate) const AT_GRADE: u8 = 6;

pub(crate) const AT_WEIGHT: u8 = 8;

pub(crate) const AT_MOISTURE: u8 = 12;

pub(crate) const AT_SPEED: u8 = 16;

pub(crate) const AT_DRAW: u8 = 20;

pub(crate) const AT_CURVE: u8 = 24;

// The bytes of the longest frame, as many as a writing gives back.
pub(crate) const LONGEST: usize = 28;

// The bytes of a whole frame of this length: the two of the length, and those that it counts.
pub(crate) fn size_of(length: u16) -> usize
    ensures { result ≡ size_of length }
{
    2 + usize::from(length)
}
