// Reading a frame: questions 13 to 15, then the frame and the position after it.
#![tactic(auto, unfolding(crate::specs::Read::is_whole, crate::specs::Read::kind_asked, crate::specs::Read::submission_in, crate::specs::Read::factors_at, crate::specs::Read::frame_in, crate::specs::Read::read_of, numbers::specs::Bytes::number_at))]

ghost use Rattle.std.specs.Prelude.{◌≡◌, ◌+◌, ◌<◌, length};
ghost use Rattle.frames.specs.Read.{is_whole, kind_asked, submission_in, factors_at, frame_in, read_rest, read_of, position_after};
ghost use Rattle.frames.specs.Kind.{kind_number};

use crate::frame::{Factors, Frame, Submission};
use crate::refusal::FrameRefusal;
use crate::shape::{self, Kind, size_of};
use numbers::number::Number;

// Question 13: both length bytes and all the bytes they count are there.
fn is_whole(rest: &[u8]) -> bool
    ensures { result ≡ is_whole rest.now }
{
    2 <= rest.len() && size_of(u16::get(rest, shape::AT_LENGTH)) <= rest.len()
}

// Question 14: the kind, if there is one.
fn kind_asked(rest: &[u8]) -> Result<Kind, FrameRefusal>
    ensures { result ≡ kind_asked rest.now }
{
    if u16::get(rest, shape::AT_LENGTH) < 2 {
        return Err(FrameRefusal::NoKind);
    }
    Kind::try_from(u16::get(rest, shape::AT_KIND))
}

// The submission whose frame starts the bytes.
fn submission_in(rest: &[u8]) -> Submission
    ensures { result ≡ submission_in rest.now }
{
    Submission {
        station: u8::get(rest, shape::AT_STATION),
        kind: u8::get(rest, shape::AT_CALL),
        grade: u16::get(rest, shape::AT_GRADE),
        weight: i32::get(rest, shape::AT_WEIGHT),
        moisture: i32::get(rest, shape::AT_MOISTURE),
        speed: i32::get(rest, shape::AT_SPEED),
        draw: i32::get(rest, shape::AT_DRAW),
        curve: u32::get(rest, shape::AT_CURVE),
    }
}

// The factors of the opening whose frame starts the bytes.
fn factors_at(rest: &[u8]) -> Factors
    ensures { result ≡ factors_at rest.now }
{
    Factors {
        weight: u16::get(rest, shape::AT_WEIGHT_FACTOR),
        moisture: u16::get(rest, shape::AT_MOISTURE_FACTOR),
        speed: u16::get(rest, shape::AT_SPEED_FACTOR),
        draw: u16::get(rest, shape::AT_DRAW_FACTOR),
    }
}

// The frame of a kind that starts the bytes.
fn frame_in(kind: Kind, rest: &[u8]) -> Frame
    ensures { result ≡ frame_in (kind_number kind) rest.now }
{
    let station = u8::get(rest, shape::AT_STATION);
    let places = u16::get(rest, shape::AT_PLACES);
    let limit = u32::get(rest, shape::AT_LIMIT);
    match kind {
        Kind::Open => Frame::Open { places, limit },
        Kind::Submit => Frame::Submit(submission_in(rest)),
        Kind::Step => Frame::Step { station },
        Kind::Take => Frame::Take { station },
        Kind::Run => Frame::Run { station },
        Kind::OpenScaled => Frame::OpenScaled {
            places,
            limit,
            factors: factors_at(rest),
        },
        Kind::OpenRuled => Frame::OpenRuled {
            places,
            limit,
            factors: factors_at(rest),
            rule: u8::get(rest, shape::AT_RULE),
        },
        Kind::Withdraw => Frame::Withdraw { station },
    }
}

// What is read of the bytes from a position on: the frame and the position after it, or the first question that fails.
#[tactic(auto, using(crate::proofs::QuestionLaws::whole_there, crate::proofs::QuestionLaws::read_refused, crate::proofs::QuestionLaws::read_wrong, crate::proofs::QuestionLaws::read_found), unfolding(crate::specs::Read::read_rest))]
fn read_rest(rest: &[u8], at: usize) -> Result<(Frame, usize), FrameRefusal>
    requires { at + length rest.now < 18446744073709551616 }
    ensures { result ≡ read_rest rest.now at }
{
    if !is_whole(rest) {
        return Err(FrameRefusal::NotWhole);
    }
    let kind = kind_asked(rest)?;
    // Question 15: the length is the kind's own.
    if u16::get(rest, shape::AT_LENGTH) != kind.length() {
        return Err(FrameRefusal::WrongLength);
    }
    Ok((frame_in(kind, rest), at + size_of(kind.length())))
}

// Reads the frame at a position; nothing where no byte is left.
pub fn read_frame(bytes: &[u8], at: usize) -> Option<Result<(Frame, usize), FrameRefusal>>
    ensures { result ≡ read_of bytes.now at }
{
    if at < bytes.len() {
        Some(read_rest(&bytes[at..], at))
    } else {
        None
    }
}

// The position after a reading at a position: past the frame; a refusal and an end move nothing. The refusal may be of any kind, a number too.
pub fn position_after<R: Drop>(reading: Option<Result<(Frame, usize), R>>, at: usize) -> usize
    ensures { result ≡ position_after reading at }
{
    match reading {
        Some(Ok((_, next))) => next,
        Some(Err(_)) | None => at,
    }
}
