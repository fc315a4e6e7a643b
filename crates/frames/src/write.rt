// Writing a frame: 28 bytes, unused ones zero, with the count used.
#![tactic(auto, unfolding(crate::specs::Write::head_bytes, crate::specs::Write::open_start, crate::specs::Write::factors_bytes, crate::specs::Write::scaled_start, crate::specs::Write::submission_start, crate::specs::Write::submission_end, crate::specs::Write::frame_bytes, crate::specs::Write::padded, crate::specs::Write::written_bytes, crate::specs::Write::written_of, crate::specs::Write::counted, crate::specs::Write::station_written, crate::specs::Write::submission_from, crate::specs::Write::frame_from, numbers::specs::Bytes::put_number, numbers::specs::Bytes::bytes_of))]

ghost use Rattle.std.specs.Prelude.{◌≡◌};
ghost use Rattle.frames.specs.declared.frame.Frame.{Frame};
ghost use Rattle.frames.specs.Kind.{kind_number};
ghost use Rattle.frames.specs.Write.{head_bytes, open_start, scaled_start, submission_start, padded, counted, station_written, written_of, submission_from, frame_from, write_of, written_told};

use crate::frame::{Factors, Frame, Submission};
use crate::refusal::FrameRefusal;
use crate::shape::{self, Kind, size_of};
use numbers::number::Number;

// The bytes of a frame, and how many of them are used. Not a slice or a `Vec`: a writer gives back 28 bytes with the count used (Rules 9.6).
#[derive(Clone, Copy)]
pub struct Written {
    pub bytes: [u8; shape::LONGEST],
    pub count: usize,
}

// Every field that a frame can have; `call` is the kind of a submitted call.
#[derive(Clone, Copy)]
pub struct Fields {
    pub places: u16,
    pub limit: u32,
    pub factors: Factors,
    pub rule: u8,
    pub station: u8,
    pub call: u8,
    pub grade: u16,
    pub weight: i32,
    pub moisture: i32,
    pub speed: i32,
    pub draw: i32,
    pub curve: u32,
}

// Length and kind, and zeros.
fn head_bytes(kind: Kind) -> [u8; shape::LONGEST]
    ensures { result ≡ padded (head_bytes (kind_number kind)) }
{
    let mut bytes = [0; shape::LONGEST];
    kind.length().put(&mut bytes, shape::AT_LENGTH);
    kind.number().put(&mut bytes, shape::AT_KIND);
    bytes
}

// These bytes, with the count that a frame of this kind uses.
fn counted(kind: Kind, bytes: [u8; shape::LONGEST]) -> Written
    ensures { result ≡ counted (kind_number kind) bytes }
{
    Written {
        bytes,
        count: size_of(kind.length()),
    }
}

// The bytes of an opening of this kind up to its limit.
fn open_start(kind: Kind, places: u16, limit: u32) -> [u8; shape::LONGEST]
    ensures { result ≡ padded (open_start (kind_number kind) places limit) }
{
    let mut bytes = head_bytes(kind);
    places.put(&mut bytes, shape::AT_PLACES);
    limit.put(&mut bytes, shape::AT_LIMIT);
    bytes
}

// An opening without factors, written.
fn write_open(places: u16, limit: u32) -> Written
    ensures { result ≡ written_of (Frame.Open places limit) }
{
    counted(Kind::Open, open_start(Kind::Open, places, limit))
}

// The bytes of an opening of this kind up to its factors.
fn scaled_start(kind: Kind, places: u16, limit: u32, factors: Factors) -> [u8; shape::LONGEST]
    ensures { result ≡ padded (scaled_start (kind_number kind) places limit factors) }
{
    let mut bytes = open_start(kind, places, limit);
    factors.weight.put(&mut bytes, shape::AT_WEIGHT_FACTOR);
    factors.moisture.put(&mut bytes, shape::AT_MOISTURE_FACTOR);
    factors.speed.put(&mut bytes, shape::AT_SPEED_FACTOR);
    factors.draw.put(&mut bytes, shape::AT_DRAW_FACTOR);
    bytes
}

// An opening with factors, written.
fn write_open_scaled(places: u16, limit: u32, factors: Factors) -> Written
    ensures { result ≡ written_of (Frame.OpenScaled places limit factors) }
{
    counted(
        Kind::OpenScaled,
        scaled_start(Kind::OpenScaled, places, limit, factors),
    )
}

// An opening with factors and a rule, written.
fn write_open_ruled(places: u16, limit: u32, factors: Factors, rule: u8) -> Written
    ensures { result ≡ written_of (Frame.OpenRuled places limit factors rule) }
{
    let mut bytes = scaled_start(Kind::OpenRuled, places, limit, factors);
    rule.put(&mut bytes, shape::AT_RULE);
    counted(Kind::OpenRuled, bytes)
}

// The bytes of a submission up to its grade.
fn submission_start(s: Submission) -> [u8; shape::LONGEST]
    ensures { result ≡ padded (submission_start s) }
{
    let mut bytes = head_bytes(Kind::Submit);
    s.station.put(&mut bytes, shape::AT_STATION);
    s.kind.put(&mut bytes, shape::AT_CALL);
    s.grade.put(&mut bytes, shape::AT_GRADE);
    bytes
}

// A submission, written.
fn write_submission(s: Submission) -> Written
    ensures { result ≡ written_of (Frame.Submit s) }
{
    let mut bytes = submission_start(s);
    s.weight.put(&mut bytes, shape::AT_WEIGHT);
    s.moisture.put(&mut bytes, shape::AT_MOISTURE);
    s.speed.put(&mut bytes, shape::AT_SPEED);
    s.draw.put(&mut bytes, shape::AT_DRAW);
    s.curve.put(&mut bytes, shape::AT_CURVE);
    counted(Kind::Submit, bytes)
}

// A frame of a station alone, written.
fn write_station(kind: Kind, station: u8) -> Written
    ensures { result ≡ station_written (kind_number kind) station }
{
    let mut bytes = head_bytes(kind);
    station.put(&mut bytes, shape::AT_STATION);
    counted(kind, bytes)
}

// Writes a frame.
pub fn write_frame(frame: Frame) -> Written
    ensures { result ≡ written_of frame }
{
    match frame {
        Frame::Open { places, limit } => write_open(places, limit),
        Frame::Submit(submission) => write_submission(submission),
        Frame::Step { station } => write_station(Kind::Step, station),
        Frame::Take { station } => write_station(Kind::Take, station),
        Frame::Run { station } => write_station(Kind::Run, station),
        Frame::OpenScaled {
            places,
            limit,
            factors,
        } => write_open_scaled(places, limit, factors),
        Frame::OpenRuled {
            places,
            limit,
            factors,
            rule,
        } => write_open_ruled(places, limit, factors, rule),
        Frame::Withdraw { station } => write_station(Kind::Withdraw, station),
    }
}

impl Fields {
    // The submission of these fields.
    fn submission(self) -> Submission
        ensures { result ≡ submission_from self }
    {
        Submission {
            station: self.station,
            kind: self.call,
            grade: self.grade,
            weight: self.weight,
            moisture: self.moisture,
            speed: self.speed,
            draw: self.draw,
            curve: self.curve,
        }
    }

    // The frame of a kind with its own of these fields.
    fn frame(self, kind: Kind) -> Frame
        ensures { result ≡ frame_from (kind_number kind) self }
    {
        let Fields {
            places,
            limit,
            factors,
            rule,
            station,
            ..
        } = self;
        match kind {
            Kind::Open => Frame::Open { places, limit },
            Kind::Submit => Frame::Submit(self.submission()),
            Kind::Step => Frame::Step { station },
            Kind::Take => Frame::Take { station },
            Kind::Run => Frame::Run { station },
            Kind::OpenScaled => Frame::OpenScaled {
                places,
                limit,
                factors,
            },
            Kind::OpenRuled => Frame::OpenRuled {
                places,
                limit,
                factors,
                rule,
            },
            Kind::Withdraw => Frame::Withdraw { station },
        }
    }
}

// Writes the frame of a kind with its own of these fields; a refusal for a kind that is none.
#[tactic(auto, using(crate::proofs::FieldLaws::write_refused, crate::proofs::FieldLaws::write_found))]
pub fn write_fields(kind: u16, fields: Fields) -> Result<Written, FrameRefusal>
    ensures { result ≡ write_of kind fields }
{
    let kind = Kind::try_from(kind)?;
    Ok(write_frame(fields.frame(kind)))
}

// The bytes of a writing: where it is refused all are zero and the count is 0 (Rules 9.6).
pub fn written_told(outcome: Result<Written, FrameRefusal>) -> Written
    ensures { result ≡ written_told outcome }
{
    outcome.unwrap_or(Written {
        bytes: [0; shape::LONGEST],
        count: 0,
    })
}
