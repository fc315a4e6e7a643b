// A frame applied to an index: the call that it holds, made on the lent words.
ghost use Rattle.std.specs.Prelude.{◌≡◌};
ghost use Rattle.lines.specs.Apply.{point_of, scale_of, numbered, apply_of, apply_words};

use frames::frame::{Factors, Frame, Submission};
use openings::open::open;
use points::point::Point;
use points::rule::PLAIN_RULE;
use points::scale::{Scale, plain_scale};
use runs::run::run;
use stations::answer::Answer;
use steps::step::step;
use steps::withdraw::withdraw;
use submissions::submit::submit;
use takings::take::take;
use words::refusal::Refusal;

// What a frame gives: the answer, where its call takes one, or the refusal of its call.
pub type Outcome = Result<Option<Answer>, Refusal>;

// The point of a submission. It is no `From`, since both types are of crates below.
#[tactic(auto, unfolding(crate::specs::Apply::point_of))]
fn point_of(s: Submission) -> Point
    ensures { result ≡ point_of s }
{
    Point {
        grade: i32::from(s.grade),
        weight: s.weight,
        moisture: s.moisture,
        speed: s.speed,
        draw: s.draw,
    }
}

// The scale of a rule and four factors; no `From`, as above.
#[tactic(auto, unfolding(crate::specs::Apply::scale_of))]
fn scale_of(rule: u32, factors: Factors) -> Scale
    ensures { result ≡ scale_of rule factors }
{
    Scale {
        rule,
        weight: u32::from(factors.weight),
        moisture: u32::from(factors.moisture),
        speed: u32::from(factors.speed),
        draw: u32::from(factors.draw),
    }
}

// Makes the call of a frame on the words.
#[tactic(auto, using(crate::proofs::ApplyLaws::refused, crate::proofs::ApplyLaws::accepted), unfolding(crate::specs::Apply::submission_reply, crate::specs::Apply::apply_of, crate::specs::Apply::apply_words))]
pub fn apply_frame(words: &mut [u32], frame: Frame) -> Outcome
    ensures { (numbered result ≡ apply_of words.old frame) × (words.new ≡ apply_words words.old frame) }
{
    match frame {
        Frame::Open { places, limit } => open(words, u32::from(places), limit, plain_scale())?,
        Frame::Submit(s) => submit(
            words,
            u32::from(s.station),
            u32::from(s.kind),
            point_of(s),
            s.curve,
        )?,
        Frame::Step { station } => step(words, u32::from(station))?,
        Frame::Take { station } => return Ok(Some(take(words, u32::from(station))?)),
        Frame::Run { station } => run(words, u32::from(station))?,
        Frame::OpenScaled {
            places,
            limit,
            factors,
        } => open(
            words,
            u32::from(places),
            limit,
            scale_of(PLAIN_RULE, factors),
        )?,
        Frame::OpenRuled {
            places,
            limit,
            factors,
            rule,
        } => open(
            words,
            u32::from(places),
            limit,
            scale_of(u32::from(rule), factors),
        )?,
        Frame::Withdraw { station } => withdraw(words, u32::from(station))?,
    }
    Ok(None)
}
