// Submission: questions 4 to 9, and the call that is written at its station. It reads and writes the common record and the station's alone.
ghost use Rattle.std.specs.Prelude.{◌≡◌};
ghost use Rattle.words.specs.Refusal.{number_told};
ghost use Rattle.calls.specs.Reply.{replied};
ghost use Rattle.calls.specs.Submit.{curve_fits, call_for, since_for, begun_track, begun_words, aimed_words, submitted_words, call_question, submit_question, submit_of};

use points::number::in_range_by;
use points::pick::pick;
use points::point::Point;
use stations::call::{ADD_KIND, Call, NEAREST_KIND, kind_in, no_best, write_call};
use stations::common::is_opened;
use stations::counts::{Counts, read_counts};
use stations::station::{read_state, write_state};
use stations::target::write_target;
use stations::track::{DOWN, Track, write_track};
use words::layout::{NONE, STATIONS};
use words::refusal::{Refusal, ask};
use words::rule::read_rule;
use words::word::curve_in;

// Question 9: an add has a curve in range; other kinds disregard the curve.
fn curve_fits(kind: u32, curve: u32) -> bool
    ensures { result ≡ curve_fits kind curve }
{
    (kind != ADD_KIND) | curve_in(curve)
}

// The call as it is kept: the changes at its submission, and no best yet.
#[tactic(auto, unfolding(calls::specs::Submit::call_for))]
fn call_for(changes: u32, kind: u32, point: Point, curve: u32) -> Call
    ensures { result ≡ call_for changes kind point curve }
{
    Call {
        kind,
        point,
        curve: pick(kind == ADD_KIND, curve, 0),
        asof: changes,
        best: no_best(),
    }
}

// The removals at the submission of a nearest; none for another call.
fn since_for(removals: u32, kind: u32) -> u32
    ensures { result ≡ since_for removals kind }
{
    pick(kind == NEAREST_KIND, removals, NONE)
}

// The track of a call that begins: it stands at the root and goes down; nothing is missed.
#[tactic(auto, unfolding(calls::specs::Submit::begun_track))]
fn begun_track(counts: Counts, kind: u32) -> Track
    ensures { result ≡ begun_track counts kind }
{
    Track {
        cursor: counts.root,
        phase: DOWN,
        since: since_for(counts.removals, kind),
        missed: NONE,
    }
}

// The call begins.
#[tactic(auto, unfolding(calls::specs::Submit::begun_words))]
fn begin(words: &mut [u32], s: u32, kind: u32)
    ensures { words.new ≡ begun_words words.old s kind }
{
    let counts = read_counts(words);
    write_track(words, s, begun_track(counts, kind));
}

// The target of a nearest is written for the steps that take leaves from the tree meanwhile; another call leaves it.
#[tactic(auto, unfolding(calls::specs::Submit::aimed_words))]
fn aim(words: &mut [u32], s: u32, kind: u32, point: Point)
    ensures { words.new ≡ aimed_words words.old s kind point }
{
    if kind == NEAREST_KIND {
        write_target(words, s, point);
    }
}

// The call is written at its station, which is then unfinished.
#[tactic(auto, unfolding(calls::specs::Submit::submitted_words))]
fn write_submitted(words: &mut [u32], s: u32, kind: u32, point: Point, curve: u32)
    ensures { words.new ≡ submitted_words words.old s kind point curve }
{
    let state = read_state(words, s);
    let changes = read_counts(words).changes;
    write_call(words, s, call_for(changes, kind, point, curve));
    write_state(words, s, state.submitted());
    begin(words, s, kind);
    aim(words, s, kind, point);
}

// Questions 7 to 9.
#[tactic(auto, unfolding(calls::specs::Submit::call_question))]
fn call_question(rule: u32, kind: u32, point: Point, curve: u32) -> Result<(), Refusal>
    ensures { number_told result ≡ call_question rule kind point curve }
{
    ask(kind_in(kind), Refusal::NoKind)?;
    ask(in_range_by(rule, point), Refusal::BadPoint)?;
    ask(curve_fits(kind, curve), Refusal::BadCurve)
}

// Questions 4 to 9.
#[tactic(auto, unfolding(calls::specs::Submit::submit_question))]
fn submit_question(
    words: &[u32],
    s: u32,
    kind: u32,
    point: Point,
    curve: u32,
) -> Result<(), Refusal>
    ensures { number_told result ≡ submit_question words.now s kind point curve }
{
    ask(is_opened(words), Refusal::NotOpened)?;
    ask(s < STATIONS, Refusal::NoStation)?;
    ask(read_state(words, s).is_idle(), Refusal::NotIdle)?;
    call_question(read_rule(words), kind, point, curve)
}

// Submits a call, or refuses it by the first question that it fails; then no word changes.
#[tactic(auto, using(calls::proofs::Questions::submit_settled))]
pub fn submit(words: &mut [u32], s: u32, kind: u32, point: Point, curve: u32) -> Result<(), Refusal>
    ensures { replied (number_told result) words.new ≡ submit_of words.old s kind point curve }
{
    submit_question(words, s, kind, point, curve)?;
    write_submitted(words, s, kind, point, curve);
    Ok(())
}
