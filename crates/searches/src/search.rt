// One step of a nearest call: the tour goes on by five rows, or a missed record is looked at and the tour goes on by three, and the call is answered where nothing
// is left.
ghost use Rattle.std.specs.Prelude.{◌≡◌};
ghost use Rattle.words.specs.Refusal.{number_told};
ghost use Rattle.calls.specs.Reply.{replied};
ghost use Rattle.calls.specs.Search.{seek, aim_at, progress_at, is_finished, found_answer, kept_track, kept_words, search_words, search_of};

use crate::look::look;
use crate::reached::reached_at;
use crate::tour::Tour;
use calls::aim::Aim;
use calls::progress::Progress;
use calls::turn::Turn;
use links::answer::write_answered;
use points::pick::pick;
use points::square::square;
use rows::grades::slot_of;
use stations::answer::{Answer, CODE_NEAREST, CODE_NONE};
use stations::call::{Best, Call, write_best};
use stations::scale::read_scale;
use stations::track::{Track, read_track, write_track};
use words::layout::NONE;
use words::refusal::{Refusal, ask};

// Five tours, or a look and three where a row was missed.
#[tactic(auto, using(calls::proofs::TourLaws::moved_more), unfolding(calls::specs::Search::seek, calls::specs::Tour::toured))]
fn seek(words: &[u32], rows: u32, aim: Aim, p: Progress) -> Progress
    ensures { result ≡ seek words.now rows aim p }
{
    let slot = slot_of(aim.point);
    let most: u32 = pick(p.missed == NONE, 5, 3);
    let tour = Tour {
        words,
        rows,
        slot,
        aim,
    };
    let mut reached = reached_at(words, rows, aim, look(words, rows, aim, p));
    for _ in 0..most {
        reached = tour.move_on(reached);
    }
    reached.progress
}

// What a call looks for, by the factors of the opening.
fn aim_at(words: &[u32], call: Call) -> Aim
    ensures { result ≡ aim_at words.now call }
{
    Aim {
        point: call.point,
        asof: call.asof,
        scale: read_scale(words),
    }
}

// Where the search of station s stands.
#[tactic(auto, unfolding(calls::specs::Search::progress_at))]
fn progress_at(words: &[u32], s: u32, call: Call) -> Progress
    ensures { result ≡ progress_at words.now s call }
{
    let track = read_track(words, s);
    Progress {
        cursor: track.cursor,
        phase: track.phase,
        missed: track.missed,
        best: call.best,
        sound: true,
    }
}

// Whether nothing is left to look at.
fn is_finished(p: Progress) -> bool
    ensures { result ≡ is_finished p }
{
    (p.cursor == NONE) & (p.missed == NONE)
}

// The answer of a finished search: 8 with the best and its square, or 9.
#[tactic(auto, unfolding(calls::specs::Search::found_answer))]
fn found_answer(aim: Aim, best: Best) -> Answer
    ensures { result ≡ found_answer aim best }
{
    if best.curve == 0 {
        Answer {
            code: CODE_NONE,
            point: aim.point,
            curve: 0,
            square: 0,
        }
    } else {
        Answer {
            code: CODE_NEAREST,
            point: best.point,
            curve: best.curve,
            square: square(aim.scale, aim.point, best.point),
        }
    }
}

// The track of a search that is kept.
#[tactic(auto, unfolding(calls::specs::Search::kept_track))]
fn kept_track(p: Progress, track: Track) -> Track
    ensures { result ≡ kept_track p track }
{
    Track {
        cursor: p.cursor,
        phase: p.phase,
        missed: p.missed,
        ..track
    }
}

// The search is kept for its next step.
#[tactic(auto, unfolding(calls::specs::Search::kept_words))]
fn keep(words: &mut [u32], s: u32, p: Progress)
    ensures { words.new ≡ kept_words words.old s p }
{
    let track = read_track(words, s);
    write_best(words, s, p.best);
    write_track(words, s, kept_track(p, track));
}

// A finished search is answered, any other kept.
#[tactic(auto, unfolding(calls::specs::Search::search_words))]
fn write_search(words: &mut [u32], s: u32, aim: Aim, p: Progress)
    ensures { words.new ≡ search_words words.old s aim p }
{
    if is_finished(p) {
        write_answered(words, s, found_answer(aim, p.best));
    } else {
        keep(words, s, p);
    }
}

// One step of a nearest call: refused where a row was not what it must be, and then nothing is written.
#[tactic(auto, unfolding(calls::specs::Search::search_of))]
pub fn search(words: &mut [u32], turn: Turn) -> Result<(), Refusal>
    ensures { replied (number_told result) words.new ≡ search_of words.old turn.rows turn.s turn.call }
{
    let aim = aim_at(words, turn.call);
    let p = seek(words, turn.rows, aim, progress_at(words, turn.s, turn.call));
    ask(p.sound, Refusal::Unsound)?;
    write_search(words, turn.s, aim, p);
    Ok(())
}
