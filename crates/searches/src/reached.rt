// Where a move of a search leads: with the parent link of the row where it stands on its way up, so that each move reads one row, and with the square of
// the best.
ghost use Rattle.std.specs.Prelude.{◌≡◌};
ghost use Rattle.calls.specs.Tour.{best_square};
ghost use Rattle.calls.specs.Reached.{above_of, reached_at, go_to, go_up, refused};

use calls::aim::Aim;
use calls::progress::Progress;
use calls::reached::Reached;
use links::link::parent_of;
use points::square::square;
use rows::row::read_row;
use stations::call::Best;
use stations::track::{DOWN, UP};
use words::layout::NONE;

// The best square while there is no best: only a cut on axis 1 excludes its far side then. A number, so that it is compared as any other (`no_square`).
pub(crate) const NO_SQUARE: u64 = u64::MAX;

// Down to a child.
pub(crate) fn go_to(reached: Reached, child: u32) -> Reached
    ensures { result ≡ go_to reached.progress reached.square child }
{
    Reached {
        above: NONE,
        progress: Progress {
            cursor: child,
            phase: DOWN,
            ..reached.progress
        },
        ..reached
    }
}

// Up from a row of that parent.
pub(crate) fn go_up(reached: Reached, x: u32, parent: u32) -> Reached
    ensures { result ≡ go_up reached.progress reached.square x parent }
{
    Reached {
        above: parent,
        progress: Progress {
            cursor: x,
            phase: UP,
            ..reached.progress
        },
        ..reached
    }
}

// No further: a row was not what it must be. The progress keeps that as a flag, since the moves after it go on from the same progress (`strayed`).
pub(crate) fn refused(reached: Reached) -> Reached
    ensures { result ≡ refused reached.progress reached.square reached.above }
{
    Reached {
        progress: Progress {
            sound: false,
            ..reached.progress
        },
        ..reached
    }
}

// The best square.
fn best_square(aim: Aim, best: Best) -> u64
    ensures { result ≡ best_square aim best }
{
    if best.curve == 0 {
        NO_SQUARE
    } else {
        square(aim.scale, aim.point, best.point)
    }
}

// The parent link of the row where a search stands on its way up.
#[tactic(auto, unfolding(calls::specs::Reached::above_of))]
fn above_of(words: &[u32], rows: u32, p: Progress) -> u32
    ensures { result ≡ above_of words.now rows p }
{
    if p.phase == DOWN {
        NONE
    } else {
        parent_of(read_row(words, rows, p.cursor))
    }
}

// Where the moves of a step begin.
pub(crate) fn reached_at(words: &[u32], rows: u32, aim: Aim, p: Progress) -> Reached
    ensures { result ≡ reached_at words.now rows aim p }
{
    Reached {
        above: above_of(words, rows, p),
        square: best_square(aim, p.best),
        progress: p,
    }
}
