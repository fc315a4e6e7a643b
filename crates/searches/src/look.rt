// A search looks at the records that it missed: those which were removed since its submission, from the first of them on in the queue.
ghost use Rattle.std.specs.Prelude.{◌≡◌};
ghost use Rattle.calls.specs.Look.{look_best, pass_spare, look_at, look_from, look};

use crate::progress::consider;
use calls::aim::Aim;
use calls::progress::Progress;
use links::link::{is_free, next_of};
use rows::row::{Row, read_row};
use stations::call::Best;
use words::layout::NONE;

// The best after a missed row: the record of a removed row is considered.
fn look_best(aim: Aim, best: Best, row: Row) -> Best
    ensures { result ≡ look_best aim best row }
{
    match row {
        Row::Removed {
            added,
            point,
            curve,
            ..
        } => consider(aim, best, added, point, curve),
        _ => best,
    }
}

// The link to a row, or past it where it is a spare one: the cut that was freed with a removed record.
fn pass_spare(link: u32, row: Row) -> u32
    ensures { result ≡ pass_spare link row }
{
    if let Row::Spare { next, .. } = row {
        next
    } else {
        link
    }
}

// The first missed row, and the row after it, are looked at.
fn look_at(aim: Aim, p: Progress, row: Row, after: Row) -> Progress
    ensures { result ≡ look_at aim p row after }
{
    let next = next_of(row);
    Progress {
        missed: pass_spare(next, after),
        best: look_best(aim, p.best, row),
        sound: (p.sound & is_free(row)) & ((next == NONE) | is_free(after)),
        ..p
    }
}

// The same at a link to the first missed row. Where no row follows it, none is read. The words, the rows, the target and the progress come one by one: two functions have them, before a step makes its `Tour`.
fn look_from(words: &[u32], rows: u32, aim: Aim, p: Progress) -> Progress
    ensures { result ≡ look_from words.now rows aim p }
{
    let row = read_row(words, rows, p.missed);
    let after = read_row(words, rows, next_of(row));
    look_at(aim, p, row, after)
}

// One missed record is looked at, if there is any.
#[tactic(auto, unfolding(calls::specs::Look::look))]
pub(crate) fn look(words: &[u32], rows: u32, aim: Aim, p: Progress) -> Progress
    ensures { result ≡ look words.now rows aim p }
{
    if p.missed == NONE {
        p
    } else {
        look_from(words, rows, aim, p)
    }
}
