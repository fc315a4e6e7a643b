// The queue of an audit, walked from its head: free rows, and then the removals that await release, in order.
ghost use Rattle.std.specs.Prelude.{◌≡◌, ◌+◌, eqb};
ghost use Rattle.calls.specs.Queue.{passed, broken, no_longer, pass_spare, pass_removed, pass_row, walk_queue, queued_at_head, queue_in};

use calls::queue::Queued;
use rows::row::{Row, read_row};
use stations::common::{least_since, rows_in};
use stations::counts::read_counts;
use words::layout::NONE;

// A free row is passed.
#[tactic(auto, unfolding(calls::specs::Sum::plus))]
fn passed(l: Queued, sound: bool, next: u32, number: u32, half: bool) -> Queued
    ensures { result ≡ passed l sound next number half }
{
    Queued {
        sound: l.sound & sound,
        at: next,
        last: l.at,
        rows: l.rows.saturating_add(1),
        number,
        half,
    }
}

// No free row: the queue is broken here. Whether it is sound stands beside the rest, as `queue_in` has it, of which what is proved of the queue speaks.
fn broken(l: Queued) -> Queued
    ensures { result ≡ broken l }
{
    Queued {
        sound: false,
        at: NONE,
        ..l
    }
}

// Whether a row's removal is no longer awaited, and no awaited one was passed.
fn no_longer(released: u32, l: Queued, freed: u32) -> bool
    ensures { result ≡ no_longer released l freed }
{
    (freed <= released) & (l.number == released)
}

// Whether a removal is the next one after another.
fn follows(freed: u32, number: u32) -> bool
    ensures { result ≡ eqb freed (number + 1) }
{
    u64::from(freed) == u64::from(number) + 1
}

// A removed record is passed.
fn pass_removed(released: u32, l: Queued, next: u32, freed: u32) -> Queued
    ensures { result ≡ pass_removed released l next freed }
{
    if no_longer(released, l, freed) {
        passed(l, true, next, l.number, false)
    } else {
        passed(l, follows(freed, l.number), next, freed, true)
    }
}

// A spare row is passed.
fn pass_spare(released: u32, l: Queued, next: u32, freed: u32) -> Queued
    ensures { result ≡ pass_spare released l next freed }
{
    let sound = no_longer(released, l, freed) | ((freed == l.number) & l.half);
    passed(l, sound, next, l.number, false)
}

// A row of the queue is passed.
fn pass_row(released: u32, l: Queued, row: Row) -> Queued
    ensures { result ≡ pass_row released l row }
{
    match row {
        Row::Spare { next, freed } => pass_spare(released, l, next, freed),
        Row::Removed { next, freed, .. } => pass_removed(released, l, next, freed),
        _ => broken(l),
    }
}

// So many rows on, or to the end.
fn walk_queue(words: &[u32], rows: u32, released: u32, n: u32, l: Queued) -> Queued
    ensures { result ≡ walk_queue words.now rows released n l }
{
    let mut line = l;
    for _ in 0..n {
        if line.at == NONE {
            break;
        }
        line = pass_row(released, line, read_row(words, rows, line.at));
    }
    line
}

// At the head of the queue, before its first row.
fn queued_at_head(words: &[u32]) -> Queued
    ensures { result ≡ queued_at_head words.now }
{
    Queued {
        sound: true,
        at: read_counts(words).head,
        last: NONE,
        rows: 0,
        number: least_since(words),
        half: false,
    }
}

// The whole queue.
#[tactic(auto, unfolding(calls::specs::Queue::queue_in))]
pub(crate) fn queue(words: &[u32]) -> Queued
    ensures { result ≡ queue_in words.now }
{
    let rows = rows_in(words);
    let start = queued_at_head(words);
    walk_queue(words, rows, start.number, rows, start)
}
