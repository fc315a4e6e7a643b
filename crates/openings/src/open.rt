// Opening: no record held, every row spare, every station idle and no change counted.
ghost use Rattle.std.specs.Prelude.{◌≡◌, ◌≤◌};
ghost use Rattle.words.specs.Layout.{stations, most_places};
ghost use Rattle.words.specs.Refusal.{number_told};
ghost use Rattle.calls.specs.Reply.{replied};
ghost use Rattle.calls.specs.Open.{tracks_cleared, rows_spare, new_counts, head_words, opened_words, open_question, open_of};

use points::rule::rule_in;
use points::scale::{Scale, factors_in};
use rows::row::{Row, write_row};
use stations::common::{clear_records, limit_in, places_in, write_opening};
use stations::counts::{Counts, write_counts};
use stations::track::{nowhere, write_track};
use words::layout::{NONE, STATIONS, words_for};
use words::refusal::{Refusal, ask};

// The places of an opening that fails no question.
#[derive(Clone, Copy)]
struct Places {
    count: u32,
    ghost in_range: { (1 ≤ count) × (count ≤ most_places) },
}

// No station has a call.
#[tactic(auto, unfolding(calls::specs::Open::tracks_cleared))]
fn clear_tracks(words: &mut [u32])
    ensures { words.new ≡ tracks_cleared stations words.old }
{
    for s in 0..STATIONS {
        write_track(words, s, nowhere());
    }
}

// Nothing is counted, the tree is empty, and all the rows are in the queue.
#[tactic(auto, unfolding(calls::specs::Open::new_counts))]
fn new_counts(places: Places) -> Counts
    ensures { result ≡ new_counts places.count }
{
    Counts {
        changes: 0,
        held: 0,
        root: NONE,
        head: 0,
        tail: 2 * places.count - 1,
        removals: 0,
    }
}

// Mark, places, limit, scale and counts.
#[tactic(auto, unfolding(calls::specs::Open::head_words))]
fn write_head(words: &mut [u32], places: Places, limit: u32, scale: Scale)
    ensures { words.new ≡ head_words places.count limit scale words.old }
{
    write_opening(words, places.count, limit, scale);
    write_counts(words, new_counts(places));
}

// Every row is spare, linked to the next, the last to none.
#[tactic(auto, unfolding(calls::specs::Open::rows_spare))]
fn spare_rows(words: &mut [u32], rows: u32)
    ensures { words.new ≡ rows_spare rows rows words.old }
{
    for r in 0..rows {
        let next = if r + 1 < rows { r + 1 } else { NONE };
        write_row(words, r, Row::Spare { next, freed: 0 });
    }
}

// The words of a new history. Words beyond its rows stay.
#[tactic(auto, unfolding(calls::specs::Open::opened_words))]
fn open_words(words: &mut [u32], places: Places, limit: u32, scale: Scale)
    ensures { words.new ≡ opened_words words.old places.count limit scale }
{
    clear_records(words);
    write_head(words, places, limit, scale);
    clear_tracks(words);
    spare_rows(words, 2 * places.count);
}

// The first of questions 1, 2, 20, 17 and 3 that the opening fails.
#[tactic(auto, unfolding(calls::specs::Open::open_question))]
fn open_question(words: &[u32], places: u32, limit: u32, scale: Scale) -> Result<(), Refusal>
    ensures { number_told result ≡ open_question words.now places limit scale }
{
    ask(places_in(places), Refusal::BadPlaces)?;
    ask(limit_in(limit), Refusal::BadLimit)?;
    ask(rule_in(scale.rule), Refusal::BadRule)?;
    ask(factors_in(scale), Refusal::BadFactor)?;
    ask(words_for(places) <= words.len(), Refusal::ShortSlice)
}

// Opens the slice, or refuses by the first of these questions that the call fails; then no word changes.
#[tactic(auto, using(calls::proofs::Questions::open_settled, calls::proofs::Questions::open_places))]
pub fn open(words: &mut [u32], places: u32, limit: u32, scale: Scale) -> Result<(), Refusal>
    ensures { replied (number_told result) words.new ≡ open_of words.old places limit scale }
{
    open_question(words, places, limit, scale)?;
    open_words(words, Places { count: places }, limit, scale);
    Ok(())
}
