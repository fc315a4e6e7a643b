// The common record: question 4, what opening writes of it, the check of its fields, and the places taken.
ghost use Rattle.std.specs.Prelude.{◌≡◌};
ghost use Rattle.stations.specs.Track.{track_at};
ghost use Rattle.stations.specs.Common.{places_in, limit_in, places_at, limit_at, open_in, opened_in, is_opened, rows_in, records_cleared, put_opening};
ghost use Rattle.stations.specs.Common.{counts_in, counters_in, since_in, track_in, tracks_in, common_sound, least_since, awaiting_in, taken_in};

use crate::counter::greatest_counter;
use crate::counts::read_counts;
use crate::scale::{read_scale, write_scale};
use crate::track::{UP, read_track};
use points::rule::rule_in;
use points::scale::{Scale, factors_in};
use words::layout::{
    AT_LIMIT, AT_MARK, AT_PLACES, MOST_LIMIT, MOST_PLACES, NONE, RECORDS, STATIONS, words_for,
};
use words::word::{get, link_in, put};

// The mark that opening writes.
const MARK: u32 = 1279683401;

// Places are 1 to 4,096.
#[tactic(auto, unfolding(crate::specs::Common::places_in))]
pub fn places_in(places: u32) -> bool
    ensures { result ≡ places_in places }
{
    matches!(places, 1..=MOST_PLACES)
}

// The change limit is 1 to 500,000,000.
#[tactic(auto, unfolding(crate::specs::Common::limit_in))]
pub fn limit_in(limit: u32) -> bool
    ensures { result ≡ limit_in limit }
{
    matches!(limit, 1..=MOST_LIMIT)
}

// The places of the opening.
#[tactic(auto, unfolding(crate::specs::Common::places_at, words::specs::Layout::at_places))]
pub fn read_places(words: &[u32]) -> u32
    ensures { result ≡ places_at words.now }
{
    get(words, AT_PLACES)
}

// Its change limit.
#[tactic(auto, unfolding(crate::specs::Common::limit_at, words::specs::Layout::at_limit))]
pub fn read_limit(words: &[u32]) -> u32
    ensures { result ≡ limit_at words.now }
{
    get(words, AT_LIMIT)
}

// Whether mark, places, limit, factors and size are those of an opened slice.
#[tactic(auto, unfolding(crate::specs::Common::open_in))]
fn open_in(first: u32, places: u32, limit: u32, scale: Scale, size: usize) -> bool
    ensures { result ≡ open_in first places limit scale size }
{
    (first == MARK)
        & places_in(places)
        & limit_in(limit)
        & rule_in(scale.rule)
        & factors_in(scale)
        & (words_for(places) <= size)
}

// Whether question 4 passes.
#[tactic(auto, unfolding(crate::specs::Common::opened_in, crate::specs::Common::mark_at, words::specs::Layout::at_mark))]
pub fn is_opened(words: &[u32]) -> bool
    ensures { result ≡ is_opened (opened_in words.now) }
{
    open_in(
        get(words, AT_MARK),
        read_places(words),
        read_limit(words),
        read_scale(words),
        words.len(),
    )
}

// The rows of an opened slice, twice its places; none where the places are out of range.
#[tactic(auto, unfolding(crate::specs::Common::rows_in))]
pub fn rows_in(words: &[u32]) -> u32
    ensures { result ≡ rows_in words.now }
{
    let places = read_places(words);
    if places <= MOST_PLACES { 2 * places } else { 0 }
}

// Zero in every word before the rows. Word by word, since a filled slice is a call of `memset`, and the library for C wants no name from outside.
#[tactic(auto, unfolding(crate::specs::Common::records_cleared, crate::specs::Common::cleared))]
pub fn clear_records(words: &mut [u32])
    ensures { words.new ≡ records_cleared words.old }
{
    for at in 0..RECORDS {
        put(words, at, 0);
    }
}

// Writes mark, places, limit and factors.
#[tactic(auto, unfolding(crate::specs::Common::put_opening, words::specs::Layout::at_mark, words::specs::Layout::at_places, words::specs::Layout::at_limit))]
pub fn write_opening(words: &mut [u32], places: u32, limit: u32, scale: Scale)
    ensures { words.new ≡ put_opening words.old places limit scale }
{
    put(words, AT_MARK, MARK);
    put(words, AT_PLACES, places);
    put(words, AT_LIMIT, limit);
    write_scale(words, scale);
}

// Whether counts, root, head and tail are in range; the changes are those of eight stations.
#[tactic(auto, unfolding(crate::specs::Common::counts_in))]
fn counts_in(words: &[u32], rows: u32) -> bool
    ensures { result ≡ counts_in words.now rows }
{
    let counts = read_counts(words);
    (u64::from(counts.changes) <= u64::from(STATIONS) * u64::from(read_limit(words)))
        & (counts.held <= read_places(words))
        & (counts.removals <= counts.changes)
        & link_in(rows, counts.root)
        & (counts.head < rows)
        & (counts.tail < rows)
}

// Whether no counter is above the limit.
#[tactic(auto, unfolding(crate::specs::Common::counters_in))]
fn counters_in(words: &[u32]) -> bool
    ensures { result ≡ counters_in words.now }
{
    greatest_counter(words) <= read_limit(words)
}

// A since word is none or at most the removals.
#[tactic(auto, unfolding(crate::specs::Common::since_in))]
fn since_in(removals: u32, x: u32) -> bool
    ensures { result ≡ since_in removals x }
{
    (x == NONE) | (x <= removals)
}

// Whether every field of the track of a station is in range.
#[tactic(auto, unfolding(crate::specs::Common::track_in))]
fn track_in(words: &[u32], s: u32, rows: u32, removals: u32) -> bool
    ensures { result ≡ track_in rows removals (track_at words.now s) }
{
    let track = read_track(words, s);
    link_in(rows, track.cursor)
        & (track.phase <= UP)
        & since_in(removals, track.since)
        & link_in(rows, track.missed)
}

// Whether the eight tracks are in range.
#[tactic(auto, unfolding(crate::specs::Common::tracks_in))]
fn tracks_in(words: &[u32], rows: u32, removals: u32) -> bool
    ensures { result ≡ tracks_in words.now rows removals }
{
    let mut sound = true;
    for s in 0..STATIONS {
        sound &= track_in(words, s, rows, removals);
    }
    sound
}

// Whether the records are there and every field of the common record is in range, for an index of so many rows.
#[tactic(auto, unfolding(crate::specs::Common::common_sound))]
pub fn common_sound(words: &[u32], rows: u32) -> bool
    ensures { result ≡ common_sound words.now rows }
{
    (RECORDS <= words.len())
        && counts_in(words, rows)
            & counters_in(words)
            & tracks_in(words, rows, read_counts(words).removals)
}

// The least of the removals and the eight since words.
#[tactic(auto, unfolding(crate::specs::Common::least_since, crate::specs::Common::least_four))]
pub fn least_since(words: &[u32]) -> u32
    ensures { result ≡ least_since words.now }
{
    let mut least = read_counts(words).removals;
    for s in 0..STATIONS {
        least = least.min(read_track(words, s).since);
    }
    least
}

// The removals that an unfinished nearest still holds back.
#[tactic(auto, using(crate::proofs::TakenLaws::least_removals), unfolding(crate::specs::Common::awaiting_in))]
fn awaiting(words: &[u32]) -> u32
    ensures { result ≡ awaiting_in words.now }
{
    read_counts(words).removals - least_since(words)
}

// Places taken: the records held, and the removals that still hold their place.
#[tactic(auto, unfolding(crate::specs::Common::taken_in))]
pub fn taken(words: &[u32]) -> u64
    ensures { result ≡ taken_in words.now }
{
    u64::from(read_counts(words).held) + u64::from(awaiting(words))
}
