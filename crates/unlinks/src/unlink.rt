// A leaf is taken from the tree: the rows that this reads, the test that they are sound, and what is written.
// Its functions are no methods of `Around`: that stands in calls, below links, which they use.
ghost use Rattle.std.specs.Prelude.{◌≡◌};
ghost use Rattle.words.specs.Layout.{stations};
ghost use Rattle.words.specs.Refusal.{number_told};
ghost use Rattle.calls.specs.Reply.{replied};
ghost use Rattle.calls.specs.Unlink.{around_at, around_sound, unlink_rows, unlink_tail, unlink_root, count_unlinked, unlink_words, unlink_of};
ghost use Rattle.calls.specs.Unlink.{landing, cursor_after, phase_after, missed_after, track_after, station_moved, stays, stations_moved};

use calls::turn::Turn;
use calls::unlink::Around;
use links::answer::write_answered;
use links::link::{
    is_free, is_leaf, is_tree, leaf_curve, links_to, next_of, parent_of, sibling_of,
};
use links::relink::{removed_as, replaced, with_next, with_parent};
use points::cut::goes_left;
use points::pick::pick;
use points::point::Point;
use rows::row::{Row, read_row, write_row};
use stations::answer::{Answer, CODE_REMOVED};
use stations::counter::count_change;
use stations::counts::{Counts, read_counts, write_counts};
use stations::target::read_target;
use stations::track::{DOWN, Track, UP, read_track, write_track};
use words::layout::{NONE, STATIONS};
use words::refusal::{Refusal, ask};
use words::word::more;

// Reads the rows around the leaf at a row. A leaf that is the root has no cut over it, and a cut that is the root no row above it: their
// numbers are `NONE`, and no row is read there.
#[tactic(auto, unfolding(calls::specs::Unlink::around_at))]
fn gather(words: &[u32], rows: u32, at: u32) -> Around
    ensures { result ≡ around_at words.now rows at }
{
    let tail = read_counts(words).tail;
    let leaf = read_row(words, rows, at);
    let over = parent_of(leaf);
    let cut = read_row(words, rows, over);
    let side = sibling_of(at, cut);
    let above = parent_of(cut);
    Around {
        tail,
        last: read_row(words, rows, tail),
        at,
        leaf,
        over,
        cut,
        side,
        other: read_row(words, rows, side),
        above,
        grand: read_row(words, rows, above),
    }
}

// Whether the rows are what a queue and a tree have there.
#[tactic(auto, unfolding(calls::specs::Unlink::around_sound))]
fn sound(a: Around) -> bool
    ensures { result ≡ around_sound a }
{
    (is_free(a.last) & (next_of(a.last) == NONE) & is_leaf(a.leaf))
        & ((a.over == NONE)
            | (links_to(a.at, a.cut)
                & (a.side != a.at)
                & is_tree(a.other)
                & ((a.above == NONE) | links_to(a.over, a.grand))))
}

// Writes the rows with the number of the removal: the leaf joins the queue behind its last row, the cut over it behind the leaf, and the
// other child takes the cut's place. At `NONE` nothing is written.
#[tactic(auto, unfolding(calls::specs::Unlink::unlink_rows))]
fn write_rows(words: &mut [u32], a: Around, number: u32)
    ensures { words.new ≡ unlink_rows words.old a number }
{
    let freed = Row::Spare {
        next: NONE,
        freed: number,
    };
    write_row(words, a.tail, with_next(a.at, a.last));
    write_row(words, a.at, removed_as(a.over, number, a.leaf));
    write_row(words, a.over, freed);
    write_row(words, a.side, with_parent(a.above, a.other));
    write_row(words, a.above, replaced(a.over, a.side, a.grand));
}

// The last row of the queue afterwards.
#[tactic(auto, unfolding(calls::specs::Unlink::unlink_tail))]
fn tail_after(a: Around) -> u32
    ensures { result ≡ unlink_tail a }
{
    pick(a.over == NONE, a.at, a.over)
}

// The root afterwards.
#[tactic(auto, unfolding(calls::specs::Unlink::unlink_root))]
fn root_after(a: Around, root: u32) -> u32
    ensures { result ≡ unlink_root a root }
{
    pick(a.above == NONE, a.side, root)
}

// A removal is counted, the tree begins and the queue ends at other rows.
#[tactic(auto, unfolding(calls::specs::Unlink::count_unlinked))]
fn counted(a: Around, counts: Counts) -> Counts
    ensures { result ≡ count_unlinked a counts }
{
    Counts {
        changes: more(counts.changes),
        held: counts.held.saturating_sub(1),
        root: root_after(a, counts.root),
        tail: tail_after(a),
        removals: more(counts.removals),
        ..counts
    }
}

// Where a call stands afterwards: at the other child, where it stood at the leaf or at the cut over it.
#[tactic(auto, unfolding(calls::specs::Unlink::cursor_after))]
fn cursor_after(a: Around, track: Track) -> u32
    ensures { result ≡ cursor_after a track.cursor }
{
    pick(
        (track.cursor == a.at) | (track.cursor == a.over),
        a.side,
        track.cursor,
    )
}

// The phase in which a search that stood at the leaf goes on at the other child of the cut: down where the leaf was the near child for its
// target, up where it was the far one.
fn landing(target: Point, at: u32, row: Row) -> u32
    ensures { result ≡ landing target at row }
{
    match row {
        Row::Cut {
            cut,
            left,
            right,
            ..
        } => {
            let near = pick(goes_left(cut, target), left, right);
            pick(near == at, DOWN, UP)
        },
        _ => DOWN,
    }
}

// The phase of its search afterwards. Its target decides only where it stood at the leaf.
#[tactic(auto, unfolding(calls::specs::Unlink::phase_after))]
fn phase_after(a: Around, target: Point, track: Track) -> u32
    ensures { result ≡ phase_after a target track.cursor track.phase }
{
    if track.cursor == a.at {
        landing(target, a.at, a.cut)
    } else {
        track.phase
    }
}

// The first row that its search has missed afterwards: the leaf, for an unfinished nearest that had missed none.
#[tactic(auto, unfolding(calls::specs::Unlink::missed_after))]
fn missed_after(a: Around, track: Track) -> u32
    ensures { result ≡ missed_after a track.since track.missed }
{
    pick(
        (track.since != NONE) & (track.missed == NONE),
        a.at,
        track.missed,
    )
}

// The track of a station whose last search had this target.
#[tactic(auto, unfolding(calls::specs::Unlink::track_after))]
fn track_after(a: Around, target: Point, track: Track) -> Track
    ensures { result ≡ track_after a target track }
{
    Track {
        cursor: cursor_after(a, track),
        phase: phase_after(a, target, track),
        missed: missed_after(a, track),
        ..track
    }
}

// Whether a call stands at neither row, and does not begin to miss rows. Most stations are passed by with that.
#[tactic(auto, unfolding(calls::specs::Unlink::stays))]
fn stays(a: Around, track: Track) -> bool
    ensures { result ≡ stays a track }
{
    !((track.cursor == a.at) | (track.cursor == a.over))
        & ((track.since == NONE) | (track.missed != NONE))
}

// Moves the call of station s out of the rows that leave the tree, and notes what it has missed.
#[tactic(auto, using(calls::proofs::UnlinkLaws::station_stays), unfolding(calls::specs::Unlink::station_moved))]
fn move_station(words: &mut [u32], s: u32, a: Around)
    ensures { words.new ≡ station_moved words.old s a }
{
    let track = read_track(words, s);
    if !stays(a, track) {
        let target = read_target(words, s);
        write_track(words, s, track_after(a, target, track));
    }
}

// The same for each of the eight stations.
#[tactic(auto, unfolding(calls::specs::Unlink::stations_moved))]
fn move_stations(words: &mut [u32], a: Around)
    ensures { words.new ≡ stations_moved a stations words.old }
{
    for s in 0..STATIONS {
        move_station(words, s, a);
    }
}

// Everything that the removal writes but the answer: counts, of the index and of the station, stations, rows.
#[tactic(auto, unfolding(calls::specs::Unlink::unlink_words, calls::specs::Unlink::unlink_counts))]
fn change(words: &mut [u32], s: u32, a: Around)
    ensures { words.new ≡ unlink_words words.old s a }
{
    let counts = read_counts(words);
    write_counts(words, counted(a, counts));
    count_change(words, s);
    move_stations(words, a);
    write_rows(words, a, more(counts.removals));
}

// Takes the leaf at a row from the tree for the call of a station, and answers the call. Refused where the rows are not those of an index,
// and then no word changes.
#[tactic(auto, unfolding(calls::specs::Unlink::unlink_of))]
pub fn unlink(words: &mut [u32], turn: Turn, at: u32) -> Result<(), Refusal>
    ensures { replied (number_told result) words.new ≡ unlink_of words.old turn.rows turn.s turn.call at }
{
    let Turn { rows, s, call } = turn;
    let a = gather(words, rows, at);
    ask(sound(a) & (1 <= read_counts(words).held), Refusal::Unsound)?;
    let answer = Answer {
        code: CODE_REMOVED,
        point: call.point,
        curve: leaf_curve(a.leaf),
        square: 0,
    };
    change(words, s, a);
    write_answered(words, s, answer);
    Ok(())
}
