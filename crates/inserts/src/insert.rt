// A record is inserted where the walk of its point ended, at row `at`: beside the leaf there, or alone where `at` is none.
// Its functions are no methods of `Site`: that stands in calls, below links, which they use.
ghost use Rattle.std.specs.Prelude.{◌≡◌};
ghost use Rattle.words.specs.Layout.{stations};
ghost use Rattle.words.specs.Refusal.{number_told};
ghost use Rattle.calls.specs.Reply.{replied};
ghost use Rattle.calls.specs.Insert.{site_at, site_sound, new_leaf, cut_with, put_cut, insert_rows, insert_head, insert_root};
ghost use Rattle.calls.specs.Insert.{count_inserted, cursor_to, cursor_moved, cursors_moved, insert_words, insert_of};

use calls::insert::Site;
use calls::turn::Turn;
use links::answer::write_answered;
use links::link::{is_leaf, leaf_point, links_to, next_of, parent_of};
use links::relink::{replaced, with_parent};
use points::cut::{Cut, cut_between, goes_left};
use points::pick::pick;
use points::point::Point;
use rows::grades::{begin_grades, slot_of};
use rows::row::{Row, read_row, write_row};
use stations::answer::{Answer, CODE_ADDED};
use stations::call::Call;
use stations::counter::count_change;
use stations::counts::{Counts, read_counts, write_counts};
use stations::track::{Track, read_track, write_track};
use words::layout::{NONE, STATIONS};
use words::refusal::{Refusal, ask};
use words::rule::read_rule;
use words::word::more;

// Reads the rule and the rows. Where there is no leaf no second free row is needed, and reading at `NONE` gives a bad row.
#[tactic(auto, unfolding(calls::specs::Insert::site_at))]
fn gather(words: &[u32], rows: u32, at: u32) -> Site
    ensures { result ≡ site_at words.now rows at }
{
    let first = read_counts(words).head;
    let front = read_row(words, rows, first);
    let second = pick(at == NONE, NONE, next_of(front));
    let leaf = read_row(words, rows, at);
    let over = parent_of(leaf);
    Site {
        rule: read_rule(words),
        first,
        front,
        second,
        behind: read_row(words, rows, second),
        at,
        leaf,
        over,
        cut: read_row(words, rows, over),
    }
}

// Whether the rows are free rows with a row behind them, and a leaf whose parent, if any, links to it.
#[tactic(auto, unfolding(calls::specs::Insert::site_sound))]
fn sound(site: Site) -> bool
    ensures { result ≡ site_sound site }
{
    (next_of(site.front) != NONE)
        & ((site.at == NONE)
            | (is_leaf(site.leaf)
                & (next_of(site.behind) != NONE)
                & (site.second != site.first)
                & ((site.over == NONE) | links_to(site.at, site.cut))))
}

// The new leaf, under the new cut, with the record of the call.
#[tactic(auto, unfolding(calls::specs::Insert::new_leaf))]
fn new_leaf(site: Site, added: u32, call: Call) -> Row
    ensures { result ≡ new_leaf site added call.point call.curve }
{
    Row::Leaf {
        parent: site.second,
        added,
        point: call.point,
        curve: call.curve,
    }
}

// The new cut between the two points, with the two leaves on their sides.
fn new_cut(site: Site, cut: Cut, left: bool) -> Row
    ensures { result ≡ cut_with site cut left }
{
    Row::Cut {
        parent: site.over,
        cut,
        left: pick(left, site.first, site.at),
        right: pick(left, site.at, site.first),
    }
}

// Writes the cut with the grades of the two records. A row at `NONE` is not written.
#[tactic(auto, unfolding(calls::specs::Insert::put_cut, calls::specs::Insert::new_side, calls::specs::Insert::new_cut))]
fn write_cut(words: &mut [u32], site: Site, point: Point)
    ensures { words.new ≡ put_cut words.old site point }
{
    let old = leaf_point(site.leaf);
    let cut = cut_between(site.rule, point, old);
    let left = goes_left(cut, point);
    write_row(words, site.second, new_cut(site, cut, left));
    begin_grades(words, site.second, left, slot_of(point), slot_of(old));
}

// Writes the new leaf, the cut, the old leaf under it, and the cut in the old leaf's place. A row at `NONE` is not written.
#[tactic(auto, unfolding(calls::specs::Insert::insert_rows))]
fn write_rows(words: &mut [u32], site: Site, added: u32, call: Call)
    ensures { words.new ≡ insert_rows words.old site added call.point call.curve }
{
    write_row(words, site.first, new_leaf(site, added, call));
    write_cut(words, site, call.point);
    write_row(words, site.at, with_parent(site.second, site.leaf));
    write_row(words, site.over, replaced(site.at, site.second, site.cut));
}

// The head of the queue afterwards.
#[tactic(auto, unfolding(calls::specs::Insert::insert_head))]
fn head_after(site: Site) -> u32
    ensures { result ≡ insert_head site }
{
    pick(site.at == NONE, next_of(site.front), next_of(site.behind))
}

// The root afterwards: the new row at the top where the leaf had nothing above it.
#[tactic(auto, unfolding(calls::specs::Insert::insert_root))]
fn root_after(site: Site, root: u32) -> u32
    ensures { result ≡ insert_root site root }
{
    let top = pick(site.at == NONE, site.first, site.second);
    pick(site.over == NONE, top, root)
}

// An addition is counted, and the tree and the queue begin at other rows.
#[tactic(auto, unfolding(calls::specs::Insert::count_inserted))]
fn counted(site: Site, counts: Counts) -> Counts
    ensures { result ≡ count_inserted site counts }
{
    Counts {
        changes: more(counts.changes),
        held: more(counts.held),
        root: root_after(site, counts.root),
        head: head_after(site),
        ..counts
    }
}

// A track with its cursor moved where that stands on the row `gone`.
#[tactic(auto, unfolding(calls::specs::Insert::cursor_to))]
fn cursor_to(gone: u32, to: u32, track: Track) -> Track
    ensures { result ≡ cursor_to gone to track }
{
    Track {
        cursor: pick(track.cursor == gone, to, track.cursor),
        ..track
    }
}

// The cursor of station s moves where it stands on the row `gone`.
#[tactic(auto, unfolding(calls::specs::Insert::cursor_moved))]
fn move_cursor(words: &mut [u32], s: u32, gone: u32, to: u32)
    ensures { words.new ≡ cursor_moved gone to s words.old }
{
    let track = read_track(words, s);
    write_track(words, s, cursor_to(gone, to, track));
}

// Every cursor on the row `gone` moves; phases stay.
#[tactic(auto, unfolding(calls::specs::Insert::cursors_moved))]
fn move_cursors(words: &mut [u32], gone: u32, to: u32)
    ensures { words.new ≡ cursors_moved gone to stations words.old }
{
    for s in 0..STATIONS {
        move_cursor(words, s, gone, to);
    }
}

// Everything but the answer: counts, of the index and of the station, cursors, rows. Cursors on the old leaf move to the cut above it.
#[tactic(auto, unfolding(calls::specs::Insert::insert_words, calls::specs::Insert::insert_counts))]
fn change(words: &mut [u32], s: u32, site: Site, call: Call)
    ensures { words.new ≡ insert_words words.old s site call.point call.curve }
{
    let counts = read_counts(words);
    write_counts(words, counted(site, counts));
    count_change(words, s);
    move_cursors(words, site.at, site.second);
    write_rows(words, site, more(counts.changes), call);
}

// Inserts the record of a call and answers it. Refused where the rows are not those of an index, and then no word changes.
#[tactic(auto, unfolding(calls::specs::Insert::insert_of))]
pub fn insert(words: &mut [u32], turn: Turn, at: u32) -> Result<(), Refusal>
    ensures { replied (number_told result) words.new ≡ insert_of words.old turn.rows turn.s turn.call at }
{
    let Turn { rows, s, call } = turn;
    let site = gather(words, rows, at);
    ask(sound(site), Refusal::Unsound)?;
    change(words, s, site, call);
    let answer = Answer {
        code: CODE_ADDED,
        point: call.point,
        curve: call.curve,
        square: 0,
    };
    write_answered(words, s, answer);
    Ok(())
}
