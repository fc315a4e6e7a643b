// The work of one step of an add, a remove or a contains: six rows down, or the decision at the leaf or in the empty tree.
ghost use Rattle.std.specs.Prelude.{◌≡◌};
ghost use Rattle.words.specs.Refusal.{number_told};
ghost use Rattle.calls.specs.Reply.{replied};
ghost use Rattle.rows.specs.Row.{row_at};
ghost use Rattle.calls.specs.Walk.{down_from, down, way_of, marked_way, passed_words, walked_words, walk_to, code_of, code_at, plain_answer, conclude, stands_at, walk_of};

use calls::turn::Turn;
use calls::walk::Way;
use inserts::insert::insert;
use links::answer::write_answered;
use links::link::{holds_point, is_cut, is_leaf, leaf_curve};
use points::cut::goes_left;
use points::pick::pick;
use points::point::Point;
use rows::grades::{mark_toward, slot_of};
use rows::row::{Row, read_row};
use stations::answer::{
    Answer, CODE_ADDED, CODE_CONTAINED, CODE_FULL, CODE_HELD, CODE_MISSING, CODE_REMOVED,
    CODE_SPENT,
};
use stations::call::{ADD_KIND, Call, REMOVE_KIND};
use stations::common::{read_limit, read_places, taken};
use stations::counter::read_counter;
use stations::counts::read_counts;
use stations::track::{DOWN, Track, read_track, write_track};
use unlinks::unlink::unlink;
use words::layout::NONE;
use words::refusal::{Refusal, ask};

// From a cut to the child on the point's side; a leaf stays; from any other row nowhere.
fn down_from(point: Point, at: u32, row: Row) -> u32
    ensures { result ≡ down_from point at row }
{
    match row {
        Row::Leaf { .. } => at,
        Row::Cut {
            cut,
            left,
            right,
            ..
        } => pick(goes_left(cut, point), left, right),
        _ => NONE,
    }
}

// One row down; none stays none.
#[tactic(auto, unfolding(calls::specs::Walk::down))]
fn down(words: &[u32], turn: Turn, at: u32) -> u32
    ensures { result ≡ down words.now turn.rows turn.call.point at }
{
    down_from(turn.call.point, at, read_row(words, turn.rows, at))
}

// One row further down from `at`, to which a walk came from `from`. Where it stayed it stays, and no row is read again.
fn further(words: &[u32], turn: Turn, from: u32, at: u32) -> u32
    requires { at ≡ down words.now turn.rows turn.call.point from }
    ensures { result ≡ down words.now turn.rows turn.call.point at }
{
    if at == from {
        at
    } else {
        down(words, turn, at)
    }
}

// Six rows down; the first of them is read already. The seven are fields of `Way` and no array, since `way_of` and `marked_way` of calls,
// and the definitions and proofs of history above them, name each.
#[tactic(auto, unfolding(calls::specs::Walk::way_of, calls::specs::Walk::down))]
fn six_down(words: &[u32], turn: Turn, at: u32, row: Row) -> Way
    requires { row ≡ row_at words.now turn.rows at }
    ensures { result ≡ way_of words.now turn.rows turn.call.point at }
{
    let one = down_from(turn.call.point, at, row);
    let two = further(words, turn, at, one);
    let three = further(words, turn, one, two);
    let four = further(words, turn, two, three);
    let five = further(words, turn, three, four);
    let to = further(words, turn, four, five);
    Way {
        at,
        one,
        two,
        three,
        four,
        five,
        to,
    }
}

// Each of the six that is a cut gets the slot on the side to which the way goes.
#[tactic(auto, unfolding(calls::specs::Walk::marked_way))]
fn mark_way(words: &mut [u32], way: Way, k: u32)
    ensures { words.new ≡ marked_way words.old way k }
{
    mark_toward(words, way.at, way.one, k);
    mark_toward(words, way.one, way.two, k);
    mark_toward(words, way.two, way.three, k);
    mark_toward(words, way.three, way.four, k);
    mark_toward(words, way.four, way.five, k);
    mark_toward(words, way.five, way.to, k);
}

// An add marks its way; no other call marks.
#[tactic(auto, unfolding(calls::specs::Walk::passed_words))]
fn pass(words: &mut [u32], call: Call, way: Way)
    ensures { words.new ≡ passed_words words.old call way }
{
    if call.kind == ADD_KIND {
        mark_way(words, way, slot_of(call.point));
    }
}

// The call of station s stands at a row, and goes down.
#[tactic(auto, unfolding(calls::specs::Walk::walked_words))]
fn stand(words: &mut [u32], s: u32, to: u32)
    ensures { words.new ≡ walked_words words.old s to }
{
    let track = read_track(words, s);
    let standing = Track {
        cursor: to,
        phase: DOWN,
        ..track
    };
    write_track(words, s, standing);
}

// The walk stands there now; a row on the way was not one of the tree where that is none.
fn walk_to(words: &mut [u32], turn: Turn, way: Way) -> Result<(), Refusal>
    ensures { replied (number_told result) words.new ≡ walk_to words.old turn.s turn.call way }
{
    ask(way.to != NONE, Refusal::Unsound)?;
    pass(words, turn.call, way);
    stand(words, turn.s, way.to);
    Ok(())
}

// The code of a decision: on whether the point is held, the changes are used up, and every place is taken.
#[tactic(auto, unfolding(calls::specs::Walk::code_of))]
fn code_of(kind: u32, held: bool, spent: bool, full: bool) -> u32
    ensures { result ≡ code_of kind held spent full }
{
    match kind {
        ADD_KIND if held => CODE_HELD,
        ADD_KIND if spent => CODE_SPENT,
        ADD_KIND if full => CODE_FULL,
        ADD_KIND => CODE_ADDED,
        _ if !held => CODE_MISSING,
        REMOVE_KIND if spent => CODE_SPENT,
        REMOVE_KIND => CODE_REMOVED,
        _ => CODE_CONTAINED,
    }
}

// The code of a call of station s that ends its walk at this row; the counter of its own station says whether its changes are used up.
#[tactic(auto, unfolding(calls::specs::Walk::code_at))]
fn code_at(words: &[u32], turn: Turn, row: Row) -> u32
    ensures { result ≡ code_at words.now turn.s turn.call row }
{
    let held = holds_point(turn.call.point, row);
    let spent = read_counter(words, turn.s) == read_limit(words);
    let full = u64::from(read_places(words)) <= taken(words);
    code_of(turn.call.kind, held, spent, full)
}

// The answer of a code that is no change: with the held curve in 2 and 7.
#[tactic(auto, unfolding(calls::specs::Walk::plain_answer))]
fn plain_answer(call: Call, code: u32, row: Row) -> Answer
    ensures { result ≡ plain_answer call code row }
{
    let shown = (code == CODE_HELD) | (code == CODE_CONTAINED);
    Answer {
        code,
        point: call.point,
        curve: pick(shown, leaf_curve(row), 0),
        square: 0,
    }
}

// The decision, and what it comes to, where the walk of the call ended.
#[tactic(auto, unfolding(calls::specs::Walk::conclude))]
fn conclude(words: &mut [u32], turn: Turn, at: u32, row: Row) -> Result<(), Refusal>
    ensures { replied (number_told result) words.new ≡ conclude words.old turn.rows turn.s turn.call at row }
{
    match code_at(words, turn, row) {
        CODE_ADDED => insert(words, turn, at),
        CODE_REMOVED => unlink(words, turn, at),
        code => {
            write_answered(words, turn.s, plain_answer(turn.call, code, row));
            Ok(())
        },
    }
}

// Where the call stands: the cursor, or the root where that is none.
#[tactic(auto, unfolding(calls::specs::Walk::stands_at))]
fn stands_at(words: &[u32], s: u32) -> u32
    ensures { result ≡ stands_at words.now s }
{
    let cursor = read_track(words, s).cursor;
    pick(cursor == NONE, read_counts(words).root, cursor)
}

// One step: from a cut down, at a leaf or in the empty tree the decision; any other row is refused.
#[tactic(auto, unfolding(calls::specs::Walk::walk_of))]
pub fn walk(words: &mut [u32], turn: Turn) -> Result<(), Refusal>
    ensures { replied (number_told result) words.new ≡ walk_of words.old turn.rows turn.s turn.call }
{
    let at = stands_at(words, turn.s);
    let row = read_row(words, turn.rows, at);
    if is_cut(row) {
        let way = six_down(words, turn, at, row);
        walk_to(words, turn, way)
    } else {
        ask((at == NONE) | is_leaf(row), Refusal::Unsound)?;
        conclude(words, turn, at, row)
    }
}
