// Events on the index and on the plain table, from the items of a text. An item has a letter for the event, station, kind, grade, weight, curve,
// and the one curve and the one code that the answer may have, 0 where it may be any. With the letters f and g it has a whole point: station, kind, grade,
// weight, moisture, speed, draw counted from -2,000, curve, and the one curve that the answer may have.
use crate::drive;
use plain_list::book::Book;
use plain_list::point::PlainPoint;
use plain_list::scale::{PLAIN_RULE, PlainScale};
use plain_list::table::State;
use plain_list::text::Item;
use reports::report::read_report;
use stations::answer::read_waiting;

// The call of an item, with the one curve and the one code that its answer may have. The kind may be none, as a call may ask for any.
#[derive(Clone, Copy)]
pub struct Call {
    pub station: u32,
    pub kind: u32,
    pub point: PlainPoint,
    pub curve: u32,
    pub only_curve: u32,
    pub only_code: u32,
}

impl Call {
    // The call of an item, with a grade and a weight or by its letter with a whole point.
    pub fn of(item: Item) -> Call {
        let [station, kind, grade, weight, ..] = item.n;
        let point = PlainPoint::at_weight(grade, weight);
        if matches!(item.letter, b'f' | b'g') {
            let [.., moisture, speed, draw, curve, only_curve] = item.n;
            let point = PlainPoint {
                moisture,
                speed,
                draw,
                ..point
            };
            Call {
                station,
                kind,
                point,
                curve,
                only_curve,
                only_code: 0,
            }
        } else {
            let [_, _, _, _, curve, only_curve, only_code, ..] = item.n;
            Call {
                station,
                kind,
                point,
                curve,
                only_curve,
                only_code,
            }
        }
    }
}

// The submission of a call.
pub fn submit(words: &mut [u32], book: &mut Book, call: Call) {
    let _ = drive::submit(words, book, call.station, call.kind, call.point, call.curve);
}

// Whether the answer that waits at a station has this curve, or no record, and this code; any curve and any code where 0 is given.
fn may_answer(words: &[u32], s: u32, curve: u32, code: u32) -> bool {
    read_waiting(words, s).is_some_and(|answer| {
        (curve == 0 || answer.curve == curve || answer.code == 9)
            && (code == 0 || answer.code == code)
    })
}

// The taking of an answer, with the curve and the code that it may have.
pub fn take(words: &mut [u32], book: &mut Book, call: Call) {
    book.judge(may_answer(words, call.station, call.only_curve, call.only_code));
    let _ = drive::take(words, book, call.station);
}

// A whole call.
fn run_call(words: &mut [u32], book: &mut Book, call: Call) {
    submit(words, book, call);
    drive::run(words, book, call.station);
    take(words, book, call);
}

// The eight calls of an item, each at a weight that lies so far from the one before it.
fn eight(words: &mut [u32], book: &mut Book, n: [u32; 9]) {
    let [_, kind, grade, mut weight, apart, ..] = n;
    for s in 0..8 {
        let _ = drive::submit(
            words,
            book,
            s,
            kind,
            PlainPoint::at_weight(grade, weight),
            1 + s,
        );
        weight = weight.wrapping_add(apart);
    }
}

// A station takes a step, or its answer.
pub fn turn(words: &mut [u32], book: &mut Book, s: u32) {
    match book.table.state(s) {
        State::Idle => {}
        State::Unfinished(_) => {
            let _ = drive::step(words, book, s);
        }
        State::Waiting => {
            let _ = drive::take(words, book, s);
        }
    }
}

// So many turns, sixty of each station where the number is 0, each station's after the other's, and what is asked after each; with its last turn every
// station is idle.
fn rounds(words: &mut [u32], book: &mut Book, number: u32) {
    let turns = if number == 0 { 480 } else { number };
    let last = turns.saturating_sub(8);
    for n in 0..turns {
        let s = n % 8;
        turn(words, book, s);
        drive::judge_event(words, book);
        let idle = book.table.is_idle(s);
        book.judge(n < last || idle);
    }
}

// The index reports so many places taken.
fn judge_taken(words: &[u32], book: &mut Book, n: u32) {
    book.judge(read_report(words).unwrap_or(0) == u64::from(n));
}

// A number of so many millions of millions, millions and a rest; 0 where it may not fit.
fn in_millions(twice: u32, once: u32, rest: u32) -> u64 {
    if twice < 18000000 {
        1000000000000 * u64::from(twice) + 1000000 * u64::from(once) + u64::from(rest)
    } else {
        0
    }
}

// The answer that waits at a station has this square.
fn judge_square(words: &[u32], book: &mut Book, s: u32, square: u64) {
    book.judge(read_waiting(words, s).is_some_and(|answer| answer.square == square));
}

// The rule of an item: 1 where it is left out.
pub fn rule_given(rule: u32) -> u32 {
    if rule == 0 { PLAIN_RULE } else { rule }
}

// An opening, accepted or not, of an item: places, limit, factors and rule; four ones where all four factors are left out.
fn opening(words: &mut [u32], book: &mut Book, n: [u32; 9]) {
    let [places, limit, weight, moisture, speed, draw, rule, ..] = n;
    let rule = rule_given(rule);
    let factors = [weight, moisture, speed, draw];
    let scale = if factors == [0; 4] {
        PlainScale::ones_by(rule)
    } else {
        PlainScale { rule, factors }
    };
    let _ = drive::open(words, book, places, limit, scale);
}

// The event of an item: o an opening with its places, limit, factors and rule, c or f a whole call, s or g a submission, t a step, r a run, k a taking, w
// a withdrawal, n the places taken, z the square that waits, in millions of millions, millions and the rest, e eight calls at once, a turns of all stations.
// Any other letter is wrong.
fn perform(words: &mut [u32], book: &mut Book, item: Item) {
    let n = item.n;
    let [s, second, third, fourth, ..] = n;
    match item.letter {
        b'o' => opening(words, book, n),
        b'c' | b'f' => run_call(words, book, Call::of(item)),
        b's' | b'g' => submit(words, book, Call::of(item)),
        b't' => {
            let _ = drive::step(words, book, s);
        }
        b'r' => drive::run(words, book, s),
        b'k' => take(words, book, Call::of(item)),
        b'w' => {
            let _ = drive::withdraw(words, book, s);
        }
        b'n' => judge_taken(words, book, s),
        b'z' => judge_square(words, book, s, in_millions(second, third, fourth)),
        b'e' => eight(words, book, n),
        b'a' => rounds(words, book, s),
        _ => book.judge(false),
    }
}

// The event of an item, with what is asked after every event.
pub fn event(words: &mut [u32], book: &mut Book, item: Item) {
    perform(words, book, item);
    drive::judge_event(words, book);
}
