// Long random histories over all eight stations, from the fixed generator, each event judged by the plain table.
use crate::drive;
use crate::scales::some_scale;
use crate::sheets::{Sheet, some_sheet};
use plain_list::book::Book;
use plain_list::point::PlainPoint;
use std::ops::Range;
use words::layout::words_for;
use words::refusal::Refusal;

// From where the points of a history are drawn.
#[derive(Clone, Copy)]
pub enum Spread {
    // Three of each of moisture, speed and draw.
    Near,
    // Moisture, speed and draw from all of their ranges.
    Wide,
    // Speed and draw of three each; weight and moisture of sheets that lie near each other in dry weight.
    Dry,
}

// A kind of history: places and limit of its openings, how many weights its points have, a code that must come up, how many histories and their events,
// whether the audit is asked after each event, after how many events each unfinished call is tried alone, 0 for never, and from where its points are drawn.
#[derive(Clone, Copy)]
pub struct Plan {
    pub places: u32,
    pub limit: u32,
    pub weights: u32,
    pub code: u32,
    pub seeds: u32,
    pub events: u32,
    pub audited: bool,
    pub alone: u32,
    pub spread: Spread,
}

impl Plan {
    // The plan of an item: its numbers in the order of the fields. The last is 1 for points all over the ranges, 2 for sheets near in dry weight.
    pub fn of(n: [u32; 9]) -> Plan {
        let [
            places,
            limit,
            weights,
            code,
            seeds,
            events,
            audited,
            alone,
            spread,
        ] = n;
        Plan {
            places,
            limit,
            weights,
            code,
            seeds,
            events,
            audited: audited == 1,
            alone,
            spread: match spread {
                1 => Spread::Wide,
                2 => Spread::Dry,
                _ => Spread::Near,
            },
        }
    }
}

// A station; now and then one that there is not.
fn some_station(book: &mut Book) -> u32 {
    let s = book.below(8);
    match book.below(64) {
        0 => 8,
        1 => u32::MAX,
        _ => s,
    }
}

// A kind of call; now and then one that there is not.
fn some_kind(book: &mut Book) -> u32 {
    match book.below(64) {
        0 => 0,
        1 => 5,
        2..=23 => 1,
        24..=39 => 2,
        40..=47 => 3,
        _ => 4,
    }
}

// A curve; now and then one out of range.
pub fn some_curve(book: &mut Book) -> u32 {
    book.below(1000020)
}

// Grade 1, 2 or 128, as its distance from the least. The first and the last share a slot of the cuts' grades.
pub fn some_grade(book: &mut Book) -> u32 {
    match book.below(3) {
        0 => 0,
        1 => 1,
        _ => 127,
    }
}

// A coordinate of three, or of so many.
fn some_coordinate(book: &mut Book, spread: Spread, count: u32) -> u32 {
    book.below(if matches!(spread, Spread::Wide) {
        count
    } else {
        3
    })
}

// Weight and moisture of a point of the plan.
fn new_sheet(book: &mut Book, plan: Plan) -> Sheet {
    if let Spread::Dry = plan.spread {
        return some_sheet(book);
    }
    let weight = book.below(plan.weights);
    let moisture = some_coordinate(book, plan.spread, 10001);
    Sheet { weight, moisture }
}

// A point of the plan; now and then one out of range.
fn new_point(book: &mut Book, plan: Plan) -> PlainPoint {
    let grade = some_grade(book);
    let Sheet { weight, moisture } = new_sheet(book, plan);
    let speed = some_coordinate(book, plan.spread, 30001);
    let draw = some_coordinate(book, plan.spread, 4001);
    let past = book.below(64) == 0;
    PlainPoint {
        grade,
        weight: if past { 100000 } else { weight },
        moisture,
        speed,
        draw,
    }
}

// The point of a record that is held, in so many of sixteen calls of a kind, or a new one.
fn some_point(book: &mut Book, plan: Plan, kind: u32) -> PlainPoint {
    let held = u32::try_from(book.table.records.len()).unwrap_or(u32::MAX);
    let often = if matches!(kind, 2 | 3) { 12 } else { 2 };
    if book.below(16) < often && 0 < held {
        let i = book.below(held) as usize;
        if let Some(record) = book.table.records.get(i) {
            return record.point;
        }
    }
    new_point(book, plan)
}

// A random submission.
fn submit(words: &mut [u32], book: &mut Book, plan: Plan, s: u32) -> Result<(), Refusal> {
    let kind = some_kind(book);
    let p = some_point(book, plan, kind);
    let curve = some_curve(book);
    drive::submit(words, book, s, kind, p, curve)
}

// A random event.
fn event(words: &mut [u32], book: &mut Book, plan: Plan) -> Result<(), Refusal> {
    let s = some_station(book);
    match book.below(16) {
        0..=3 => submit(words, book, plan, s),
        4 | 5 => drive::take(words, book, s).map(|_| ()),
        6 => drive::withdraw(words, book, s),
        _ => drive::step(words, book, s),
    }
}

// A random event with all that is asked after it: a refusal left every word, the audit says yes, and the report is right.
fn audited_event(words: &mut [u32], book: &mut Book, plan: Plan) {
    book.copy(words);
    let outcome = event(words, book, plan);
    let kept = outcome.is_ok() || book.is_copy(words, 0);
    book.judge(kept);
    drive::judge_audit(words, book);
    drive::judge_report(words, book);
}

// One event of a history. In a long one the report alone is asked after it. Every unfinished call is tried alone at some events.
fn next_event(words: &mut [u32], book: &mut Book, plan: Plan, n: u32) {
    book.tried();
    if plan.audited {
        audited_event(words, book, plan);
    } else {
        let _ = event(words, book, plan);
        drive::judge_report(words, book);
    }
    if n.checked_rem(plan.alone) == Some(0) {
        drive::all_alone(words, book);
    }
}

// The events of a history that was begun, from one number up to another, and an audit at the end.
fn events(words: &mut [u32], book: &mut Book, plan: Plan, numbers: Range<u32>) {
    for n in numbers {
        next_event(words, book, plan, n);
    }
    drive::judge_audit(words, book);
}

// The index is opened with a rule and factors that are drawn, whatever the stations are doing, and events follow.
fn opened_events(words: &mut [u32], book: &mut Book, plan: Plan, numbers: Range<u32>) {
    let scale = some_scale(book);
    let _ = drive::open(words, book, plan.places, plan.limit, scale);
    events(words, book, plan, numbers);
}

// A history from its opening. Half way it is opened again, with another rule or other factors.
fn history(words: &mut [u32], book: &mut Book, plan: Plan, number: u32) {
    let half = plan.events / 2;
    book.begin_seed(number);
    opened_events(words, book, plan, 0..half);
    opened_events(words, book, plan, half..plan.events);
}

// Histories of one plan with different seeds, in exactly the words that its places need, in which answers of the plan's own code must come up, and of
// every code but those for every place taken and for changes spent.
pub fn histories(words: &mut [u32], book: &mut Book, plan: Plan) {
    if let Some(exact) = words.get_mut(..words_for(plan.places)) {
        for n in 0..plan.seeds {
            history(exact, book, plan, 1 + n);
        }
    }
    let met = [1, 2, 5, 6, 7, 8, 9, 11, plan.code]
        .iter()
        .all(|code| book.met(*code));
    book.judge(met);
}

// One history on the index as it is, of the plan of an item.
pub fn busy(words: &mut [u32], book: &mut Book, plan: Plan) {
    book.begin_seed(2026);
    events(words, book, plan, 0..plan.events);
}
