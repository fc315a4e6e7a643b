// Every call on an index, with random arguments. Each gives what it comes to, or the refusal of the question that failed.
use crate::choice::{most_factor, some_rule, some_scale, some_station};
use crate::ranges::answer_stored;
use crate::tally::Book;
use openings::open::open;
use points::point::Point;
use points::scale::Scale;
use points::word::point_at;
use stations::answer::answer_sound;
use words::refusal::Refusal;
use words::rule::read_rule;

// The kinds of calls.
#[derive(Clone, Copy, PartialEq, Eq)]
pub enum Kind {
    Submit,
    Step,
    Run,
    Take,
    Withdraw,
    Report,
    Audit,
    Open,
}

impl Kind {
    // Where a kind is counted.
    pub fn index(self) -> usize {
        self as usize
    }
}

// What a call that is not refused comes to: an audit may say no, and no call may give what is out of range.
#[derive(Clone, Copy, PartialEq, Eq)]
pub enum Told {
    Done,
    No,
    OutOfRange,
}

// The number under which a call is counted; 13, which is that of no question here, stands for an audit that says no, and 99 for what no call gives.
pub fn number_of(outcome: Result<Told, Refusal>) -> u32 {
    match outcome {
        Ok(Told::Done) => 0,
        Ok(Told::No) => 13,
        Ok(Told::OutOfRange) => 99,
        Err(refusal) => refusal.number(),
    }
}

// A moisture, mostly 0; now and then the greatest, or one less, which is the greatest under rule 2.
fn some_moisture(book: &mut Book) -> u32 {
    match book.below(16) {
        0 => 9999,
        1 => 10000,
        2 | 3 => 1,
        _ => 0,
    }
}

// A point of few, in range or not.
fn some_point(book: &mut Book) -> Point {
    let grade = book.below(2);
    let weight = book.below(9);
    let moisture = some_moisture(book);
    let speed = book.below(2);
    let past = book.below(32) == 0;
    point_at(
        grade,
        weight,
        moisture,
        speed,
        if past { 4001 } else { 2000 },
    )
}

// A submission.
fn submit(words: &mut [u32], book: &mut Book, s: u32) -> Result<(), Refusal> {
    let kind = book.below(6);
    let point = some_point(book);
    let curve = book.below(30);
    submissions::submit::submit(words, s, kind, point, curve)
}

// A taking, whose answer is in range under the rule.
fn take(words: &mut [u32], s: u32) -> Result<Told, Refusal> {
    let rule = read_rule(words);
    let answer = takings::take::take(words, s)?;
    let sound = answer_sound(rule, answer) && answer_stored(rule, answer);
    Ok(if sound { Told::Done } else { Told::OutOfRange })
}

// An audit.
pub fn audit(words: &[u32]) -> Result<Told, Refusal> {
    Ok(if audits::audit::audit(words)? {
        Told::Done
    } else {
        Told::No
    })
}

// A factor out of range under a rule: below the least, or above the greatest.
fn bad_factor(book: &mut Book, rule: u32) -> u32 {
    match book.below(3) {
        0 => 0,
        1 => most_factor(rule).saturating_add(1),
        _ => u32::MAX,
    }
}

// A rule that there is not.
fn bad_rule(book: &mut Book) -> u32 {
    match book.below(3) {
        0 => 0,
        1 => 3,
        _ => u32::MAX,
    }
}

// A rule, and factors of which one is out of range, on an axis that is drawn.
fn scaled_badly(book: &mut Book, rule: u32) -> Scale {
    let bad = bad_factor(book, rule);
    let mut factors = [1, 7, 11, 16];
    if let Some(factor) = factors.get_mut(book.below(4) as usize) {
        *factor = bad;
    }
    let [weight, moisture, speed, draw] = factors;
    Scale {
        rule,
        weight,
        moisture,
        speed,
        draw,
    }
}

// Rule 1 or 2, and a factor that is wrong.
fn bad_factors(book: &mut Book) -> Scale {
    let rule = some_rule(book);
    scaled_badly(book, rule)
}

// A wrong rule, a factor being wrong as well.
fn bad_scale(book: &mut Book) -> Scale {
    let rule = bad_rule(book);
    scaled_badly(book, rule)
}

// An opening that is refused by question 1 or 2, rule and factors being wrong as well.
fn open_early(words: &mut [u32], book: &mut Book) -> Result<(), Refusal> {
    let scale = bad_scale(book);
    match book.below(3) {
        0 => open(words, 0, 10, scale),
        1 => open(words, 4097, 10, scale),
        _ => open(words, 1, 0, scale),
    }
}

// An opening that is refused by this scale, the slice being long enough or too short.
fn open_by(words: &mut [u32], book: &mut Book, scale: Scale) -> Result<(), Refusal> {
    let places = if book.below(2) == 0 { 1 } else { 4096 };
    open(words, places, 10, scale)
}

// An opening that is refused: by the rule, by the factors, by the slice alone, or earlier.
fn open_any(words: &mut [u32], book: &mut Book) -> Result<(), Refusal> {
    let by_rule = bad_scale(book);
    let by_factors = bad_factors(book);
    let in_range = some_scale(book);
    match book.below(8) {
        0 | 1 => open_by(words, book, by_rule),
        2 | 3 => open_by(words, book, by_factors),
        4 | 5 => open(words, 4096, 10, in_range),
        _ => open_early(words, book),
    }
}

// A call of a kind.
pub fn call(words: &mut [u32], book: &mut Book, kind: Kind) -> Result<Told, Refusal> {
    let s = some_station(words, book, kind);
    match kind {
        Kind::Submit => submit(words, book, s)?,
        Kind::Step => steps::step::step(words, s)?,
        Kind::Run => runs::run::run(words, s)?,
        Kind::Take => return take(words, s),
        Kind::Withdraw => steps::withdraw::withdraw(words, s)?,
        Kind::Report => {
            reports::report::read_report(words)?;
        }
        Kind::Audit => return audit(words),
        Kind::Open => open_any(words, book)?,
    }
    Ok(Told::Done)
}

// Whether Rules 7.1 lets a call of a kind be refused with this.
fn may_refuse(kind: Kind, refusal: Refusal) -> bool {
    match refusal {
        Refusal::BadPlaces
        | Refusal::BadLimit
        | Refusal::ShortSlice
        | Refusal::BadFactor
        | Refusal::BadRule => kind == Kind::Open,
        Refusal::NotOpened => kind != Kind::Open,
        Refusal::NoStation => !matches!(kind, Kind::Report | Kind::Audit | Kind::Open),
        Refusal::NotIdle | Refusal::NoKind | Refusal::BadPoint | Refusal::BadCurve => kind
            == Kind::Submit,
        Refusal::NotUnfinished | Refusal::Unsound => matches!(
            kind,
            Kind::Step | Kind::Run | Kind::Withdraw
        ),
        Refusal::NothingWaits => kind == Kind::Take,
    }
}

// Whether Rules 7.1 lets a call of a kind come to this. The openings here are all refused.
pub fn is_allowed(kind: Kind, outcome: Result<Told, Refusal>) -> bool {
    match outcome {
        Ok(Told::Done) => kind != Kind::Open,
        Ok(Told::No) => kind == Kind::Audit,
        Ok(Told::OutOfRange) => false,
        Err(refusal) => may_refuse(kind, refusal),
    }
}
