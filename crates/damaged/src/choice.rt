// The rule and the factors of an opening; the kind of a call, and its station. Most calls go to a station at which there is something to do, so that few
// are refused for its state alone.
ghost use Rattle.std.specs.Prelude.{◌≤◌};

use crate::attempts::Kind;
use crate::tally::Book;
use points::scale::Scale;
use stations::station::read_state;

// Rule 1 or 2.
pub fn some_rule(book: &mut Book) -> u32 {
    if book.below(2) == 0 { 1 } else { 2 }
}

// The greatest factor under a rule.
pub fn most_factor(rule: u32) -> u32
    ensures { result ≤ 1000 }
{
    if rule == 2 { 16 } else { 1000 }
}

// A factor in range under a rule.
fn some_factor(book: &mut Book, rule: u32) -> u32 {
    let any = book.below(most_factor(rule));
    match book.below(4) {
        0 => 1,
        1 => most_factor(rule),
        _ => any.saturating_add(1),
    }
}

// A rule, and factors in range under it; in half of the cases under either rule.
pub fn some_scale(book: &mut Book) -> Scale {
    let rule = some_rule(book);
    let by = if book.below(2) == 0 { 2 } else { rule };
    let weight = some_factor(book, by);
    let moisture = some_factor(book, by);
    let speed = some_factor(book, by);
    let draw = some_factor(book, by);
    Scale {
        rule,
        weight,
        moisture,
        speed,
        draw,
    }
}

// Any station; now and then one that there is not.
fn any_station(book: &mut Book) -> u32 {
    match book.below(32) {
        0 => 8,
        1 => book.next(),
        k => k % 8,
    }
}

// Whether a station is live for a call of a kind, by the word of its state: a submission finds it idle, a taking an answer, any other call an unfinished one.
fn is_live(words: &[u32], kind: Kind, s: u32) -> bool {
    let state = read_state(words, s);
    match kind {
        Kind::Submit => state.is_idle(),
        Kind::Take => !state.is_idle() && !state.is_unfinished(),
        _ => state.is_unfinished(),
    }
}

// The first live station from a number on, around the eight, where there is any.
fn live_from(words: &[u32], kind: Kind, from: u32) -> Option<u32> {
    (0..8)
        .map(|k| from.wrapping_add(k) % 8)
        .find(|s| is_live(words, kind, *s))
}

// A station for a call of a kind: three times of four a live one, where there is any.
pub fn some_station(words: &[u32], book: &mut Book, kind: Kind) -> u32 {
    let any = any_station(book);
    let often = book.below(4) != 0;
    match live_from(words, kind, book.below(8)) {
        Some(live) if often => live,
        _ => any,
    }
}

// A kind of call, whatever the stations are doing; mostly submissions and steps.
fn any_kind(book: &mut Book) -> Kind {
    match book.below(32) {
        0..=7 => Kind::Submit,
        8..=18 => Kind::Step,
        19 | 20 => Kind::Run,
        21..=24 => Kind::Take,
        25 | 26 => Kind::Withdraw,
        27 | 28 => Kind::Report,
        29 | 30 => Kind::Audit,
        _ => Kind::Open,
    }
}

// A kind of call. Where every station would refuse it for its state, three times of four a submission instead.
pub fn some_kind(words: &[u32], book: &mut Book) -> Kind {
    let kind = any_kind(book);
    let often = book.below(4) != 0;
    let asks = matches!(kind, Kind::Step | Kind::Run | Kind::Take | Kind::Withdraw);
    if often && asks && live_from(words, kind, 0).is_none() {
        Kind::Submit
    } else {
        kind
    }
}
