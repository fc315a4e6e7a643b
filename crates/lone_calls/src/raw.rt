// Calls on the index alone, from the items of a text: each gives the number that its item says, and a refused one leaves every word. An item has
// a capital letter for the call, how many words it is lent, four arguments and the number; one that opens with factors, six arguments and the number, and one
// that opens with factors and a rule, seven and the number. What a call gives is a number here, since that is what a text says; 99 stands for what no call gives.
use crate::framed::{NEVER, framed};
use crate::opened::{opened_plain, opened_ruled, opened_scaled};
use audits::audit::audit;
use openings::open::open;
use plain_list::book::Book;
use plain_list::point::PlainPoint;
use plain_list::scale::PLAIN_RULE;
use plain_list::text::Item;
use points::point::Point;
use points::scale::{Scale, plain_scale};
use reports::report::read_report;
use runs::run::run;
use steps::step::step;
use steps::withdraw::withdraw;
use submissions::submit::submit;
use takings::take::take;
use trial::cells::{put_word, word};
use words::layout::words_for;
use words::refusal::number_told;

// The number of an audit, and 1 where it says no.
fn audited(words: &[u32]) -> u32 {
    match audit(words) {
        Ok(true) => 0,
        Ok(false) => 1,
        Err(refusal) => refusal.number(),
    }
}

// The number of a taking. Where its item says a code, an answer of another one is wrong.
fn taken(words: &mut [u32], s: u32, code: u32) -> u32 {
    match take(words, s) {
        Ok(answer) if code != 0 && answer.code != code => NEVER,
        Ok(_) => 0,
        Err(refusal) => refusal.number(),
    }
}

// A rule, and the factors of an item, behind its places and its limit.
fn scale_given(rule: u32, n: [u32; 9]) -> Scale {
    let [_, _, _, weight, moisture, speed, draw, ..] = n;
    Scale {
        rule,
        weight,
        moisture,
        speed,
        draw,
    }
}

// The point of grade 12, a weight and a moisture.
fn moist(weight: u32, moisture: u32) -> Point {
    Point::from(PlainPoint {
        moisture,
        ..PlainPoint::at_weight(12, weight)
    })
}

// The call of an item, and its number. Places and limit of an opening (O, and J as a frame), the four factors of one that has them (X, and G as a
// frame), and factors and rule (Y, and H as a frame); station, kind, weight of a point of grade 12 and curve of a submission (S), or its weight and moisture,
// the curve being 41 (M); the station of a step, a run, a taking and a withdrawal (D), and of a taking the code that its answer may have, 0 where it may be
// any; the bytes there, the length and the kind of a frame; an offset and the word that is written there (W) or stands there (V).
fn perform(words: &mut [u32], item: Item) -> u32 {
    let n = item.n;
    let [_, first, second, third, fourth, ..] = n;
    match item.letter {
        b'O' => number_told(open(words, first, second, plain_scale())),
        b'X' => number_told(open(words, first, second, scale_given(PLAIN_RULE, n))),
        b'Y' => number_told(open(words, first, second, scale_given(n[7], n))),
        b'J' => opened_plain(words, n),
        b'G' => opened_scaled(words, n),
        b'H' => opened_ruled(words, n),
        b'S' => number_told(submit(words, first, second, moist(third, 0), fourth)),
        b'M' => number_told(submit(words, first, second, moist(third, fourth), 41)),
        b'T' => number_told(step(words, first)),
        b'R' => number_told(run(words, first)),
        b'K' => taken(words, first, second),
        b'D' => number_told(withdraw(words, first)),
        b'P' => number_told(read_report(words)),
        b'A' => audited(words),
        b'F' => framed(words, first, second, third),
        b'W' => write(words, first, second),
        b'V' => stands(words, first, second),
        _ => NEVER,
    }
}

// Writes a word, as no call does.
fn write(words: &mut [u32], at: u32, value: u32) -> u32 {
    put_word(words, at as usize, value);
    0
}

// Whether a word stands at an offset: 0, or a number that no call gives.
fn stands(words: &[u32], at: u32, value: u32) -> u32 {
    if word(words, at as usize) == value {
        0
    } else {
        NEVER
    }
}

// The call of an item in so many words.
fn perform_in(words: &mut [u32], length: u32, item: Item) -> u32 {
    match words.get_mut(..length as usize) {
        Some(lent) => perform(lent, item),
        None => NEVER,
    }
}

// Where the number stands that an item says: behind factors where it opens with them, and behind a rule too.
fn due_of(item: Item) -> u32 {
    match item.letter {
        b'Y' | b'H' => item.n[8],
        b'X' | b'G' => item.n[7],
        _ => item.n[5],
    }
}

// Where the words begin that a call must leave: all of them for a refusal, and those past its rows for an opening.
fn kept_from(item: Item, number: u32) -> usize {
    match item.letter {
        _ if number != 0 => 0,
        b'O' | b'J' | b'X' | b'G' | b'Y' | b'H' => words_for(item.n[1]),
        _ => usize::MAX,
    }
}

// An item is judged: the number, and the words kept. A letter that is none of these is wrong, whatever number it says.
pub fn judged(words: &mut [u32], book: &mut Book, item: Item) {
    book.tried();
    book.copy(words);
    let number = perform_in(words, item.n[0], item);
    let kept = book.is_copy(words, kept_from(item, number));
    book.judge(number == due_of(item) && number != NEVER);
    book.judge(kept);
}
