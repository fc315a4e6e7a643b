// Damage: a word of a live index is replaced.
use crate::ranges::at_row;
use crate::tally::Book;
use trial::cells::{put_word, word};
use words::layout::{AT_RULE, COMMON_SIZE, RECORDS};

// The offset of a word: the common record, a station's record, or a row.
fn some_offset(book: &mut Book, length: usize) -> usize {
    let end = match book.below(4) {
        0 => COMMON_SIZE,
        1 => RECORDS,
        _ => length,
    };
    book.below(u32::try_from(end).unwrap_or(0)) as usize
}

// What is put where a word was: the word with one bit flipped, 0, all bits, a small number, or any number.
fn harmed(book: &mut Book, old: u32) -> u32 {
    let k = book.below(32);
    match book.below(6) {
        0 | 1 => old ^ 1u32.checked_shl(k).unwrap_or(0),
        2 => 0,
        3 => u32::MAX,
        4 => k,
        _ => book.next(),
    }
}

// Any word is replaced.
fn harm_any(words: &mut [u32], book: &mut Book) {
    let at = some_offset(book, words.len());
    let new = harmed(book, word(words, at));
    put_word(words, at, new);
}

// The rule is replaced: mostly by the one or the other, or by none.
fn harm_rule(words: &mut [u32], book: &mut Book) {
    let new = match book.below(8) {
        0 => 0,
        1 => 3,
        2..=4 => 1,
        _ => 2,
    };
    put_word(words, AT_RULE, new);
}

// A word of a station's record.
fn at_station(s: u32, field: u32) -> usize {
    COMMON_SIZE + 64 * (s as usize) + (field as usize)
}

// Where a moisture stands: in a row, or in the call, the best or the answer of a station.
fn some_moisture_at(book: &mut Book) -> usize {
    let r = book.below(12);
    let s = book.below(8);
    match book.below(6) {
        0 => at_station(s, 4),
        1 => at_station(s, 14),
        2 => at_station(s, 23),
        _ => at_row(r, 6),
    }
}

// A moisture is replaced: by the greatest under each rule, or by one more.
fn harm_moisture(words: &mut [u32], book: &mut Book) {
    let at = some_moisture_at(book);
    let new = match book.below(4) {
        0 => 9999,
        1 => 10001,
        _ => 10000,
    };
    put_word(words, at, new);
}

// The axis of a cut is replaced, by one of either rule, or by none.
fn harm_axis(words: &mut [u32], book: &mut Book) {
    let r = book.below(12);
    let new = book.below(10);
    put_word(words, at_row(r, 4), new);
}

// One word of the index is replaced: any, or now and then one that is judged by the rule.
pub fn harm(words: &mut [u32], book: &mut Book) {
    match book.below(16) {
        0 => harm_rule(words, book),
        1..=3 => harm_moisture(words, book),
        4 => harm_axis(words, book),
        _ => harm_any(words, book),
    }
}
