// The deepest trees: 4,096 records added in the order of their weight make a stair, in which the way down passes every cut.
use crate::drive;
use plain_list::book::Book;
use plain_list::point::PlainPoint;
use plain_list::scale::PlainScale;

// The places of the largest index.
const PLACES: u32 = 4096;

// The weight of a stair's record: every twentieth, from the light end or from the heavy end.
pub fn weight_at(n: u32, falling: bool) -> u32 {
    match 4095u32.checked_sub(n) {
        None => 0,
        Some(left) if falling => 20 * left + 1,
        Some(_) => 20 * n + 1,
    }
}

// One record is added.
fn add(words: &mut [u32], book: &mut Book, s: u32, weight: u32, curve: u32) {
    book.tried();
    drive::whole(words, book, s, 1, PlainPoint::at_weight(12, weight), curve);
}

// Records are added one after the other under a rule, by the eight stations in turn.
pub fn build(words: &mut [u32], book: &mut Book, falling: bool, rule: u32) {
    let _ = drive::open(words, book, PLACES, 500000000, PlainScale::ones_by(rule));
    for n in 0..PLACES {
        add(words, book, n % 8, weight_at(n, falling), 1 + n);
    }
}
