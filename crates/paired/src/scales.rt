// Rules and factors from the generator, for the openings of random histories.
use plain_list::book::Book;
use plain_list::scale::{DRY_RULE, PLAIN_RULE, PlainScale};

// A factor: the least, the greatest under the rule, or one of four between them.
fn some_factor(book: &mut Book, rule: u32) -> u32 {
    let dry = rule == DRY_RULE;
    match book.below(6) {
        0 => 1,
        1 => 2,
        2 => 3,
        3 => 7,
        4 => if dry { 11 } else { 30 },
        _ => if dry { 16 } else { 1000 },
    }
}

// The factors of an opening under a rule: four ones in half of the cases, and else each drawn by itself.
pub fn scale_by(book: &mut Book, rule: u32) -> PlainScale {
    let plain = book.below(2) == 0;
    let mut factors = [0; 4];
    for factor in factors.iter_mut() {
        *factor = some_factor(book, rule);
    }
    if plain {
        PlainScale::ones_by(rule)
    } else {
        PlainScale { rule, factors }
    }
}

// The rule of an opening, and its factors.
pub fn some_scale(book: &mut Book) -> PlainScale {
    let dry = book.below(2) == 0;
    scale_by(book, if dry { DRY_RULE } else { PLAIN_RULE })
}
