// What the rule says of the stored words, read from the words alone: the rule and the factors themselves, and the rows; and of an answer.
use crate::choice::most_factor;
use stations::answer::Answer;
use trial::cells::word;
use words::layout::{AT_RULE, AT_SCALE, RECORDS, ROW_SIZE};

// Whether the stored rule is 1 or 2, and all four stored factors are in range under it.
pub fn scale_stored(words: &[u32]) -> bool {
    let rule = word(words, AT_RULE);
    let factors = [AT_SCALE, AT_SCALE + 1, AT_SCALE + 2, AT_SCALE + 3].map(|at| word(words, at));
    matches!(rule, 1 | 2)
        && factors
            .iter()
            .all(|factor| 1 <= *factor && *factor <= most_factor(rule))
}

// Whether a moisture is in range under a rule.
fn is_moisture(rule: u32, x: u32) -> bool {
    x <= if rule == 2 { 9999 } else { 10000 }
}

// Whether moisture and square of an answer are in range under a rule.
pub fn answer_stored(rule: u32, answer: Answer) -> bool {
    let (moisture, square) = if rule == 2 {
        (9999, 17625567969600000016)
    } else {
        (10000, 11015800001000)
    };
    answer.point.moisture <= moisture && answer.square <= square
}

// Whether the axis of a cut is one that a rule goes by.
fn is_axis(rule: u32, x: u32) -> bool {
    if rule == 2 {
        matches!(x, 0 | 5..=8)
    } else {
        x <= 4
    }
}

// A word of a row.
pub fn at_row(r: u32, field: u32) -> usize {
    RECORDS + ROW_SIZE * (r as usize) + (field as usize)
}

// Whether a row is a spare one, one with a moisture in range, or a cut of the rule.
fn row_stored(words: &[u32], rule: u32, r: u32) -> bool {
    match word(words, at_row(r, 0)) {
        0 => true,
        1 | 2 => is_moisture(rule, word(words, at_row(r, 6))),
        3 => is_axis(rule, word(words, at_row(r, 4))),
        _ => false,
    }
}

// Whether so many rows are all so.
pub fn rows_stored(words: &[u32], rows: u32) -> bool {
    let rule = word(words, AT_RULE);
    (0..rows).all(|r| row_stored(words, rule, r))
}
