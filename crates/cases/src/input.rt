// The text of the cases that are run: what stands on standard input, or the program's own, which are put together in its place.
use crate::tally::refuse;
use crate::{cases, counters, factors, grades, hold_up, rule_words, rules, withdrawals};
use plain_list::book::Book;
use plain_list::given::{CUT, Given};
use std::alloc::{AllocError, Global};
use std::io::{Print, Read};

// The cases with histories and contests from seeds.
const RANDOM: [&str; 2] = [cases::HISTORIES, hold_up::HELD_UP];

// All the cases of the program: calls on the index alone, several stations, changes counted by station, openings with factors, the two rules, and those
// from seeds.
const ALL: [&str; 29] = [
    cases::CALLS,
    cases::REFUSALS,
    cases::STEP_REFUSALS,
    cases::FRAME_REFUSALS,
    cases::STATIONS,
    cases::ONE_POINT,
    withdrawals::WITHDRAWN,
    grades::SHARED,
    counters::COUNTED,
    counters::STORED,
    factors::OPENED,
    factors::STORED,
    factors::FRAMED,
    factors::NEAREST,
    factors::TIED,
    factors::BESIDE,
    rules::OPENED,
    rules::MOIST,
    rule_words::STORED,
    rule_words::ROWS,
    rule_words::RECORDS,
    rules::FRAMED,
    rules::NEAREST,
    rules::TOPS,
    rules::BEYOND,
    rules::TIED,
    rules::BESIDE,
    cases::HISTORIES,
    hold_up::HELD_UP,
];

// The texts one behind the other, in the place of one that was read, which has room for them.
fn joined(mut text: Vec<u8>, parts: &[&str]) -> Result<Vec<u8>, AllocError> {
    text.clear();
    for part in parts {
        text.extend_from_slice(part.as_bytes())?;
    }
    Ok(text)
}

// What stands on standard input, up to where a read fails, and no more than may be understood.
pub fn read(alloc: Global, input: &mut impl Read) -> Result<Vec<u8>, AllocError> {
    let mut text = Vec::with_capacity(alloc, CUT)?;
    let _ = input.take(CUT as u64).read_to_end(&mut text);
    Ok(text)
}

// The text that is to be run, from what was read of it. A text that is not understood has no case, and is a wrong one itself.
pub fn ready(rt: &impl Print, book: &mut Book, read: Vec<u8>) -> Result<Vec<u8>, AllocError> {
    match book.begin(&read) {
        Some(Given::All) => joined(read, &ALL),
        Some(Given::Random) => joined(read, &RANDOM),
        Some(Given::Text) => Ok(read),
        None => {
            refuse(rt, book);
            joined(read, &[])
        }
    }
}
