// Runs the cases that the claims of the index speak of, or those on standard input, against a plain list of records beside it, and prints a line for each.
#![tactic(auto)]

mod cases;
mod counters;
mod factors;
mod grades;
mod hold_up;
mod input;
mod play;
mod rule_words;
mod rules;
mod tally;
mod withdrawals;

use plain_list::book::{Book, MOST_WORDS};
use std::alloc::AllocError;

fn main(rt: HostRuntime) -> Result<(), AllocError> {
    let alloc = rt.alloc();
    let mut words = vec![in alloc; 1515870811u32; MOST_WORDS]?;
    let mut book = Book::new(alloc)?;
    let read = input::read(alloc, &mut rt.stdin())?;
    let text = input::ready(&rt, &mut book, read)?;
    play::run_cases(&rt, &mut words, &mut book, &text);
    tally::end(&rt, &book);
    Ok(())
}
