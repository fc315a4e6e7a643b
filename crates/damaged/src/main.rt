// Damages words of a live index at random and makes every call on it: each call returns with one of the numbers of Rules 7.1 or an answer, a
// refused one changes nothing, a withdrawal changes no row, an audit that says yes finds every row in range under the rule, and none touches a word outside of
// its slice.
#![tactic(auto)]

ghost use Rattle.std.specs.Prelude.{◌≤◌, length};

mod attempts;
mod choice;
mod harm;
mod ranges;
mod tally;

use attempts::{Kind, Told, audit, call, is_allowed};
use choice::{some_kind, some_scale};
use harm::harm;
use ranges::{rows_stored, scale_stored};
use std::io::{Print, Read};
use tally::Book;
use trial::bytes::seed_in;
use trial::cells::same;
use words::layout::{RECORDS, ROW_SIZE};
use words::refusal::Refusal;

// The index of six places, in the middle of a larger slice.
const START: usize = 100;

const PLACES: u32 = 6;

// Where its rows begin, and where they end.
const ROWS: usize = START + RECORDS;

const END: usize = ROWS + 2 * (PLACES as usize) * ROW_SIZE;

const WHOLE: usize = END + START;

const LIMIT: u32 = 60;

// The rounds, and the calls of a round before the first damage and after it.
const ROUNDS: u32 = 3000;

const BEFORE: u32 = 60;

const AFTER: u32 = 60;

// The larger slice, and what it was before a call.
#[derive(Clone, Copy)]
struct Trial {
    whole: [u32; WHOLE],
    copied: [u32; WHOLE],
}

// Whether the call can have changed nothing: it was refused, and was no run; or it was a report or an audit.
fn changes_nothing(kind: Kind, outcome: Result<Told, Refusal>) -> bool {
    match kind {
        Kind::Report | Kind::Audit => true,
        Kind::Run => false,
        _ => outcome.is_err(),
    }
}

// Whether a call on these words may come to this: to refusal 4 alone where the stored rule or a stored factor is out of range, unless it opens; and an audit
// says yes only to rows in range under the rule.
fn may_give(words: &[u32], kind: Kind, outcome: Result<Told, Refusal>) -> bool {
    if kind != Kind::Open && !scale_stored(words) {
        return outcome == Err(Refusal::NotOpened);
    }
    let praised = kind == Kind::Audit && outcome == Ok(Told::Done);
    is_allowed(kind, outcome) && (!praised || rows_stored(words, 2 * PLACES))
}

impl Trial {
    // Whether the words around the middle part are as they were.
    fn outside_kept(&self) -> bool {
        self.whole[..START] == self.copied[..START] && self.whole[END..] == self.copied[END..]
    }

    // What is asked after a call: what it came to, the words around the slice, every word where it changes nothing, and the rows where it is a withdrawal.
    fn judge_call(&self, book: &mut Book, kind: Kind, outcome: Result<Told, Refusal>) {
        let may = may_give(&self.copied[START..END], kind, outcome);
        let outside = self.outside_kept();
        let kept = !changes_nothing(kind, outcome) || self.whole == self.copied;
        let rows_kept = kind != Kind::Withdraw || same(&self.whole, &self.copied, ROWS, END);
        book.judge(may);
        book.judge(outside);
        book.judge(kept && rows_kept);
    }

    // A random call with what is asked after it.
    fn judged_call(&mut self, book: &mut Book) {
        let kind = some_kind(&self.whole[START..END], book);
        self.copied = self.whole;
        let outcome = call(&mut self.whole[START..END], book, kind);
        self.judge_call(book, kind, outcome);
        book.count_call(kind, outcome);
    }

    // One word is damaged, so many times of eight.
    fn some_damage(&mut self, book: &mut Book, often: u32) {
        if book.below(8) < often {
            book.count_damage();
            harm(&mut self.whole[START..END], book);
        }
    }

    // The middle part is opened, whatever it holds, and an audit says yes.
    fn open(&mut self, book: &mut Book) -> Result<Told, Refusal> {
        let scale = some_scale(book);
        openings::open::open(&mut self.whole[START..END], PLACES, LIMIT, scale)?;
        audit(&self.whole[START..END])
    }

    // An opening is accepted, and leaves the words around the middle part.
    fn judged_opening(&mut self, book: &mut Book) {
        self.copied = self.whole;
        let opened = self.open(book) == Ok(Told::Done);
        let outside = self.outside_kept();
        book.judge(opened);
        book.judge(outside);
    }

    // Each round opens the slice that the round before damaged: calls on an undamaged index, and then on a damaged one, with more damage between them.
    fn round(&mut self, book: &mut Book) {
        self.judged_opening(book);
        for _ in 0..BEFORE {
            self.judged_call(book);
        }
        self.some_damage(book, 8);
        for _ in 0..AFTER {
            self.some_damage(book, 1);
            self.judged_call(book);
        }
    }
}

// The rounds from a seed, and what was counted.
fn run(rt: &impl Print, number: u32) {
    let mut trial = Trial {
        whole: [1515870810; WHOLE],
        copied: [0; WHOLE],
    };
    let mut book = Book::new(number);
    for _ in 0..ROUNDS {
        trial.round(&mut book);
    }
    book.say_all(rt);
}

// The rounds from a seed that was given, which is told first. The generator cannot begin with 0.
fn run_given(rt: &impl Print, number: u32) {
    if number == 0 {
        let _ = println!(rt; "damaged: a seed is a number from 1 to 4294967295, such as 2026");
        return;
    }
    let _ = println!(rt; "seed: {number}");
    run(rt, number);
}

// Reads until the bytes are full, the input ends or a read fails, and gives how many were read. The bytes lie on the stack, so that there is always memory for them.
fn read_full(input: &mut impl Read, bytes: &mut [u8]) -> usize
    ensures { result ≤ length bytes.new }
{
    let mut done = 0;
    while done < bytes.len() {
        let n = input.read(&mut bytes[done..]).unwrap_or(0);
        if n == 0 {
            break;
        }
        done += n;
    }
    done
}

// The seed is the first number on standard input, or a fixed one where that is empty.
fn main(rt: HostRuntime) {
    let mut bytes = [0u8; 4096];
    let n = read_full(&mut rt.stdin(), &mut bytes);
    if n == 0 {
        run(&rt, 2026);
    } else {
        run_given(&rt, seed_in(&bytes[..n]));
    }
}
