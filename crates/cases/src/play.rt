// The cases of a text are run: of each its items in turn, or two parties in every order, and its line is printed.
use crate::tally::end_case;
use contests::contest::contests;
use contests::hindered;
use lone_calls::ends::ends;
use lone_calls::raw;
use paired::history::{Plan, busy, histories};
use paired::orders::every_order_of_sections;
use paired::script::rule_given;
use paired::stairs::build;
use plain_list::book::Book;
use plain_list::parts::{before, begun};
use plain_list::text::{Item, Items, MOST_ITEMS};
use std::io::Print;

// What an item asks for: h random histories of a plan, b one on the index as it is, x a stair and y every axis at its ends, both under a rule, v
// contests; l, m and p what the line tells: the longest stretch, the most own steps of a search, their greatest share; a capital letter for a call on the
// index alone, and any other for an event on the index and on the plain table, which is wrong where there is no such event.
fn perform(words: &mut [u32], book: &mut Book, item: Item) {
    let n = item.n;
    match item.letter {
        b'h' => histories(words, book, Plan::of(n)),
        b'b' => busy(words, book, Plan::of(n)),
        b'x' => build(words, book, n[0] == 1, rule_given(n[1])),
        b'y' => ends(words, book, rule_given(n[0])),
        b'v' => contests(words, book, n),
        b'l' => book.tell_stretch(),
        b'm' => book.tell_own(),
        b'p' => book.tell_share(),
        b'A'..=b'Z' => raw::judged(words, book, item),
        _ => hindered::event(words, book, item),
    }
}

// Every item of a section.
fn perform_all(words: &mut [u32], book: &mut Book, section: &[u8]) {
    for item in Items::of(section).take(MOST_ITEMS) {
        perform(words, book, item);
    }
}

// The items of a case in turn, or, where it has two parties, in every order. They stand in the sections behind its name and what it counts; with another
// number of sections it is no case.
fn run_items(words: &mut [u32], book: &mut Book, text: &[u8]) {
    let mut sections = text.split(|byte| *byte == b'|').skip(2);
    let found = [
        sections.next(),
        sections.next(),
        sections.next(),
        sections.next(),
    ];
    match found {
        [Some(items), None, ..] => perform_all(words, book, items),
        [Some(setup), Some(one), Some(other), None] => every_order_of_sections(
            words, book, setup, one, other,
        ),
        _ => book.judge(false),
    }
}

// As many cases of a text are run at most.
const MOST_CASES: usize = 100000;

// Every case of a text.
pub fn run_cases(rt: &impl Print, words: &mut [u32], book: &mut Book, text: &[u8]) {
    let parts = begun(text).split(|byte| *byte == b'=').skip(1);
    for part in parts.take(MOST_CASES) {
        let case = before(part, b'#');
        book.begin_case();
        run_items(words, book, case);
        end_case(rt, book, case);
    }
}
