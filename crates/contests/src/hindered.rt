// The events of a case, those of a search that other stations hinder among them.
use crate::stand::Sight;
use paired::{drive, script};
use plain_list::book::Book;
use plain_list::point::PlainPoint;
use plain_list::text::Item;

// A station removes a record by a whole call.
fn remove(words: &mut [u32], book: &mut Book, s: u32, p: PlainPoint) {
    drive::whole(words, book, s, 2, p, 0);
}

// A station removes every record, each time the one that was added last of those held, or that was moved there.
fn remove_all(words: &mut [u32], book: &mut Book, s: u32) {
    for _ in 0..book.table.records.len() {
        if let Some(record) = book.table.records.last().copied() {
            remove(words, book, s, record.point);
        }
    }
    drive::judge_event(words, book);
}

// So many steps of one station.
fn steps(words: &mut [u32], book: &mut Book, s: u32, count: u32) {
    for _ in 0..count {
        let _ = drive::step(words, book, s);
    }
    drive::judge_event(words, book);
}

// The leaf on which the search of station s stands is removed by another, where it has at most three cuts above it. On a stair the search has seen
// nearly everything then, and its cursor moves to the leaf's sibling: a search that went down there once more would go through all the stair again.
fn hinder(words: &mut [u32], book: &mut Book, s: u32, other: u32) {
    if let Some(p) = Sight::of(words, book).high_leaf(s) {
        remove(words, book, other, p);
    }
}

// One own step of the search after the other station's try.
fn hindered_step(words: &mut [u32], book: &mut Book, s: u32, other: u32) {
    hinder(words, book, s, other);
    let _ = drive::step(words, book, s);
    drive::judge_event(words, book);
}

// Own steps of the search of station s until it is answered, each after a try of the other station. They are stopped where they pass even what a
// station left to itself may need, so that the case ends.
fn hold_up(words: &mut [u32], book: &mut Book, s: u32, other: u32) {
    for _ in 0..drive::most_steps(book) {
        if !book.table.is_unfinished(s) {
            return;
        }
        hindered_step(words, book, s, other);
    }
    let answered = !book.table.is_unfinished(s);
    book.judge(answered);
}

// An event of a case, counted: d, q and u for a search that is held up, and any other letter for an event of a script.
pub fn event(words: &mut [u32], book: &mut Book, item: Item) {
    let [s, second, ..] = item.n;
    book.tried();
    match item.letter {
        b'd' => remove_all(words, book, s),
        b'q' => steps(words, book, s, second),
        b'u' => hold_up(words, book, s, second),
        _ => script::event(words, book, item),
    }
}
