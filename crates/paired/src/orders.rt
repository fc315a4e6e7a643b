// Two parties, each with calls or single events: their events in every order.
use crate::script::Call;
use crate::{drive, script};
use plain_list::book::Book;
use plain_list::table::State;
use plain_list::text::{Item, Items, MOST_ITEMS};

// The events that are dealt out in every order, and the orders.
const EVENTS: u32 = 14;

const ORDERS: u32 = 16384;

// Items one behind another, in a section of a text or in a list.
trait Behind: Copy + Drop {
    // The first of them is the next item, none where none is left.
    fn follow(&mut self, next: &mut Option<Item>);
}

impl Behind for Items<'_> {
    fn follow(&mut self, next: &mut Option<Item>) {
        *next = self.next();
    }
}

impl Behind for &[Item] {
    fn follow(&mut self, next: &mut Option<Item>) {
        *next = self.first().copied();
        if let Some((_, left)) = self.split_first() {
            *self = left;
        }
    }
}

// The items of a party that are still to be done: the next one, where any is left, and those behind it.
#[derive(Clone, Copy)]
struct Party<B> {
    next: Option<Item>,
    behind: B,
}

impl<B: Behind> Party<B> {
    // A party that has all the items to do.
    fn of(mut behind: B) -> Party<B> {
        let mut next = None;
        behind.follow(&mut next);
        Party { next, behind }
    }

    // The next item is done.
    fn pass(&mut self) {
        self.behind.follow(&mut self.next);
    }

    // The next event of a whole call: its submission, a step, or its taking, with which its item is done.
    fn call_event(&mut self, words: &mut [u32], book: &mut Book, call: Call) {
        let s = call.station;
        match book.table.state(s) {
            State::Idle => script::submit(words, book, call),
            State::Unfinished(_) => {
                let _ = drive::step(words, book, s);
            }
            State::Waiting => {
                script::take(words, book, call);
                self.pass();
            }
        }
    }

    // The next event of a party; none where all its items are done. Of a whole call each step is one.
    fn act(&mut self, words: &mut [u32], book: &mut Book) {
        let Some(item) = self.next else {
            return;
        };
        if matches!(item.letter, b'c' | b'f') {
            self.call_event(words, book, Call::of(item));
            drive::judge_event(words, book);
        } else {
            script::event(words, book, item);
            self.pass();
        }
    }
}

// One order, after the opening: events in the order, a bit for each, and then what is left of the other party and of the one. The parties come by value, since
// each order begins with the whole of both.
fn one_order<B: Behind>(
    words: &mut [u32],
    book: &mut Book,
    mut one: Party<B>,
    mut other: Party<B>,
    order: u32,
) {
    for k in 0..74 {
        let first = if k < EVENTS {
            (order >> k) & 1 == 1
        } else {
            44 <= k
        };
        if first {
            one.act(words, book)
        } else {
            other.act(words, book)
        }
    }
    book.judge(one.next.is_none());
    book.judge(other.next.is_none());
    book.tried();
}

// The opening from its section.
fn set_up_section(words: &mut [u32], book: &mut Book, setup: &[u8]) {
    for item in Items::of(setup).take(MOST_ITEMS) {
        script::event(words, book, item);
    }
}

// Every order, from the sections with the opening and with the items of each party.
pub fn every_order_of_sections(
    words: &mut [u32],
    book: &mut Book,
    setup: &[u8],
    one: &[u8],
    other: &[u8],
) {
    let one = Party::of(Items::of(one));
    let other = Party::of(Items::of(other));
    for order in 0..ORDERS {
        set_up_section(words, book, setup);
        one_order(words, book, one, other, order);
    }
}

// The opening from its items.
fn set_up(words: &mut [u32], book: &mut Book, setup: &[Item]) {
    for item in setup {
        script::event(words, book, *item);
    }
}

// Every order, from the items of the opening and of each party.
pub fn every_order(
    words: &mut [u32],
    book: &mut Book,
    setup: &[Item],
    one: &[Item],
    other: &[Item],
) {
    let one = Party::of(one);
    let other = Party::of(other);
    for order in 0..ORDERS {
        set_up(words, book, setup);
        one_order(words, book, one, other, order);
    }
}

#[cfg(test)]
mod tests {
    use super::*;
    use plain_list::text::items_of;
    use std::alloc::AllocError;

    const SETUP: &[u8] = b"o 4 100; c 0 1 12 8000 41;";

    const ONE: &[u8] = b"c 1 4 12 8000 0 0; c 1 2 12 8000 0;";

    const OTHER: &[u8] = b"c 2 1 12 8001 42;";

    // A search and a removal of the one party meet an add of the other in every order: from lists as from sections, and nothing is wrong.
    #[test]
    fn lists_meet_as_sections_do(rt: HostRuntime) -> Result<(), AllocError> {
        let mut words = [0; 736];
        let mut book = Book::new(rt.alloc())?;
        let setup = items_of(rt.alloc(), SETUP)?;
        let one = items_of(rt.alloc(), ONE)?;
        let other = items_of(rt.alloc(), OTHER)?;
        every_order(&mut words, &mut book, &setup, &one, &other);
        let listed = book.case;
        book.begin_case();
        every_order_of_sections(&mut words, &mut book, SETUP, ONE, OTHER);
        assert_eq!(rt; listed.tried, 16384);
        assert_eq!(rt; listed.wrong, 0);
        assert_eq!(rt; listed.checks, book.case.checks);
        assert_eq!(rt; listed.codes, book.case.codes);
        Ok(())
    }
}
