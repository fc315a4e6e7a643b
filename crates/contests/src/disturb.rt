// Changes that disturb a search: another station removes a leaf at its cursor, below it or beside it, or adds a record next to such a leaf or to the
// target.
use crate::contest::Contest;
use crate::stand::Sight;
use paired::drive;
use paired::history::some_curve;
use plain_list::book::Book;
use plain_list::point::PlainPoint;
use plain_list::table::State;

// A leaf at or below a row, by a way down that is drawn.
fn leaf_below(sight: Sight<'_>, book: &mut Book, start: u32) -> u32 {
    let mut r = start;
    for _ in 0..sight.rows {
        let (left, right) = sight.children(r);
        let child = if book.below(2) == 0 { left } else { right };
        if child == r {
            return r;
        }
        r = child;
    }
    r
}

// Where a change is to fall: at the cursor of a search or below it, beside it, or anywhere.
fn some_start(sight: Sight<'_>, book: &mut Book, s: u32) -> u32 {
    let cursor = sight.cursor(s);
    match book.below(8) {
        0 => sight.root(),
        1 | 2 => sight.sibling(cursor),
        _ => cursor,
    }
}

// The record of a leaf there; of any leaf where the search is past the root.
fn some_victim(sight: Sight<'_>, book: &mut Book, s: u32) -> Option<PlainPoint> {
    let start = some_start(sight, book, s);
    let from = if start < sight.rows {
        start
    } else {
        sight.root()
    };
    sight.record(leaf_below(sight, book, from))
}

// A point right beside another: its weight differs by three at most.
fn near_to(book: &mut Book, p: PlainPoint) -> PlainPoint {
    let by = book.below(7);
    let speed = book.below(9);
    let weight = p.weight.wrapping_add(99997).wrapping_add(by) % 100000;
    PlainPoint { weight, speed, ..p }
}

impl Contest {
    // The point of a record beside a victim, beside the target of a search, or of the contest's own.
    fn some_new(self, book: &mut Book, target: PlainPoint, victim: PlainPoint) -> PlainPoint {
        match book.below(4) {
            0 => self.some_record(book),
            1 => near_to(book, target),
            _ => near_to(book, victim),
        }
    }

    // A change that disturbs the search for a target is submitted by station t, where a victim was found.
    fn submit_disturbing(
        self,
        words: &mut [u32],
        book: &mut Book,
        t: u32,
        target: PlainPoint,
        victim: PlainPoint,
    ) {
        let removes = book.below(8) < self.removals;
        let p = self.some_new(book, target, victim);
        let curve = some_curve(book);
        let _ = if removes {
            drive::submit(words, book, t, 2, victim, 0)
        } else {
            drive::submit(words, book, t, 1, p, curve)
        };
    }

    // An add of the contest's own records, which fills the index again.
    fn submit_add(self, words: &mut [u32], book: &mut Book, t: u32) {
        let p = self.some_record(book);
        let curve = some_curve(book);
        let _ = drive::submit(words, book, t, 1, p, curve);
    }

    // A change is submitted by station t: one that disturbs the call of station s, or an add where that station has none unfinished or the tree is empty.
    // The call is a search, but where the contest's opening was refused and one of another kind stands there from before.
    pub fn submit_change(self, words: &mut [u32], book: &mut Book, s: u32, t: u32) {
        let victim = some_victim(Sight::of(words, book), book, s);
        match (book.table.state(s), victim) {
            (State::Unfinished(call), Some(victim)) => {
                self.submit_disturbing(words, book, t, call.point(), victim)
            }
            _ => self.submit_add(words, book, t),
        }
    }
}
