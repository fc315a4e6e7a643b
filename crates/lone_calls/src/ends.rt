// Adds at the ends of every axis, on the index alone.
use openings::open::open;
use plain_list::book::Book;
use plain_list::scale::DRY_RULE;
use points::point::Point;
use points::scale::Scale;
use submissions::submit::submit;
use words::refusal::Refusal;

// Of each axis the coordinate before the least, the least, the greatest and the one after it.
const ENDS: [[i32; 4]; 5] = [
    [0, 1, 9999, 10000],
    [0, 1, 100000, 100001],
    [-1, 0, 10000, 10001],
    [-1, 0, 30000, 30001],
    [-2001, -2000, 2000, 2001],
];

// Moisture, counted from 0 among the axes, and its ends under rule 2, where the greatest is one less.
const MOISTURE: usize = 2;

const DRY: [i32; 4] = [-1, 0, 9999, 10000];

// A point in the middle of its ranges but for the coordinate on one axis, counted from 0.
fn point_with(axis: usize, x: i32) -> Point {
    let middle = Point {
        grade: 12,
        weight: 8000,
        moisture: 550,
        speed: 9000,
        draw: 0,
    };
    match axis {
        0 => Point { grade: x, ..middle },
        1 => Point {
            weight: x,
            ..middle
        },
        MOISTURE => Point {
            moisture: x,
            ..middle
        },
        3 => Point { speed: x, ..middle },
        _ => Point { draw: x, ..middle },
    }
}

// An add of a point, on an index that is opened under a rule and copied before.
fn added(words: &mut [u32], book: &mut Book, rule: u32, point: Point) -> Result<(), Refusal> {
    let _ = open(
        words,
        1,
        10,
        Scale {
            rule,
            weight: 1,
            moisture: 1,
            speed: 1,
            draw: 1,
        },
    );
    book.copy(words);
    submit(words, 3, 1, point, 41)
}

// The add is accepted where it should be, and refused with 8 elsewhere, and a refused one left every word.
fn judged(words: &mut [u32], book: &mut Book, rule: u32, point: Point, inside: bool) {
    let outcome = added(words, book, rule, point);
    let due = if inside {
        Ok(())
    } else {
        Err(Refusal::BadPoint)
    };
    let kept = outcome.is_ok() || book.is_copy(words, 0);
    book.tried();
    book.judge(outcome == due);
    book.judge(kept);
}

// Every axis at its ends under a rule: of each the middle two are in range.
pub fn ends(words: &mut [u32], book: &mut Book, rule: u32) {
    for (axis, ends) in ENDS.iter().enumerate() {
        let ends = if axis == MOISTURE && rule == DRY_RULE {
            &DRY
        } else {
            ends
        };
        for (n, x) in ends.iter().enumerate() {
            judged(words, book, rule, point_with(axis, *x), matches!(n, 1 | 2));
        }
    }
}
