// Contests: up to three stations search, and five others remove and add at their cursors, beside them and at their targets, by whole calls and by
// single steps in any order, so that several changes are half done at a time.
use crate::stand::Sight;
use paired::drive;
use paired::history::{some_curve, some_grade};
use paired::scales::scale_by;
use paired::script::turn;
use paired::stairs::weight_at;
use plain_list::book::Book;
use plain_list::point::PlainPoint;
use plain_list::scale::PlainScale;

// How the records of a contest lie: on a stair, from the light end or from the heavy end, or anywhere.
#[derive(Clone, Copy)]
pub enum Lie {
    Rising,
    Falling,
    Anywhere,
}

// What a contest is drawn to be: how many stations search; how its records lie; whether they have several grades; how many of eight turns are the
// searches', and how many of eight changes are removals; and whether the others wait until a search is near its end.
#[derive(Clone, Copy)]
pub struct Contest {
    pub searches: u32,
    pub lie: Lie,
    pub graded: bool,
    pub turns: u32,
    pub removals: u32,
    pub patient: bool,
}

// One of three numbers; the last of them in as many draws of n as are left.
fn one_of(book: &mut Book, n: u32, numbers: [u32; 3]) -> u32 {
    let [first, second, rest] = numbers;
    match book.below(n) {
        0 => first,
        1 => second,
        _ => rest,
    }
}

impl Contest {
    // A contest.
    fn drawn(book: &mut Book) -> Contest {
        let searches = one_of(book, 4, [3, 2, 1]);
        let lie = match book.below(4) {
            0 => Lie::Falling,
            1 => Lie::Rising,
            _ => Lie::Anywhere,
        };
        let graded = book.below(2) == 0;
        let turns = one_of(book, 3, [1, 3, 5]);
        let removals = one_of(book, 3, [8, 6, 4]);
        let patient = book.below(3) == 0;
        Contest {
            searches,
            lie,
            graded,
            turns,
            removals,
            patient,
        }
    }

    // The weight of the n-th record of the stair, where the records lie on one.
    fn stair_weight(self, n: u32) -> Option<u32> {
        match self.lie {
            Lie::Rising => Some(weight_at(n, false)),
            Lie::Falling => Some(weight_at(n, true)),
            Lie::Anywhere => None,
        }
    }

    // A weight of a stair, or any of few.
    fn some_weight(self, book: &mut Book) -> u32 {
        let places = book.table.places;
        let n = book.below(places);
        let weight = book.below(200);
        self.stair_weight(n).unwrap_or(weight)
    }

    // A record of a contest.
    pub fn some_record(self, book: &mut Book) -> PlainPoint {
        let grade = some_grade(book);
        let weight = self.some_weight(book);
        let moisture = book.below(3);
        let speed = book.below(3);
        PlainPoint {
            grade: if self.graded { grade } else { 0 },
            weight,
            moisture,
            speed,
            draw: 2000,
        }
    }

    // The weight of a target: at either end of the range, or among the records.
    fn target_weight(self, book: &mut Book) -> u32 {
        match book.below(4) {
            0 => 0,
            1 => 99999,
            _ => self.some_weight(book),
        }
    }

    // A target. Where the records have one grade it is of another that shares their slot, so that no side of a cut is excluded.
    fn some_target(self, book: &mut Book) -> PlainPoint {
        let grade = some_grade(book);
        let weight = self.target_weight(book);
        PlainPoint {
            grade: if self.graded { grade } else { 127 },
            weight,
            moisture: 1,
            speed: 1,
            draw: 2000,
        }
    }

    // The n-th record of a stair is added, or any other.
    fn add_at(self, words: &mut [u32], book: &mut Book, n: u32) {
        let p = self.some_record(book);
        let weight = self.stair_weight(n).unwrap_or(p.weight);
        let curve = some_curve(book);
        drive::whole(words, book, 7, 1, PlainPoint { weight, ..p }, curve);
    }

    // A single event of station t: a submission, a step, a taking, or now and then a withdrawal.
    fn single_event(self, words: &mut [u32], book: &mut Book, s: u32, t: u32) {
        let withdraws = book.below(32) == 0;
        if book.table.is_idle(t) {
            self.submit_change(words, book, s, t);
        } else if withdraws {
            let _ = drive::withdraw(words, book, t);
        } else {
            turn(words, book, t);
        }
    }

    // A whole change of station t, or what is left of its call.
    fn whole_change(self, words: &mut [u32], book: &mut Book, s: u32, t: u32) {
        if book.table.is_idle(t) {
            self.submit_change(words, book, s, t);
        }
        drive::run(words, book, t);
        let _ = drive::take(words, book, t);
    }

    // Whether the others wait for the search of station s.
    fn is_awaited(self, words: &[u32], book: &Book, s: u32) -> bool {
        self.patient && book.table.is_unfinished(s) && !Sight::of(words, book).is_late(s)
    }

    // A turn of one of the five others.
    fn other_turn(self, words: &mut [u32], book: &mut Book) {
        let s = book.below(self.searches);
        let t = 3 + book.below(5) % 5;
        let whole = book.below(2) == 0;
        if self.is_awaited(words, book, s) {
            return;
        }
        if whole {
            self.whole_change(words, book, s, t);
        } else {
            self.single_event(words, book, s, t);
        }
    }

    // A search is submitted, where every place is taken, or now and then.
    fn submit_search(self, words: &mut [u32], book: &mut Book, s: u32) {
        let p = self.some_target(book);
        let early = book.below(16) == 0;
        if early || book.table.is_full() {
            let _ = drive::submit(words, book, s, 4, p, 0);
        }
    }

    // A turn of one of the searches.
    fn search_turn(self, words: &mut [u32], book: &mut Book) {
        let s = book.below(self.searches);
        if book.table.is_idle(s) {
            self.submit_search(words, book, s);
        } else {
            turn(words, book, s);
        }
    }

    // A turn of a search or of another station, with what is asked after every event.
    fn some_turn(self, words: &mut [u32], book: &mut Book) {
        book.tried();
        if book.below(8) < self.turns {
            self.search_turn(words, book);
        } else {
            self.other_turn(words, book);
        }
        drive::judge_event(words, book);
    }

    // A contest in an index of so many places and by this scale: as many records as there are places, so many turns, and an audit at the end.
    fn play(self, words: &mut [u32], book: &mut Book, places: u32, scale: PlainScale, turns: u32) {
        let _ = drive::open(words, book, places, 500000000, scale);
        for n in 0..places {
            self.add_at(words, book, n);
        }
        for _ in 0..turns {
            self.some_turn(words, book);
        }
        drive::judge_audit(words, book);
    }
}

// The scale of a contest's opening: factors that are drawn under a rule, or four ones where that is 0.
fn scale_for(book: &mut Book, rule: u32) -> PlainScale {
    if rule == 0 {
        PlainScale::ones()
    } else {
        scale_by(book, rule)
    }
}

// Contests of an item, in which searches found a record and none, and records were added and removed: the least number of their places, how many numbers
// these are drawn from, how many contests of different seeds, the turns of each, and the rule of their factors.
pub fn contests(words: &mut [u32], book: &mut Book, n: [u32; 9]) {
    let [least, count, seeds, turns, rule, ..] = n;
    for number in 0..seeds {
        book.begin_seed(1 + number);
        let places = least.wrapping_add(book.below(count));
        let contest = Contest::drawn(book);
        let scale = scale_for(book, rule);
        contest.play(words, book, places, scale, turns);
    }
    // The numbers of answers as the rules have them: added, removed, nearest, none.
    let met = [1, 5, 8, 9].iter().all(|code| book.met(*code));
    book.judge(met);
}
