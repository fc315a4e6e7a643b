// One event at a time, on the index and on the plain table, with what each gives compared.
use audits::audit::audit;
use plain_list::book::Book;
use plain_list::point::PlainPoint;
use plain_list::scale::PlainScale;
use plain_list::table::Due;
use points::point::Point;
use reports::report::read_report;
use stations::answer::{Answer, read_waiting};
use words::refusal::Refusal;

// Words that each event is made on come beside the book, and not in it: an event gets them as they are lent, some just as long as their places need.

// The most steps of a call that is left alone (Rules 8.3).
pub fn most_steps(book: &Book) -> u64 {
    16 * u64::from(book.table.places) + 64
}

// What the index gives is what the table gives: the number of the same question, or none.
fn judge_outcome(book: &mut Book, outcome: Result<(), Refusal>, due: Result<(), u32>) {
    book.judge(outcome.map_err(|refusal| refusal.number()) == due);
}

// An opening. One that is accepted begins a new history of the index and of the table.
pub fn open(
    words: &mut [u32],
    book: &mut Book,
    places: u32,
    limit: u32,
    scale: PlainScale,
) -> Result<(), Refusal> {
    let outcome = openings::open::open(words, places, limit, scale.into());
    let due = book.table.open(words.len(), places, limit, scale);
    judge_outcome(book, outcome, due);
    outcome?;
    book.begin_stretch();
    Ok(())
}

// A submission. Its arguments are those of Rules 7.7, which the index's own call takes too.
pub fn submit(
    words: &mut [u32],
    book: &mut Book,
    s: u32,
    kind: u32,
    p: PlainPoint,
    curve: u32,
) -> Result<(), Refusal> {
    let outcome = submissions::submit::submit(words, s, kind, Point::from(p), curve);
    let due = book.table.submit(s, kind, p, curve);
    judge_outcome(book, outcome, due);
    outcome?;
    book.begin_own(s);
    Ok(())
}

// A step. The table is told whether it answered, and so are the stretch of steps that answer nobody and the own steps of a search.
pub fn step(words: &mut [u32], book: &mut Book, s: u32) -> Result<(), Refusal> {
    let dealt = book.table.is_unfinished(s);
    let outcome = steps::step::step(words, s);
    let answered = outcome.is_ok() && read_waiting(words, s).is_some();
    let due = book.table.step(s, answered);
    book.pass_stretch(dealt, answered);
    if dealt && !answered {
        book.pass_own(s);
    }
    judge_step(
        book,
        s,
        outcome.map_err(|refusal| refusal.number()) == due,
        dealt,
    );
    outcome
}

// A step gave the number of the same question on both sides, or none, and the steps are as few as they may be.
fn judge_step(book: &mut Book, s: u32, agrees: bool, dealt: bool) {
    let bounded = book.is_stretch_bounded() && (!dealt || book.is_own_bounded(s));
    book.judge(agrees && bounded);
}

// A withdrawal. A stretch of steps that answer nobody ends with one that is accepted.
pub fn withdraw(words: &mut [u32], book: &mut Book, s: u32) -> Result<(), Refusal> {
    let outcome = steps::withdraw::withdraw(words, s);
    let due = book.table.withdraw(s);
    judge_outcome(book, outcome, due);
    outcome?;
    book.begin_stretch();
    Ok(())
}

// Whether an answer is the one expected.
fn as_due(answer: Answer, due: Due) -> bool {
    answer.code == due.code.number()
        && PlainPoint::from(answer.point) == due.point
        && answer.curve == due.curve
        && answer.square == due.square
}

// A taking. Its answer is compared with the one that the table set down last at the station, whether it waits there or not.
pub fn take(words: &mut [u32], book: &mut Book, s: u32) -> Result<Answer, Refusal> {
    let taking = takings::take::take(words, s);
    if let Ok(answer) = taking {
        let right = book.table.due(s).is_some_and(|due| as_due(answer, due));
        book.judge(right);
        book.count_code(answer.code);
    }
    let due = book.table.take_untold(s);
    judge_outcome(book, taking.map(|_| ()), due);
    taking
}

// The index reports as many places taken as the table counts.
pub fn judge_report(words: &[u32], book: &mut Book) {
    let due = book.table.taken();
    book.judge(read_report(words) == Ok(due as u64));
}

// The audit says yes.
pub fn judge_audit(words: &[u32], book: &mut Book) {
    book.judge(audit(words) == Ok(true));
}

// What is asked after an event: the report, and in a small index the audit.
pub fn judge_event(words: &[u32], book: &mut Book) {
    judge_report(words, book);
    if book.table.places <= 100 {
        judge_audit(words, book);
    }
}

// Steps of one station until it is answered, within the steps that are allowed.
pub fn run(words: &mut [u32], book: &mut Book, s: u32) {
    for _ in 0..most_steps(book) {
        if !book.table.is_unfinished(s) {
            return;
        }
        let _ = step(words, book, s);
    }
    let answered = !book.table.is_unfinished(s);
    book.judge(answered);
}

// A whole call: its submission, with the arguments of Rules 7.7, its steps and its taking.
pub fn whole(words: &mut [u32], book: &mut Book, s: u32, kind: u32, p: PlainPoint, curve: u32) {
    let _ = submit(words, book, s, kind, p, curve);
    run(words, book, s);
    let _ = take(words, book, s);
}

// An unfinished call, run alone on a copy of the words, is answered within the steps that are allowed, and as the table says.
fn alone(words: &[u32], book: &mut Book, s: u32) {
    if let Some(due) = book.table.due_now(s) {
        book.copy(words);
        let outcome = runs::run::run(&mut book.copied, s);
        let answered = read_waiting(&book.copied, s).is_some_and(|answer| as_due(answer, due));
        book.judge(outcome.is_ok() && answered);
    }
}

// The same for every station.
pub fn all_alone(words: &[u32], book: &mut Book) {
    for s in 0..8 {
        alone(words, book, s);
    }
}
