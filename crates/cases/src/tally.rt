// Each case ends with a line. Where one could not be written, it goes on.
use plain_list::book::{Book, Tally};
use std::io::Print;

// A case is counted.
fn count_case(book: &mut Book, wrong: bool) {
    book.cases = book.cases.saturating_add(1);
    if wrong {
        book.wrong_cases = book.wrong_cases.saturating_add(1);
    }
}

// The line of a case: its name, how many of what were tried, the checks, and the verdict. A case with no check is wrong.
pub fn end_case(rt: &impl Print, book: &mut Book, text: &[u8]) {
    let checked = 0 < book.case.checks;
    book.judge(checked);
    let Tally {
        tried,
        checks,
        wrong,
        ..
    } = book.case;
    let shown = text.split_last().map_or(text, |(_, shown)| shown);
    let mut sections = shown.split(|byte| *byte == b'|');
    let _ = rt.write_all(sections.next().unwrap_or(b""));
    let _ = print!(rt; ": {tried} ");
    let _ = rt.write_all(sections.next().unwrap_or(b""));
    let _ = print!(rt; ", {checks} checks: ");
    let _ = if wrong == 0 {
        println!(rt; "ok")
    } else {
        println!(rt; "{wrong} WRONG")
    };
    count_case(book, 0 < wrong);
}

// A text that is not understood counts as a wrong case.
pub fn refuse(rt: &impl Print, book: &mut Book) {
    let _ = rt.write_all(
        b"not understood: cases such as =two adds|events|o 4 100; c 0 1 12 8000 41 41; c 1 1 12 9000 42 42; or a line such as seed 7, from 1 to 4294967295, or both; below 131072 bytes\n",
    );
    count_case(book, true);
}

// The last line.
pub fn end(rt: &impl Print, book: &Book) {
    let Book {
        cases,
        wrong_cases,
        ..
    } = book;
    let _ = println!(rt; "{cases} cases, {wrong_cases} wrong");
}
