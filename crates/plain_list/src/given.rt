// What a text on standard input asks for: cases in the form of `text`, a line with a seed for the random histories, or that line and then cases.
use crate::book::Book;
use crate::parts::{has_case, head};
use trial::bytes::seed_in;

// A text of so many bytes may have been cut off.
pub const CUT: usize = 131072;

// The cases to be run: all that the program has, those of them with random histories, or those of the text.
#[derive(Clone, Copy)]
pub enum Given {
    All,
    Random,
    Text,
}

// Whether these are blanks alone.
fn is_blank(head: &[u8]) -> bool {
    head.iter().all(|byte| *byte <= b' ')
}

// Whether these are the word `seed` and digits or none behind it. Blanks are passed over.
fn is_seed(head: &[u8]) -> bool {
    let mut bytes = head.iter().copied().filter(|byte| b' ' < *byte);
    b"seed".iter().all(|letter| bytes.next() == Some(*letter))
        && bytes.all(|byte| byte.is_ascii_digit())
}

// The cases that a text asks for, none where it is not understood; this is the seed before the first case, 0 where there is none.
fn asked(text: &[u8], first: u32) -> Option<Given> {
    if text.is_empty() {
        return Some(Given::All);
    }
    let seeded = 0 < first && is_seed(head(text));
    match (has_case(text), seeded) {
        (true, true) if text.len() < CUT => Some(Given::Text),
        (true, false) if text.len() < CUT && is_blank(head(text)) => Some(Given::Text),
        (false, true) => Some(Given::Random),
        _ => None,
    }
}

impl Book {
    // The cases that a text asks for, with the seed that stands before the first; none where the text is not understood.
    pub fn begin(&mut self, text: &[u8]) -> Option<Given> {
        let first = seed_in(head(text));
        self.count_from(first);
        asked(text, first)
    }
}
