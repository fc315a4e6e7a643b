// The book of a run: the plain table that the index is judged by, the tallies and the generator.
use crate::table::Table;
use std::alloc::{AllocError, Global};
use trial::cells::{copy, same_from};
use trial::random::Random;

// Of the case under way: what was tried, the checks, and the wrong ones; how many takings gave an answer of each code; the most steps dealt to stations
// with an unfinished call between two answers or withdrawals; and of the searches the most own steps that did not answer one, and the greatest share
// of those allowed, in thousandths.
#[derive(Clone, Copy, Default)]
pub struct Tally {
    pub tried: u64,
    pub checks: u64,
    pub wrong: u64,
    pub codes: [u64; 12],
    pub longest: u64,
    pub most_own: u64,
    pub share: u64,
}

#[derive(Drop)]
pub struct Book {
    // The generator of the random histories.
    pub random: Random,
    // By how much the seeds of the random histories are moved.
    pub moved: u32,
    pub table: Table,
    pub case: Tally,
    // The cases, and the wrong ones.
    pub cases: u64,
    pub wrong_cases: u64,
    // Steps dealt to stations with an unfinished call since the last answer or withdrawal.
    pub stretch: u64,
    // Of each station the steps of its search that did not answer.
    pub own: [u64; 8],
    // The words as they were before a call, or with one call run alone.
    pub copied: Vec<u32>,
}

// The words of the largest index.
pub const MOST_WORDS: usize = 131680;

impl Book {
    // The words are copied.
    pub fn copy(&mut self, words: &[u32]) {
        copy(words, &mut self.copied);
    }

    // Whether words are as they were copied, from an offset on.
    pub fn is_copy(&self, words: &[u32], from: usize) -> bool {
        same_from(words, &self.copied, from)
    }

    // A book in which nothing stands yet.
    pub fn new(alloc: Global) -> Result<Book, AllocError> {
        Ok(Book {
            random: Random::new(0),
            moved: 0,
            table: Table::new(alloc)?,
            case: Tally::default(),
            cases: 0,
            wrong_cases: 0,
            stretch: 0,
            own: [0; 8],
            copied: vec![in alloc; 0; MOST_WORDS]?,
        })
    }
}

#[cfg(test)]
mod tests {
    use super::*;
    use crate::table::MOST_PLACES;

    // There is memory for a book, with room for the largest index, and nothing stands in it.
    #[test]
    fn a_book_begins(rt: HostRuntime) -> Result<(), AllocError> {
        let book = Book::new(rt.alloc())?;
        assert_eq!(rt; book.table.taken(), 0);
        assert!(rt; MOST_PLACES <= book.table.records.capacity());
        assert!(rt; MOST_PLACES <= book.table.awaited.capacity());
        assert_eq!(rt; book.copied.len(), MOST_WORDS);
        Ok(())
    }
}
