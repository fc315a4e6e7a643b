// The seeds of the random histories. They count from 1, or where a seed is given from there.
use crate::book::Book;
use trial::random::Random;

impl Book {
    // The seeds count from this one from now on; from 1 where it is 0.
    pub fn count_from(&mut self, first: u32) {
        self.moved = first.saturating_sub(1);
    }

    // The generator begins with a seed, of which the first is 1. Of a seed that would be 0, from which nothing comes, 1 is taken.
    pub fn begin_seed(&mut self, number: u32) {
        self.random = Random::new(number.wrapping_add(self.moved).max(1));
    }

    // The next number below n; 0 where n is 0.
    pub fn below(&mut self, n: u32) -> u32 {
        self.random.below(n)
    }
}
