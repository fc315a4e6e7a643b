// Checks are counted: one is right or wrong, and a case has as many as were made since it began.
use crate::book::{Book, Tally};

impl Book {
    // One check, right or wrong.
    pub fn judge(&mut self, right: bool) {
        self.case.checks = self.case.checks.saturating_add(1);
        if !right {
            self.case.wrong = self.case.wrong.saturating_add(1);
        }
    }

    // One more thing tried.
    pub fn tried(&mut self) {
        self.case.tried = self.case.tried.saturating_add(1);
    }

    // A taking gave an answer of a code.
    pub fn count_code(&mut self, code: u32) {
        if let Some(count) = self.case.codes.get_mut(code as usize) {
            *count = count.saturating_add(1);
        }
    }

    // Whether takings gave answers of a code in the case under way.
    pub fn met(&self, code: u32) -> bool {
        self.case
            .codes
            .get(code as usize)
            .is_some_and(|count| 0 < *count)
    }

    // A new case begins.
    pub fn begin_case(&mut self) {
        self.case = Tally::default();
    }
}
