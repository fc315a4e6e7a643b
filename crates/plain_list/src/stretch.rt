// The stretch of steps, each dealt to a station with an unfinished call, since one of them answered or a call was withdrawn: among more than 8 for
// each place one answers.
use crate::book::Book;

impl Book {
    // No step was dealt yet, or since a withdrawal.
    pub fn begin_stretch(&mut self) {
        self.stretch = 0;
    }

    // After a step: whether its station had an unfinished call, and whether it answered.
    pub fn pass_stretch(&mut self, dealt: bool, answered: bool) {
        if answered {
            self.stretch = 0;
        } else if dealt {
            self.stretch = self.stretch.saturating_add(1);
            self.case.longest = self.case.longest.max(self.stretch);
        }
    }

    // Whether the stretch is no longer than it may be.
    pub fn is_stretch_bounded(&self) -> bool {
        self.stretch <= 8 * u64::from(self.table.places)
    }

    // The longest stretch of the case under way is what its line tells.
    pub fn tell_stretch(&mut self) {
        self.case.tried = self.case.longest;
    }
}
