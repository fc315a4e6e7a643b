// The own steps of a search: those that its station made since the submission and that did not answer it. Whatever the other stations do, five
// times their number is at most nine times the places.
use crate::book::Book;

impl Book {
    // The most own steps that may leave a search unanswered.
    fn most_own(&self) -> u64 {
        9 * u64::from(self.table.places) / 5
    }

    // After a submission that was accepted.
    pub fn begin_own(&mut self, s: u32) {
        if let Some(own) = self.own.get_mut(s as usize) {
            *own = 0;
        }
    }

    // After a step of a station that was dealt to an unfinished call and did not answer it. Calls of other kinds have no such bound.
    pub fn pass_own(&mut self, s: u32) {
        if !self.table.is_searching(s) {
            return;
        }
        let most = self.most_own();
        if let Some(own) = self.own.get_mut(s as usize) {
            *own = own.saturating_add(1);
            let share = own.saturating_mul(1000).checked_div(most).unwrap_or(0);
            self.case.most_own = self.case.most_own.max(*own);
            self.case.share = self.case.share.max(share);
        }
    }

    // Whether the own steps of a station's search are no more than they may be.
    pub fn is_own_bounded(&self, s: u32) -> bool {
        self.own
            .get(s as usize)
            .is_none_or(|own| *own <= self.most_own())
    }

    // The most own steps of a search in the case under way are what its line tells.
    pub fn tell_own(&mut self) {
        self.case.tried = self.case.most_own;
    }

    // The greatest share of the own steps allowed is what its line tells.
    pub fn tell_share(&mut self) {
        self.case.tried = self.case.share;
    }
}
