// Calls and checks are counted, and each case ends with a line.
use std::io::Print;

// Of the case under way the calls, the checks and the wrong ones; then the cases, and the wrong ones.
#[derive(Clone, Copy, Debug, Default)]
pub struct Tally {
    calls: u32,
    checks: u32,
    wrong: u32,
    cases: u32,
    wrong_cases: u32,
}

// One more, up to a great number.
fn count(n: &mut u32) {
    *n = n.saturating_add(1);
}

impl Tally {
    // One more call tried.
    pub fn tried(&mut self) {
        count(&mut self.calls);
    }

    // One check, right or wrong.
    pub fn judge(&mut self, right: bool) {
        count(&mut self.checks);
        if !right {
            count(&mut self.wrong);
        }
    }

    // The line of the case, under its name; where it cannot be written, it goes on. A case with no check is wrong. Another begins.
    pub fn end_case(&mut self, rt: &impl Print, name: &str) {
        let Tally {
            calls,
            checks,
            wrong,
            ..
        } = *self;
        if 0 < checks && wrong == 0 {
            let _ = println!(rt; "{name}: {calls} calls, {checks} checks: ok");
        } else {
            count(&mut self.wrong_cases);
            let _ = println!(rt; "{name}: {calls} calls, {checks} checks: {wrong} WRONG");
        }
        count(&mut self.cases);
        self.calls = 0;
        self.checks = 0;
        self.wrong = 0;
    }

    // The last line.
    pub fn end(self, rt: &impl Print) {
        let Tally {
            cases,
            wrong_cases,
            ..
        } = self;
        let _ = println!(rt; "{cases} cases, {wrong_cases} wrong");
    }
}
