// The book of a run: the generator, what is counted, and the lines that tell it.
use crate::attempts::{Kind, Told, number_of};
use std::io::Print;
use trial::random::Random;
use words::refusal::Refusal;

#[derive(Drop)]
pub struct Book {
    random: Random,
    // The checks, the wrong ones, the damaged words, and the steps and runs of a station with no unfinished call.
    checks: u64,
    wrong: u64,
    damaged: u64,
    idle: u64,
    // The calls of each kind, and how often each number was given.
    calls: [u64; 8],
    numbers: [u64; 24],
}

// A count at an index grows by one.
fn count(counts: &mut [u64], at: usize) {
    if let Some(n) = counts.get_mut(at) {
        *n = n.saturating_add(1);
    }
}

impl Book {
    // The generator begins with a seed, which is not 0.
    pub fn new(number: u32) -> Book {
        Book {
            random: Random::new(number),
            checks: 0,
            wrong: 0,
            damaged: 0,
            idle: 0,
            calls: [0; 8],
            numbers: [0; 24],
        }
    }

    // The next number of 32 bits.
    pub fn next(&mut self) -> u32 {
        self.random.next()
    }

    // The next number below n; 0 where n is 0.
    pub fn below(&mut self, n: u32) -> u32 {
        self.random.below(n)
    }

    // One check.
    pub fn judge(&mut self, right: bool) {
        self.checks = self.checks.saturating_add(1);
        if !right {
            self.wrong = self.wrong.saturating_add(1);
        }
    }

    // One more word is damaged.
    pub fn count_damage(&mut self) {
        self.damaged = self.damaged.saturating_add(1);
    }

    // A call is counted by its kind, and by its number; a step or a run of a station with no unfinished call once more.
    pub fn count_call(&mut self, kind: Kind, outcome: Result<Told, Refusal>) {
        count(&mut self.calls, kind.index());
        count(&mut self.numbers, number_of(outcome) as usize);
        if matches!(
            (kind, outcome),
            (Kind::Step | Kind::Run, Err(Refusal::NotUnfinished))
        ) {
            self.idle = self.idle.saturating_add(1);
        }
    }

    // The calls of a kind.
    fn calls(&self, kind: Kind) -> u64 {
        self.calls.get(kind.index()).copied().unwrap_or(0)
    }

    // How many calls gave a number.
    fn given(&self, number: u32) -> u64 {
        self.numbers.get(number as usize).copied().unwrap_or(0)
    }

    // All that was counted. Beside the numbers up to 12 an opening can give 17 and 20. Where a line could not be written, it goes on.
    pub fn say_all(&self, rt: &impl Print) {
        self.say_calls(rt);
        for number in 0..13 {
            self.say_number(rt, number);
        }
        self.say_number(rt, 17);
        self.say_number(rt, 20);
        let Book { checks, wrong, .. } = self;
        let said_no = self.given(number_of(Ok(Told::No)));
        let _ = println!(rt; "audits that said no: {said_no}");
        let _ = println!(rt;
            "checks of a number, of the words outside, of the words kept: {checks}"
        );
        let _ = println!(rt; "wrong: {wrong}");
    }

    // How many calls gave a number.
    fn say_number(&self, rt: &impl Print, number: u32) {
        let times = self.given(number);
        let _ = println!(rt; "calls that gave {number}: {times}");
    }

    // The calls of a kind, under its name.
    fn say_kind(&self, rt: &impl Print, name: &str, kind: Kind) {
        let calls = self.calls(kind);
        let _ = println!(rt; "{name}: {calls}");
    }

    // The damage, and the calls of each kind.
    fn say_calls(&self, rt: &impl Print) {
        let Book { damaged, idle, .. } = self;
        let _ = println!(rt; "words damaged: {damaged}");
        self.say_kind(rt, "submissions", Kind::Submit);
        self.say_kind(rt, "steps", Kind::Step);
        self.say_kind(rt, "runs", Kind::Run);
        let _ = println!(rt; "steps and runs refused with 10: {idle}");
        self.say_kind(rt, "takings", Kind::Take);
        self.say_kind(rt, "withdrawals", Kind::Withdraw);
        self.say_kind(rt, "reports", Kind::Report);
        self.say_kind(rt, "audits", Kind::Audit);
        self.say_kind(rt, "openings that are refused", Kind::Open);
    }
}
