// Numbers from a fixed generator, the same in every run.
ghost use Rattle.std.specs.Prelude.{◌≡◌};
ghost use Rattle.trial.specs.Random.{number_after, number_below};

// A generator, which has the number that it gave last. It gives nothing but 0 from the seed 0.
#[derive(Clone, Copy, Debug)]
pub struct Random {
    last: u32,
}

impl Random {
    // Begins with a seed, which is not 0.
    pub fn new(seed: u32) -> Random
        ensures { result.last ≡ seed }
    {
        Random { last: seed }
    }

    // The next number of 32 bits: three shifts, by 13, 17 and 5.
    pub fn next(&mut self) -> u32
        ensures { (result ≡ number_after self.old.last) × (self.new.last ≡ result) }
    {
        let x = self.last;
        let a = x ^ (x << 13);
        let b = a ^ (a >> 17);
        self.last = b ^ (b << 5);
        self.last
    }

    // The next number below n; 0 where n is 0.
    pub fn below(&mut self, n: u32) -> u32
        ensures { (result ≡ number_below n (number_after self.old.last)) × (self.new.last ≡ number_after self.old.last) }
    {
        self.next().checked_rem(n).unwrap_or(0)
    }
}
