// Numbers that look random, the same in every run: a linear congruential generator.
ghost use Rattle.std.specs.Prelude.{◌≡◌, ℕ, ◌+◌, ◌-◌, ◌%◌, ◌^◌, ◌<◌, max, min, nat_lt};
ghost use Rattle.drawing.specs.Chance.{stepped, drawn};

use std::marker::Model;

#[derive(Drop)]
pub struct Chance {
    state: u64,
}

impl Model for Chance {
    ghost Value = { ℕ };

    ghost view = { λ chance. chance.state };
}

impl Chance {
    pub fn new(state: u64) -> Chance
        ensures { result ≡ state }
    {
        Chance { state }
    }

    fn next(&mut self) -> u64
        ensures state { self.new ≡ stepped self.old }
        ensures number { result ≡ drawn self.old }
    {
        self.state = self
            .state
            .wrapping_mul(6364136223846793005)
            .wrapping_add(1442695040888963407);
        self.state >> 33
    }

    // A number below `count`, or 0.
    pub fn below(&mut self, count: usize) -> usize
        ensures state { self.new ≡ stepped self.old }
        ensures number { result ≡ drawn self.old % max count 1 }
    {
        self.next() as usize % count.max(1)
    }

    // A number from `low` up to and with `high`, or `low` where there is none.
    pub fn between(&mut self, low: usize, high: usize) -> usize
        ensures state { self.new ≡ stepped self.old }
        ensures number { result ≡ low + drawn self.old % (high - low + 1) }
    {
        let span = high.saturating_sub(low).saturating_add(1);
        low.saturating_add(self.below(span))
    }

    // True so many times in a hundred.
    pub fn percent(&mut self, hundredths: u64) -> bool
        ensures state { self.new ≡ stepped self.old }
        ensures number { result ≡ nat_lt (drawn self.old % 100) hundredths }
    {
        self.next() % 100 < hundredths
    }

    // The row of those of the first `count` nodes, at most 64, that are drawn so many times in a hundred each.
    pub fn row(&mut self, count: usize, hundredths: u64) -> u64
        ensures { result < 2 ^ min count 64 }
    {
        let mut row = 0;
        for b in 0..count.min(64) {
            if self.percent(hundredths) {
                row |= 1 << b;
            }
        }
        row
    }
}
