// Random numbers.
ghost use Rattle.std.specs.Prelude.{◌<◌};

#[derive(Drop)]
pub struct Random {
    // the number that the next one is made from
    seed: u32,
}

impl Random {
    pub fn new(seed: u32) -> Self {
        Random { seed }
    }

    // x = (x * 1103515245 + 12345) % 2147483648, and of this what is above its low 8 bits.
    fn next(&mut self) -> u32
        ensures { result < 8388608 }
    {
        self.seed = self.seed.wrapping_mul(1103515245).wrapping_add(12345) % 2147483648;
        self.seed / 256
    }

    // A number below n, and 0 where n is 0.
    pub fn below(&mut self, n: u32) -> u32
        ensures { result < 8388608 }
    {
        if n == 0 {
            return 0;
        }
        self.next() % n
    }

    // Any word.
    pub fn word(&mut self) -> u32 {
        let high = self.below(65536);
        let low = self.below(65536);
        high << 16 | low
    }
}
