//! Numbers that look random.
ghost use Rattle.std.specs.Prelude.{◌≤◌};

/// A sequence of numbers that a seed determines: a linear congruential generator (Knuth, MMIX).
#[derive(Clone, Copy)]
pub(crate) struct Random {
    state: u64,
}

impl Random {
    pub(crate) fn new(seed: u32) -> Random {
        Random {
            state: u64::from(seed),
        }
    }

    /// The next number, below the limit, or 0 if the limit is 0.
    pub(crate) fn below(&mut self, limit: usize) -> usize
        ensures { result ≤ limit }
    {
        self.state = self
            .state
            .wrapping_mul(6_364_136_223_846_793_005)
            .wrapping_add(1_442_695_040_888_963_407);
        let number = (self.state >> 33) as usize;
        if limit == 0 { 0 } else { number % limit }
    }

    /// One of the texts.
    pub(crate) fn pick(&mut self, texts: &[&'static str]) -> &'static str {
        let index = self.below(texts.len());
        texts.get(index).copied().unwrap_or("")
    }
}
