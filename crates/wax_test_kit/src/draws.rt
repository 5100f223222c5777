//! Pseudorandom numbers.

/// A generator of pseudorandom numbers: a linear congruential one.
#[derive(Drop)]
pub struct Draws {
    state: u64,
}

impl Draws {
    /// Creates a generator with this seed.
    pub fn new(seed: u64) -> Self {
        Draws { state: seed }
    }

    /// Draws a number below `count`, or returns 0 if there is none.
    pub fn below(&mut self, count: usize) -> usize {
        self.state = self
            .state
            .wrapping_mul(6364136223846793005)
            .wrapping_add(1442695040888963407);
        ((self.state >> 33) as usize)
            .checked_rem(count)
            .unwrap_or(0)
    }

    /// Draws one of the words, or returns an empty text if there is none.
    pub fn one_of(&mut self, words: &[&'static str]) -> &'static str {
        match words.get(self.below(words.len())) {
            Some(word) => *word,
            None => "",
        }
    }
}
