//! What is around a token.
ghost use Rattle.std.specs.Prelude.{◌≡◌, ◌||◌};

/// The sides of a token at which something is written. What a `**` matches depends on them.
#[derive(Clone, Copy, Debug)]
pub struct Sides {
    pub before: bool,
    pub after: bool,
}

impl Sides {
    /// Nothing is written around the token.
    pub const NONE: Sides = Sides {
        before: false,
        after: false,
    };

    /// Returns the sides at which one or the other has something.
    pub fn or(self, others: Sides) -> Sides
        ensures before { result.before ≡ (self.before || others.before) }
        ensures after { result.after ≡ (self.after || others.after) }
    {
        Sides {
            before: self.before || others.before,
            after: self.after || others.after,
        }
    }
}
