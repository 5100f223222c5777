//! Pairs of states, one of each program, that a text leads to.
ghost use Rattle.std.specs.Prelude.{◌≡◌, ◌↔◌, ◌++◌, ◌∷◌, [], IfOk, IsTrue};
ghost use Rattle.wax_compare.specs.inner.Visiting.{AreKnown, HasPair};

use std::alloc::{AllocError, Global};
use std::collections::HashSet;

/// Where a text leads: a state of each program.
#[derive(Clone, Copy, PartialEq, Eq, Hash)]
pub struct StatePair {
    /// The number of the first program's state.
    pub first: usize,
    /// The number of the second program's state.
    pub second: usize,
    /// True if a text that leads here is one of those among which one is looked for: for `Texts::All`
    /// always, for `Texts::Paths` if its last character isn't `/`.
    pub may_end: bool,
}

/// A pair with the step that led to it.
#[derive(Clone, Copy)]
pub struct Reached {
    pub pair: StatePair,
    /// The number of the pair before.
    pub before: usize,
    /// The last character.
    pub letter: char,
    /// The number of characters of the text.
    pub depth: usize,
}

/// The pairs that were reached, in the order in which they were.
#[derive(Drop)]
pub struct Pairs {
    pub reached: Vec<Reached>,
    pub known: HashSet<StatePair>,
}

impl Pairs {
    /// Creates an empty list.
    pub fn new(alloc: Global) -> Pairs
        ensures empty { result.reached.items ≡ [] }
        ensures known { AreKnown result.reached.items result.known }
    {
        Pairs {
            reached: Vec::new(alloc),
            known: HashSet::new(alloc),
        }
    }

    /// Returns whether a pair was reached.
    pub fn contains(&self, pair: StatePair) -> bool
        requires { AreKnown self.now.reached.items self.now.known }
        ensures { IsTrue result ↔ HasPair self.now.reached.items pair }
    {
        self.known.contains(&pair)
    }

    /// Adds a pair.
    pub fn push(&mut self, reached: Reached) -> Result<(), AllocError>
        requires { AreKnown self.old.reached.items self.old.known }
        ensures items { IfOk result (λ _. self.new.reached.items ≡ self.old.reached.items ++ reached ∷ []) }
        ensures known { IfOk result (λ _. AreKnown self.new.reached.items self.new.known) }
    {
        self.known.insert(reached.pair)?;
        self.reached.push(reached)?;
        Ok(())
    }
}
