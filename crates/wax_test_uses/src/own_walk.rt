//! A walk of your own.
ghost use Rattle.std.proofs.{Common.{◌∙◌, ap}, Math.Nat.le_of_eq};
ghost use Rattle.std.specs.{Iterator.at_most, Prelude.{◌≡◌, Some, false, length, true}};
ghost use Rattle.wax.specs.Walks.{separated_entry};

use wax::filter::{CancelWalk, Feed, Isomeric, SeparatingFilterInput, Separation, TreeResidue};

/// A name and its depth.
pub type NameAtDepth = (char, u8);

/// A walk through names, each of which comes before those below it. It shows what a walk of your own
/// proves, so that all filters can be called on it: that it ends, what cancelling does, and which
/// entry is in an item.
#[derive(Drop)]
pub struct NameWalk<'a> {
    rest: &'a [NameAtDepth],
    depth: u8,
    skips: bool,
}

impl<'a> NameWalk<'a> {
    /// Returns a walk through these names.
    pub fn new(names: &'a [NameAtDepth]) -> NameWalk<'a>
        ensures all { result.rest.now ≡ names.now }
        ensures uncancelled { result.skips ≡ false }
    {
        NameWalk {
            rest: names,
            depth: 0,
            skips: false,
        }
    }
}

impl<'a> Iterator for NameWalk<'a> {
    type Item = NameAtDepth;

    ghost remaining = { λ s. at_most (length s.rest.now) };

    fn next(&mut self) -> Option<NameAtDepth> {
        while let Some((first, rest)) = self.rest.split_first() {
            self.rest = rest;
            if !self.skips || first.1 <= self.depth {
                self.skips = false;
                self.depth = first.1;
                return Some(*first);
            }
        }
        None
    }
}

/// The feed of the walk: names that are kept, and names that are excluded, each by itself or with
/// everything below it.
pub struct NameFeed;

impl Feed for NameFeed {
    type Filtrate = NameAtDepth;

    type Residue = TreeResidue<NameAtDepth>;
}

impl Isomeric for NameFeed {
    type Substituent = NameAtDepth;

    ghost shown = { λ x. Some (separated_entry x) };

    fn entry(separation: &Separation<NameFeed>) -> Option<&NameAtDepth> {
        match separation {
            Separation::Filtrate(filtrate) => Some(filtrate.get()),
            Separation::Residue(residue) => Some(residue.get().get()),
        }
    }
}

impl<'a> SeparatingFilterInput for NameWalk<'a> {
    type Feed = NameFeed;
}

impl<'a> CancelWalk for NameWalk<'a> {
    ghost cancels = { λ s t. (t.rest.now ≡ s.rest.now) × (t.depth ≡ s.depth) × (t.skips ≡ true) };

    fn cancel_walk_tree(&mut self) {
        self.skips = true;
    }

    ghost once = { λ s t u a b. (b.0 ∙ a.0, b.1 ∙ a.1, b.2) };

    ghost can_go_on = { λ s t h c. c };

    ghost no_longer = { λ s t h e. (e, le_of_eq (ap length h.0)) };
}
