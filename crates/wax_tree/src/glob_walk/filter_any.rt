//! Several rules as one.

ghost use Rattle.std.specs.Prelude.{◌≡◌, map};
ghost use Rattle.wax_tree.specs.Programs.{any_mark};

use std::alloc::Global;
use wax_query::diagnostics::NoMemory;
use wax_walk::{Candidate, EntryResidue, Exclude};

/// A rule that excludes what at least one of several rules excludes: an entry with everything below
/// it if one of them does so, and otherwise the entry by itself.
#[derive(Drop)]
pub struct FilterAny<R> {
    rules: Vec<R>,
}

impl<R: Exclude> FilterAny<R> {
    /// Combines rules into one. Their order doesn't matter.
    pub fn new(rules: Vec<R>) -> Self
        ensures { ⟦<FilterAny<R> as Exclude>⟧.rule result ≡ any_mark (map R.rule rules.items) }
    {
        FilterAny { rules }
    }
}

impl<R: Exclude> Exclude for FilterAny<R> {
    ghost rule = { λ s. any_mark (map R.rule s.rules.items) };

    fn residue(
        &mut self,
        alloc: Global,
        candidate: Candidate<'_>,
    ) -> Result<Option<EntryResidue>, NoMemory> {
        let mut is_excluded = false;
        for at in 0..self.rules.len() {
            match self.rules[at].residue(alloc, candidate)? {
                None => {}
                Some(EntryResidue::File) => is_excluded = true,
                Some(EntryResidue::Tree) => return Ok(Some(EntryResidue::Tree)),
            }
        }
        if is_excluded {
            Ok(Some(EntryResidue::File))
        } else {
            Ok(None)
        }
    }
}
