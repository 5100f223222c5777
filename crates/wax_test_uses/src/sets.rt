//! Walks of sets.
ghost use Rattle.std.specs.Prelude.{IfOk, map};
ghost use Rattle.wax.specs.Walks.{given_outcome};
ghost use Rattle.wax_test_uses.specs.Sets.{KeepsMatches};

use crate::walks::NotKept;
use std::alloc::Global;
use wax::walk::{Directory, Entry, TreeEntry, WalkError, collect, law_of_wanted};
use wax::{Pattern, any};

/// Collects what at least one of the patterns matches, in one walk: returns what is kept, in order,
/// and the directory. The walk begins at the root if each pattern begins there. It shows what a set
/// keeps of a walk, by what its patterns match.
///
/// # Errors
///
/// Returns `NotBuilt` if the set of the patterns isn't built, and `NoMemory` if allocation fails
/// before the walk begins, or for the list itself.
pub fn collect_matches<D, P>(
    alloc: Global,
    patterns: Vec<P>,
    directory: D,
) -> Result<(Vec<Result<TreeEntry, WalkError>>, D), NotKept>
where
    D: Directory,
    P: Pattern + Drop,
    ensures { IfOk result (λ r. KeepsMatches P.spells patterns.items D.law directory r.1
        (map (given_outcome ⟦<TreeEntry as Entry>⟧.facts ⟦<TreeEntry as Entry>⟧.facts) r.0.items)) }
{
    let set = any(alloc, patterns)?;
    let walk = set.walk(alloc, directory, "")?;
    law_of_wanted();
    Ok(collect(alloc, walk)?)
}
