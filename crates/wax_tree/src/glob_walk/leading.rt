//! The leading components of a glob, which the first names of each entry have to match.

ghost use Rattle.std.specs.Prelude.{◌≡◌, ◌∷◌, [], ℕ, Bool, List, IfOk, MatchOption, chars};
ghost use Rattle.wax_directory.specs.Names.{names_in_path};
ghost use Rattle.wax_tree.specs.Programs.{leads};
ghost use Rattle.wax_walk.specs.Candidates.{in_characters};

use std::alloc::Global;
use wax_query::diagnostics::NoMemory;
use wax_walk::Candidate;

/// A leading component: a set of names.
pub trait NameTest: Drop {
    /// The set, as a function from the characters of a name to booleans.
    ghost decides: { Self → List ℕ → Bool };

    /// Returns whether the name is in the set.
    fn is_match(&self, alloc: Global, name: &str) -> Result<bool, NoMemory>
        ensures { IfOk result (λ answer. answer ≡ decides self.now (chars name.now)) };
}

// Splits off the first name of a path, without allocating. Empty names are skipped.
fn first_name(path: &str) -> Option<(&str, &str)>
    ensures { MatchOption result (names_in_path path.now ≡ [])
        (λ r. names_in_path path.now ≡ r.0.now ∷ names_in_path r.1.now) }
{
    let mut text = path;
    while let Some((name, after)) = text.split_once('/') {
        if !name.is_empty() {
            return Some((name, after));
        }
        text = after;
    }
    if text.is_empty() {
        None
    } else {
        Some((text, ""))
    }
}

// Returns whether each name of the candidate is matched by the leading component at the same place.
// Names after the last component are free.
pub(crate) fn names_may_match<C: NameTest>(
    alloc: Global,
    leading: &[C],
    candidate: Candidate<'_>,
) -> Result<bool, NoMemory>
    ensures { IfOk result
        (λ led. led ≡ leads C.decides leading.now (in_characters candidate.entry).names) }
{
    let mut rest = candidate.path;
    for component in leading {
        let Some((name, after)) = first_name(rest) else {
            return Ok(true);
        };
        if !component.is_match(alloc, name)? {
            return Ok(false);
        }
        rest = after;
    }
    Ok(true)
}
