//! Rules that claim no file in common.
ghost use Rattle.std.specs.Prelude.{ℕ, List, IfOk, IsTrue};
ghost use Rattle.wax.specs.{Comparing.IsPath, GlobView.IsMeant};

use std::alloc::Global;
use wax::{Comparison, Glob, MOST_STATES, NoMemory, Texts, overlap};

/// Returns whether it is known that no plain path matches both globs, so that two rules with these
/// globs never claim one file. It shows how to compare globs: no path has to be tried.
pub fn never_collide(alloc: Global, first: &Glob<'_>, second: &Glob<'_>) -> Result<bool, NoMemory>
    ensures { IfOk result (λ answer. IsTrue answer → (path : List ℕ) → IsPath path
        → IsMeant first.now path → IsMeant second.now path → ⊥) }
{
    let found = overlap(alloc, first, second, Texts::Paths, MOST_STATES)?;
    Ok(matches!(found, Comparison::Nothing))
}
