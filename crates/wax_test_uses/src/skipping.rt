//! Folders that need not be opened.
ghost use Rattle.std.specs.{Prelude.{◌≡◌, ◌≢◌, ◌↔◌, ◌++◌, [], ℕ, List, IfOk, IsTrue, true}, Str.all_scalars};
ghost use Rattle.wax.specs.{GlobView.IsMeant, Matching.{AreNames, folder_text, joined_names}};

use std::alloc::Global;
use wax::{CandidatePath, Glob, NoMemory, Program};

/// Returns whether the glob matches no path of names below the folder. It shows which work can be
/// skipped: the folder need not be opened.
pub fn means_none_below(
    alloc: Global,
    glob: &Glob<'_>,
    folder: &CandidatePath<'_>,
) -> Result<bool, NoMemory>
    ensures { IfOk result (λ answer. IsTrue answer ↔ ((names : List (List ℕ)) → AreNames names → names ≢ []
        → all_scalars (folder_text folder.now ++ joined_names names) ≡ true
        → IsMeant glob.now (folder_text folder.now ++ joined_names names) → ⊥)) }
{
    let goes_on = glob.goes_on(alloc, folder)?;
    Ok(!goes_on)
}
