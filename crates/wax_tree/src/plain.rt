//! The plain walk as a list.

ghost use Rattle.std.specs.Prelude.{◌≡◌, ◌≤◌, ◌+◌, ◌*◌, ◌++◌, List, [], ℕ, IfOk, length, map, ⊤};
ghost use Rattle.wax_directory.specs.{History.Answer, Shown.Shown};
ghost use Rattle.wax_tree.specs.Begins.{IsPassed, behavior_range, start_view};
ghost use Rattle.wax_tree.specs.Whole.{plain_pending, EntriesAnswered, EntriesAre};
ghost use Rattle.wax_walk.specs.{Collected.{AreOfFolders, Took, Yielded}, View.is_above};
ghost use Rattle.wax_walk.specs.Entries.{given_outcome};

use crate::behavior::WalkBehavior;
use crate::path_ext::walk_from;
use std::alloc::Global;
use wax_directory::directory::Directory;
use wax_query::diagnostics::NoMemory;
use wax_walk::{Entry, TreeEntry, WalkError, collect};

/// Collects the plain walk from `start`: returns its items in order, each error at its place, and
/// the directory.
///
/// Over a lawful directory, the entries are exactly those of the tree that it shows at the start,
/// at the depths of `behavior`, with the errors of the folders that are listed. If memory or the
/// budget runs out, the list is a prefix of that and then one error: 17 for memory, or 16 if the
/// folders together hold more items than the budget. Over any directory, whatever it answered, its
/// answers are those of some tree, the items are the walk of that tree, and the folders that were
/// opened, or couldn't be listed, are those that this walk lists; or all begin so, and one error
/// comes. No more items than the budget are taken from folders, but for the one that error 16 is
/// about. Each error is of a folder that was yielded before it, of the start, or of a folder above the
/// least depth.
///
/// # Errors
///
/// Returns `NoMemory` if allocation fails for the list itself.
pub fn entries<D: Directory>(
    alloc: Global,
    directory: D,
    start: &str,
    behavior: WalkBehavior,
) -> Result<(Vec<Result<TreeEntry, WalkError>>, D), NoMemory>
    ensures items { IfOk result (λ r. (s : Shown) → D.law.shows directory start.now s
        → (listed : List (List ℕ))
        × Yielded (λ _. ⊤) (behavior.budget + 1) (plain_pending (behavior_range behavior) start.now s listed)
        (map (given_outcome ⟦<TreeEntry as Entry>⟧.facts ⟦<TreeEntry as Entry>⟧.facts) r.0.items)) }
    ensures entries { IfOk result (λ r. (s : Shown) → D.law.shows directory start.now s
        → EntriesAre (behavior_range behavior) start.now s
        (map (given_outcome ⟦<TreeEntry as Entry>⟧.facts ⟦<TreeEntry as Entry>⟧.facts) r.0.items)) }
    ensures folders { IfOk result
        (λ r. (s : Shown) (listed : List (List ℕ)) → D.law.shows directory start.now s
        → D.law.tells directory listed
        → Yielded (D.law.tells r.1) (behavior.budget + 1)
        (plain_pending (behavior_range behavior) start.now s listed)
        (map (given_outcome ⟦<TreeEntry as Entry>⟧.facts ⟦<TreeEntry as Entry>⟧.facts) r.0.items)) }
    ensures answered { IfOk result (λ r. (told : List Answer)
        × (D.law.answered r.1 ≡ D.law.answered directory ++ told)
        × EntriesAnswered (behavior_range behavior) start.now told
        (map (given_outcome ⟦<TreeEntry as Entry>⟧.facts ⟦<TreeEntry as Entry>⟧.facts) r.0.items)) }
    ensures errors { IfOk result (λ r. AreOfFolders (IsPassed (behavior_range behavior).min start.now [])
        (is_above (behavior_range behavior).max)
        (map (given_outcome ⟦<TreeEntry as Entry>⟧.facts ⟦<TreeEntry as Entry>⟧.facts) r.0.items)) }
    ensures took { IfOk result (λ r. Took D.law
        (start_view D.law directory start.now (behavior_range behavior)) r.1
        (map (given_outcome ⟦<TreeEntry as Entry>⟧.facts ⟦<TreeEntry as Entry>⟧.facts) r.0.items)) }
    ensures few { IfOk result (λ r. length r.0.items ≤ 2 * behavior.budget + 3) }
{
    collect(alloc, walk_from(alloc, directory, start, behavior))
}
