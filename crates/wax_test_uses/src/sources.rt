//! A walk through a small tree that is written out, down to the list of what it keeps.
ghost use Rattle.std.specs.Prelude.{◌∷◌, [], IfOk, codes, map};
ghost use Rattle.wax_test_uses.specs.Sources.{HasPaths, source_items};
ghost use Rattle.wax.specs.Walks.{a_folder, given_outcome, tree_law};

use crate::walks::NotKept;
use std::alloc::Global;
use wax::walk::{
    Entry, GlobEntry, IgnoreList, Tree, TreeEntry, WalkBehavior, WalkError, WalkFilter,
    law_of_feeds,
};
use wax::{Glob, NoMemory};

/// Lists what `src/*` matches in a small tree, without what `**/b*` matches and without what an
/// ignore list ignores: the entries `src/a.rs`, `src/main.rs` and `src/net`, in this order, and no
/// error. If memory runs out in the walk, the last item is that error. It shows a contract without a
/// premise: its proof computes what the tree shows and what is wanted of it.
///
/// # Errors
///
/// Returns an error if memory runs out before the walk.
pub fn list_sources(alloc: Global) -> Result<Vec<Result<GlobEntry, WalkError>>, NotKept>
    ensures { IfOk result (λ items. HasPaths
        (codes "src/a.rs" ∷ codes "src/main.rs" ∷ codes "src/net" ∷ [])
        (map (given_outcome ⟦<GlobEntry as Entry>⟧.facts ⟦<TreeEntry as Entry>⟧.facts) items.items)) }
{
    law_of_feeds();
    let tree = source_tree(alloc)?;
    let glob = Glob::new(alloc, "src/*")?;
    let filter = WalkFilter::not(alloc, "**/b*")?;
    let list = IgnoreList::parse(alloc, "src/m*\n!src/main.rs\n")?;
    let filters = Vec::from_array(alloc, [filter, WalkFilter::ignore(list)])?;
    let (items, _) = glob.collect_excluding(alloc, tree, "", WalkBehavior::default(), filters)?;
    Ok(items)
}

// Builds the tree.
fn source_tree(alloc: Global) -> Result<Tree, NoMemory>
    ensures shows { IfOk result (λ tree. tree_law.shows tree [] (a_folder source_items)) }
    ensures untold { IfOk result (λ tree. tree_law.tells tree []) }
{
    let paths = [
        "docs/x.md",
        "src/a.rs",
        "src/b.txt",
        "src/main.o",
        "src/main.rs",
        "src/net/tcp.rs",
    ];
    Tree::from_paths(alloc, &paths)
}
