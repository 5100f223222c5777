//! Walks of globs.
ghost use Rattle.std.specs.Prelude.{◌≡◌, ◌≤◌, ◌+◌, ◌*◌, ℕ, Bool, List, IfOk, MatchOption, length, map};
ghost use Rattle.wax_components.specs.Depth.{Depth};
ghost use Rattle.wax_facts.specs.Prefix.{Prefix};
ghost use Rattle.wax_tree.specs.{Matches.IsMatchedEntry, Begins.{EndsWithin, BeginsAt, behavior_range}};
ghost use Rattle.wax_tree.specs.{Depths.behavior_at, Prefix.from_last};
ghost use Rattle.wax_tree.specs.declared.behavior.DepthBehavior.TheVariants.{Unbounded};
ghost use Rattle.wax_exclude.specs.{Prefix.HasEmptyName, BeginsRequest.{origin_from, within}};
ghost use Rattle.wax_exclude.specs.Pruned.{by_matches};
ghost use Rattle.wax_query.specs.{Components.component_total, Ranges.{AtMost, Bounds}};
ghost use Rattle.wax_token.specs.Cost.{program_length};
ghost use Rattle.wax_walk.specs.Known.{StaysKnown};
ghost use Rattle.wax.specs.{GlobView.{HasCaptures, IsMeant}, GlobWalks.{BeginsBy, BeginsGlob, IsPlan}};

use crate::glob::Glob;
use std::alloc::Global;
use wax_directory::directory::Directory;
use wax_exclude::{
    LeadingComponent, PrefixNames, collect_excluding, leading, prefix_names_of, walk_along, within,
};
use wax_filter::filter::SeparatingFilter;
use wax_query::diagnostics::NoMemory;
use wax_query::matching::Program;
use wax_token::token::{ExpressionMetadata, Token};
use wax_tree::{DepthRange, GlobEntry, Uncaptured, WalkBehavior, WalkTree, uncaptured_of, walk_of};
use wax_walk::{Entry, Exclude, FileIterator, TreeEntry, WalkError};

/// The walk of a glob through a directory. It keeps every entry that the glob matches. A folder
/// that the names in the glob rule out is excluded before it is listed.
pub type GlobWalk<'g, 't, D> = wax_tree::GlobWalk<'g, D, Glob<'t>, LeadingComponent<'g, 't>>;

/// The walk of a glob through a directory, without captures. It opens only the folders below which
/// the glob can match something.
pub type UncapturedWalk<'g, 't, D> = Uncaptured<'g, D, Glob<'t>>;

impl<'t> Glob<'t> {
    ghost use Rattle.wax_tree.specs.declared.behavior.WalkBehavior.{WalkBehavior};

    /// Walks through `directory` from `start` and yields the entries that the glob matches, at
    /// every depth, each with its captures. The walk takes at most 4,294,967,295 items from
    /// folders. `walk_uncaptured` takes less time and opens fewer folders.
    ///
    /// The walk begins at the glob's prefix and goes no deeper than the glob's longest matches. If
    /// the prefix begins with `/`, the walk begins at the root and `start` isn't used. If memory
    /// runs out before the walk begins, its only item is an error.
    ///
    /// ```
    /// use wax::walk::{Tree, collect};
    ///
    /// let tree = Tree::from_paths(alloc, &["src/lib.rs", "src/net/tcp.rs", "docs/guide.md"])?;
    /// let glob = Glob::new(alloc, "src/**/*.rs")?;
    /// let (items, _) = collect(alloc, glob.walk(alloc, tree, ""))?;
    /// for item in &items {
    ///     match item {
    ///         Ok(entry) => println!(rt; "{}", entry.path())?, // src/lib.rs; src/net/tcp.rs
    ///         Err(error) => println!(rt; "{error}")?,
    ///     }
    /// }
    /// ```
    pub fn walk<'g, D: Directory>(
        &'g self,
        alloc: Global,
        directory: D,
        start: &str,
    ) -> GlobWalk<'g, 't, D>
        ensures begins { BeginsGlob self.now.tree D.law directory start.now
            (behavior_range (behavior_at Unbounded)) (⟦<GlobWalk<'g, 't, D> as FileIterator>⟧.view result) }
        ensures gives { EndsWithin (2 * (behavior_at Unbounded).budget + 3)
            (⟦<GlobWalk<'g, 't, D> as SeparatingFilter>⟧.left result) }
        ensures known { StaysKnown (IsMatchedEntry (IsMeant self.now) (HasCaptures self.now))
            (⟦<GlobWalk<'g, 't, D> as FileIterator>⟧.known result) }
    {
        walk_in(alloc, self, directory, start, WalkBehavior::default())
    }

    /// Walks as `walk` does, at the depths of `behavior`, and takes at most as many items from
    /// folders as its budget.
    ///
    /// ```
    /// use wax::walk::{DepthMax, Tree, collect};
    ///
    /// let tree = Tree::from_paths(alloc, &["a.rs", "src/lib.rs", "src/net/tcp.rs"])?;
    /// let glob = Glob::new(alloc, "**/*.rs")?;
    /// let (items, _) = collect(alloc, glob.walk_with_behavior(alloc, tree, "", DepthMax(2)))?;
    /// println!(rt; "{}", items.len())?; // 2
    /// ```
    pub fn walk_with_behavior<'g, D, B>(
        &'g self,
        alloc: Global,
        directory: D,
        start: &str,
        behavior: B,
    ) -> GlobWalk<'g, 't, D>
    where
        D: Directory,
        B: Into<WalkBehavior>,
        ensures begins { (b : WalkBehavior) × B.converts behavior b
            × BeginsGlob self.now.tree D.law directory start.now (behavior_range b)
            (⟦<GlobWalk<'g, 't, D> as FileIterator>⟧.view result)
            × EndsWithin (2 * b.budget + 3) (⟦<GlobWalk<'g, 't, D> as SeparatingFilter>⟧.left result) }
        ensures known { StaysKnown (IsMatchedEntry (IsMeant self.now) (HasCaptures self.now))
            (⟦<GlobWalk<'g, 't, D> as FileIterator>⟧.known result) }
    {
        walk_in(alloc, self, directory, start, behavior.into())
    }

    /// Walks as `walk_with_behavior` does, but without captures, and opens only the folders below
    /// which the glob can match something. It takes less time: it copies nothing of an entry, and
    /// reads no folder in vain. If `bin/*` and `include/**/*.h` are two alternatives of the glob,
    /// it doesn't look into a folder `share`.
    ///
    /// It begins at the glob's prefix and goes no deeper than the glob's longest matches. A folder
    /// that matches is kept even if it isn't opened. Each filter of walks can be added, such as
    /// `not` and `ignore`; it sees the entries below the least depth, too.
    ///
    /// ```
    /// use wax::walk::{Tree, WalkBehavior, collect};
    ///
    /// let tree = Tree::from_paths(alloc, &["Cargo.toml", "src/lib.rs", "target/debug/lib.o"])?;
    /// let glob = Glob::new(alloc, "{src/**,Cargo.toml}")?;
    /// let walk = glob.walk_uncaptured(alloc, tree, "", WalkBehavior::default())?;
    /// let (items, tree) = collect(alloc, walk)?;
    /// println!(rt; "{} {}", items.len(), tree.listed().len())?; // 3 2
    /// ```
    ///
    /// # Errors
    ///
    /// Returns `NoMemory` if allocation fails before the walk begins. If it fails in the walk, its
    /// last item is an error.
    pub fn walk_uncaptured<'g, D: Directory>(
        &'g self,
        alloc: Global,
        directory: D,
        start: &str,
        behavior: WalkBehavior,
    ) -> Result<UncapturedWalk<'g, 't, D>, NoMemory>
        ensures begins { IfOk result (λ walk. BeginsBy by_matches self.now.tree D.law directory start.now
            (behavior_range behavior) (⟦<UncapturedWalk<'g, 't, D> as FileIterator>⟧.view walk)) }
        ensures gives { IfOk result (λ walk. EndsWithin (2 * behavior.budget + 3)
            (⟦<UncapturedWalk<'g, 't, D> as SeparatingFilter>⟧.left walk)) }
        ensures feeds { IfOk result (λ walk.
            ⟦<UncapturedWalk<'g, 't, D> as SeparatingFilter>⟧.can_feed walk) }
    {
        let asked = self.within(behavior.range());
        let range = DepthRange { min: 0, ..asked };
        match prefix_names_of(alloc, self.token())? {
            Some(prefix_names) => {
                let walk = walk_along(alloc, directory, start, prefix_names, range);
                uncaptured_of(alloc, walk, self, asked.min, asked.max)
            }
            None => {
                let walk = WalkTree::ended(alloc, directory, range);
                uncaptured_of(alloc, walk, self, asked.min, asked.max)
            }
        }
    }

    // Lowers the greatest depth of `range` to that of the glob.
    fn within(&self, range: DepthRange) -> DepthRange
        ensures { (depth : Bounds) × Depth self.now.tree depth
            × ((s : List ℕ) → IsMeant self.now s → AtMost (component_total s) depth.1)
            × (result ≡ within range depth) }
    {
        within(range, self.depth())
    }
}

// Computes what a walk needs of the glob's token: the names of its prefix, and its leading components.
// Returns `None` if two `/` are side by side in the prefix: no path of names matches then.
fn needs<'g, 't>(
    alloc: Global,
    token: &'g Token<'t, ExpressionMetadata>,
) -> Result<Option<(PrefixNames, Vec<LeadingComponent<'g, 't>>)>, NoMemory>
    requires { program_length token.now ≤ 1048576 }
    ensures prefix { IfOk result (λ _. (taken : ℕ) × (prefix : List ℕ) × Prefix token.now taken prefix) }
    ensures plan { IfOk result (λ plan. (taken : ℕ) (prefix : List ℕ) → Prefix token.now taken prefix
        → MatchOption plan (HasEmptyName prefix) (λ r.
        IsPlan token.now prefix r.0.is_rooted (from_last r.0.names.items) r.1.items)) }
{
    match prefix_names_of(alloc, token)? {
        Some(prefix_names) => {
            let leading = leading(alloc, token, prefix_names.is_rooted)?;
            Ok(Some((prefix_names, leading)))
        }
        None => Ok(None),
    }
}

// The body of all walks of a glob, for a behavior that is already converted.
fn walk_in<'g, 't, D: Directory>(
    alloc: Global,
    glob: &'g Glob<'t>,
    directory: D,
    start: &str,
    behavior: WalkBehavior,
) -> GlobWalk<'g, 't, D>
    ensures begins { BeginsGlob glob.now.tree D.law directory start.now (behavior_range behavior)
        (⟦<GlobWalk<'g, 't, D> as FileIterator>⟧.view result) }
    ensures gives { EndsWithin (2 * behavior.budget + 3)
        (⟦<GlobWalk<'g, 't, D> as SeparatingFilter>⟧.left result) }
    ensures known { StaysKnown (IsMatchedEntry (IsMeant glob.now) (HasCaptures glob.now))
        (⟦<GlobWalk<'g, 't, D> as FileIterator>⟧.known result) }
{
    let range = glob.within(behavior.range());
    match needs(alloc, glob.token()) {
        Ok(Some((prefix_names, leading))) => {
            let walk = walk_along(alloc, directory, start, prefix_names, range);
            walk_of(alloc, walk, leading, glob)
        }
        Ok(None) => {
            let walk = WalkTree::ended(alloc, directory, range);
            walk_of(alloc, walk, Vec::new(alloc), glob)
        }
        Err(_) => {
            let walk = WalkTree::refused(alloc, directory, range);
            walk_of(alloc, walk, Vec::new(alloc), glob)
        }
    }
}

impl<'t> Glob<'t> {
    ghost use Rattle.std.specs.Prelude.{◌⊎◌, ◌∷◌, [], All, filter};
    ghost use Rattle.wax_exclude.specs.{GlobRequests.{AreRulesOf, KeepsWanted}, Premises.IsUnmeant};
    ghost use Rattle.wax_exclude.specs.{Told.KeepsAnswered, Wanted.Filter};
    ghost use Rattle.wax_directory.specs.Shown.{Shown};
    ghost use Rattle.wax_token.specs.Reads.{Span};
    ghost use Rattle.wax_tree.specs.Prefix.{ArePlain};
    ghost use Rattle.wax_walk.specs.{Entries.given_outcome, Given.{Given, is_kept, no_memory}};
    ghost use Rattle.wax_walk.specs.Known.{KnownOutcome};
    ghost use Rattle.wax.specs.GlobWalks.{Beginning, FailsAtFolders, GaveWithin, HasBrokenPrefix};
    ghost use Rattle.wax.specs.GlobWalks.{KeepsNothing, LeadsNowhere, request_of};

    /// Collects the walk of the glob from `start` without what the rules exclude: returns what is
    /// kept, in order, errors included, and the directory.
    ///
    /// If the directory is lawful, and each rule is that of a pattern or of an ignore list, in any
    /// order, the entries are exactly those of the whole walk, in range, that the glob matches,
    /// that no pattern matches and that no list ignores. If memory or the budget runs out, the list
    /// is a prefix of that and then one error. Each entry has the captures of its candidate. If two
    /// `/` are side by side in the glob's prefix, nothing is kept. If so, or if the prefix has more
    /// names than the greatest depth, the directory isn't called. Whatever the directory shows, the
    /// walk takes and yields no more items than the budget allows, and unless an error ended it,
    /// each folder that it yielded above its greatest depth was opened, and read to the end if it
    /// can be listed.
    ///
    /// ```
    /// use wax::walk::{Tree, WalkBehavior, WalkFilter};
    ///
    /// let tree = Tree::from_paths(alloc, &["src/lib.rs", "src/old_a.rs", "target/lib.rs"])?;
    /// let list = IgnoreList::parse(alloc, "**/old_*\n")?;
    /// let filters = vec![in alloc; WalkFilter::not(alloc, "target/**")?, WalkFilter::ignore(list)]?;
    /// let glob = Glob::new(alloc, "**/*.rs")?;
    /// let behavior = WalkBehavior::default();
    /// let (items, _) = glob.collect_excluding(alloc, tree, "", behavior, filters)?;
    /// println!(rt; "{}", items.len())?; // 1
    /// ```
    ///
    /// # Errors
    ///
    /// Returns `NoMemory` if allocation fails for the list itself. If it fails in the walk, the
    /// last item is that error.
    pub fn collect_excluding<D, R>(
        &self,
        alloc: Global,
        directory: D,
        start: &str,
        behavior: WalkBehavior,
        rules: Vec<R>,
    ) -> Result<(Vec<Result<GlobEntry, WalkError>>, D), NoMemory>
    where
        D: Directory,
        R: Exclude,
        ensures took { IfOk result (λ r. (xs : List Given) × (length xs ≤ 2 * behavior.budget + 3)
            × GaveWithin self.now.tree D.law directory (behavior_range behavior) r.1 xs
            × FailsAtFolders self.now.tree start.now (behavior_range behavior) xs
            × (map (given_outcome ⟦<GlobEntry as Entry>⟧.facts ⟦<TreeEntry as Entry>⟧.facts) r.0.items
            ≡ filter is_kept xs)) }
        ensures begins { IfOk result (λ r. Beginning self.now.tree ⊎ (HasBrokenPrefix self.now.tree
            ⊎ (map (given_outcome ⟦<GlobEntry as Entry>⟧.facts ⟦<TreeEntry as Entry>⟧.facts) r.0.items
            ≡ no_memory ∷ []))) }
        ensures unmeant { IfOk result (λ r. (taken : ℕ) (prefix : List ℕ) (path : List ℕ) (s : Shown)
            (listed : List (List ℕ)) → Prefix self.now.tree taken prefix → HasEmptyName prefix
            → D.law.shows directory path s → D.law.tells directory listed
            → KeepsNothing (D.law.tells r.1) listed
            (map (given_outcome ⟦<GlobEntry as Entry>⟧.facts ⟦<TreeEntry as Entry>⟧.facts) r.0.items)) }
        ensures none_match { (taken : ℕ) (prefix : List ℕ) (rooted : Bool) → Prefix self.now.tree taken prefix
            → HasEmptyName prefix → IsUnmeant rooted self.now.tree }
        ensures unasked { IfOk result (λ r. (depth : Bounds) × Depth self.now.tree depth
            × (LeadsNowhere self.now.tree (within (behavior_range behavior) depth) → r.1 ≡ directory)) }
        ensures matched { IfOk result
            (λ r. All (KnownOutcome (IsMatchedEntry (IsMeant self.now) (HasCaptures self.now))) r.0.items) }
        ensures wanted { IfOk result (λ r. (depth : Bounds) × Depth self.now.tree depth
            × ((b : Beginning self.now.tree) (filters : List (Filter Span)) (s : Shown)
            (listed : List (List ℕ)) → AreRulesOf filters (map R.rule rules.items) → ArePlain b.names
            → D.law.shows directory (origin_from start.now b.rooted b.names).path s
            → D.law.tells directory listed
            → KeepsWanted (D.law.tells r.1)
            (request_of start.now (behavior_range behavior) depth b filters) s listed
            (map (given_outcome ⟦<GlobEntry as Entry>⟧.facts ⟦<TreeEntry as Entry>⟧.facts) r.0.items))) }
        ensures answered { IfOk result (λ r. (depth : Bounds) × Depth self.now.tree depth
            × ((b : Beginning self.now.tree) (filters : List (Filter Span))
            → AreRulesOf filters (map R.rule rules.items) → ArePlain b.names
            → KeepsAnswered D.law directory r.1
            (request_of start.now (behavior_range behavior) depth b filters)
            (map (given_outcome ⟦<GlobEntry as Entry>⟧.facts ⟦<TreeEntry as Entry>⟧.facts) r.0.items))) }
    {
        let walk = walk_in(alloc, self, directory, start, behavior);
        collect_excluding(alloc, walk, rules)
    }
}
