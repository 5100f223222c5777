//! A chain of calls that excludes entries of a walk.
ghost use Rattle.std.specs.{Iterator.IsFinite, List.AllZip, Prelude.{◌∷◌, [], IfOk, List, map}};
ghost use Rattle.wax_test_uses.specs.Excluding.{AreFilters, IsKnownFrom, KeepsExcluding, KeepsFiltered};
ghost use Rattle.wax.specs.{Ignoring.{IsReadAs, Line, written_lines}, Language.{Span, Tree}, Patterns.IsOnly};
ghost use Rattle.wax.specs.Walks.{Filter, given_outcome, not_ignored, not_meant};

use std::alloc::{AllocFailed, Global};
use wax::walk::{
    Directory, Entry, FileIterator, FileIteratorExt, GlobEntry, IgnoreError, IgnoreList, TreeEntry,
    WalkError, collect,
};
use wax::{BuildError, Glob, NoMemory, Pattern};

/// Why nothing is kept of a walk with filters.
#[derive(Debug, Drop)]
pub enum NotKept {
    /// A pattern or a list isn't built.
    NotBuilt,
    NoMemory,
}

impl From<BuildError> for NotKept {
    ghost use Rattle.std.specs.Prelude.{◌≡◌};
    ghost use Rattle.wax_test_uses.specs.declared.walks.NotKept.TheVariants.{NotBuilt};

    ghost from_gives = { λ _ error. error ≡ NotBuilt };

    fn from(_: BuildError) -> Self {
        NotKept::NotBuilt
    }
}

impl From<IgnoreError> for NotKept {
    ghost use Rattle.std.specs.Prelude.{◌≡◌};
    ghost use Rattle.wax_test_uses.specs.declared.walks.NotKept.TheVariants.{NotBuilt};

    ghost from_gives = { λ _ error. error ≡ NotBuilt };

    fn from(_: IgnoreError) -> Self {
        NotKept::NotBuilt
    }
}

impl From<NoMemory> for NotKept {
    ghost use Rattle.std.specs.Prelude.{◌≡◌};
    ghost use Rattle.wax_test_uses.specs.declared.walks.NotKept.TheVariants as not_kept;

    ghost from_gives = { λ _ error. error ≡ not_kept.NoMemory };

    fn from(_: NoMemory) -> Self {
        NotKept::NoMemory
    }
}

impl<T: Drop> From<AllocFailed<T>> for NotKept {
    ghost use Rattle.std.specs.Prelude.{◌≡◌};
    ghost use Rattle.wax_test_uses.specs.declared.walks.NotKept.TheVariants as not_kept;

    ghost from_gives = { λ _ error. error ≡ not_kept.NoMemory };

    fn from(_: AllocFailed<T>) -> Self {
        NotKept::NoMemory
    }
}

/// Walks the glob from a start, without what two patterns match and what the list of the text
/// ignores, and returns what is kept and the directory. If it is known what the directory shows, the
/// entries are exactly those of the whole walk that the glob matches, that neither of the patterns
/// matches and that the list doesn't ignore, in order; and only folders were opened that may hold
/// such entries. It shows a chain of `walk`, `not`, `not`, `ignore` and `collect`, whose contracts
/// together say what is kept.
///
/// # Errors
///
/// Returns `NotBuilt` if a pattern or the list has an error, and `NoMemory` if allocation fails for
/// the list of entries.
pub fn collect_glob_excluding<D, P, Q>(
    alloc: Global,
    glob: &Glob<'_>,
    directory: D,
    start: &str,
    first: P,
    second: Q,
    list: &str,
) -> Result<(Vec<Result<GlobEntry, WalkError>>, D), NotKept>
where
    D: Directory,
    P: Pattern + Drop,
    Q: Pattern + Drop,
    ensures { IfOk result (λ r. (filters : List (Filter Span))
        × AreFilters (P.spells first) (Q.spells second) list.now filters
        × ((known : IsKnownFrom glob.now D.law directory start.now)
        → KeepsFiltered known filters (D.law.tells r.1)
        (map (given_outcome ⟦<GlobEntry as Entry>⟧.facts ⟦<TreeEntry as Entry>⟧.facts) r.0.items))) }
{
    let walk = glob.walk(alloc, directory, start);
    collect_excluding_patterns(alloc, walk, first, second, list)
}

// The borrow checker doesn't cover `not` or `ignore` of a walk whose type is written out yet. So each
// of these functions makes one such call, of a walk of any type.
fn collect_excluding_patterns<I, P, Q>(
    alloc: Global,
    walk: I,
    first: P,
    second: Q,
    list: &str,
) -> Result<(Vec<Result<I::Entry, WalkError>>, I::Directory), NotKept>
where
    I: FileIterator,
    P: Pattern + Drop,
    Q: Pattern + Drop,
    requires can { I.can_feed walk }
    requires ends { IsFinite (I.left walk) }
    ensures { IfOk result (λ r. (filters : List (Filter Span))
        × AreFilters (P.spells first) (Q.spells second) list.now filters
        × KeepsExcluding I.Directory.law (I.view walk) filters r.1
        (map (given_outcome I.Entry.facts I.Residue.facts) r.0.items)) }
{
    match walk.not(alloc, first) {
        Ok(walk) => collect_excluding_pattern(alloc, walk, second, list),
        Err(_) => Err(NotKept::NotBuilt),
    }
}

fn collect_excluding_pattern<I, P>(
    alloc: Global,
    walk: I,
    pattern: P,
    list: &str,
) -> Result<(Vec<Result<I::Entry, WalkError>>, I::Directory), NotKept>
where
    I: FileIterator,
    P: Pattern + Drop,
    requires can { I.can_feed walk }
    requires ends { IsFinite (I.left walk) }
    ensures { IfOk result (λ r. (t : Tree Span) × IsOnly (P.spells pattern) t × (lines : List (Line Span))
        × AllZip IsReadAs (written_lines list.now) lines
        × KeepsExcluding I.Directory.law (I.view walk) (not_meant t ∷ not_ignored lines ∷ []) r.1
        (map (given_outcome I.Entry.facts I.Residue.facts) r.0.items)) }
{
    match walk.not(alloc, pattern) {
        Ok(walk) => collect_unignored(alloc, walk, list),
        Err(_) => Err(NotKept::NotBuilt),
    }
}

fn collect_unignored<I: FileIterator>(
    alloc: Global,
    walk: I,
    list: &str,
) -> Result<(Vec<Result<I::Entry, WalkError>>, I::Directory), NotKept>
    requires can { I.can_feed walk }
    requires ends { IsFinite (I.left walk) }
    ensures { IfOk result (λ r. (lines : List (Line Span))
        × AllZip IsReadAs (written_lines list.now) lines
        × KeepsExcluding I.Directory.law (I.view walk) (not_ignored lines ∷ []) r.1
        (map (given_outcome I.Entry.facts I.Residue.facts) r.0.items)) }
{
    match IgnoreList::parse(alloc, list) {
        Ok(list) => match collect(alloc, walk.ignore(alloc, list)) {
            Ok(kept) => Ok(kept),
            Err(_) => Err(NotKept::NoMemory),
        },
        Err(_) => Err(NotKept::NotBuilt),
    }
}
