//! Lists of what is wanted of a walk.

ghost use Rattle.std.specs.Prelude.{◌≡◌, ◌+◌, ◌≤◌, All, List, ℕ, IfOk, false, filter, length, map};
ghost use Rattle.std.specs.Iterator.{IsFinite, size};
ghost use Rattle.wax_directory.specs.Shown.{Shown};
ghost use Rattle.wax_tree.specs.Programs.{any_mark};
ghost use Rattle.wax_exclude.specs.Feeds.{FeedsRuled};
ghost use Rattle.wax_exclude.specs.GlobRequests.{AreRulesOf, ComesWanted, KeepsWanted, CanBegin, GlobRequest};
ghost use Rattle.wax_exclude.specs.GlobRequests.{request_excluding, request_pending};
ghost use Rattle.wax_exclude.specs.RuledWalks.{ComesRuled, RuledWalk};
ghost use Rattle.wax_exclude.specs.{Told.{FeedsAnswered, KeepsAnswered, LeavesAnswered}, Wanted.Filter};
ghost use Rattle.wax_token.specs.Reads.{Span};
ghost use Rattle.wax_walk.specs.{Collected.{Yielded, Took}, Entries.{given_of, given_outcome}};
ghost use Rattle.wax_walk.specs.{Given.{Given, is_kept}, Known.{KnownItem, KnownOutcome}, Ruled.ruled_view};

use crate::laws::law_of_walks;
use std::alloc::Global;
use wax_filter::filter::Separation;
use wax_query::diagnostics::NoMemory;
use wax_tree::FilterAny;
use wax_walk::{
    Entry, Exclude, FileIterator, WalkError, collect as collect_items,
    collect_feed as collect_feed_items,
};

/// Collects what a walk keeps: returns the kept items in order, errors included, and the directory.
/// What is `known` of the walk's entries holds for each. If the walk is that of a glob without what
/// patterns match, over a lawful directory, the entries are exactly those of the plain walk that
/// the glob matches and no pattern does, or a prefix of these if memory or the budget runs out.
///
/// # Errors
///
/// Returns `NoMemory` if allocation fails for the list itself. If it fails in the walk, the last
/// item is that error.
pub fn collect<I>(
    alloc: Global,
    walk: I,
) -> Result<(Vec<Result<I::Entry, WalkError>>, I::Directory), NoMemory>
where
    I: FileIterator,
    requires can { I.can_feed walk }
    requires ends { IsFinite (I.left walk) }
    ensures took { IfOk result (λ r. (xs : List Given) × Took I.Directory.law (I.view walk) r.1 xs
        × (length xs ≤ size (I.left walk))
        × (map (given_outcome I.Entry.facts I.Residue.facts) r.0.items ≡ filter is_kept xs)) }
    ensures known { IfOk result (λ r. All (KnownOutcome (I.known walk)) r.0.items) }
    ensures wanted { IfOk result (λ r. (d : I.Directory) (request : GlobRequest) (s : Shown)
        (listed : List (List ℕ)) → ComesWanted I.Directory.law d request (I.view walk)
        → CanBegin request
        → I.Directory.law.shows d request.origin.path s → I.Directory.law.tells d listed
        → KeepsWanted (I.Directory.law.tells r.1) request s listed
        (map (given_outcome I.Entry.facts I.Residue.facts) r.0.items)) }
    ensures feed { IfOk result (λ r. (d : I.Directory) (ruled : RuledWalk) (s : Shown)
        (listed : List (List ℕ)) → ComesRuled I.Directory.law d ruled (I.view walk)
        → I.Directory.law.shows d ruled.origin.path s → I.Directory.law.tells d listed
        → (xs : List Given) × FeedsRuled ruled s xs
        × (map (given_outcome I.Entry.facts I.Residue.facts) r.0.items ≡ filter is_kept xs)) }
    ensures answered { IfOk result (λ r. (d : I.Directory) (request : GlobRequest)
        → ComesWanted I.Directory.law d request (I.view walk) → CanBegin request
        → KeepsAnswered I.Directory.law (I.view walk).directory r.1 request
        (map (given_outcome I.Entry.facts I.Residue.facts) r.0.items)) }
    ensures leaves { IfOk result (λ r. (d : I.Directory) (ruled : RuledWalk)
        → ComesRuled I.Directory.law d ruled (I.view walk)
        → LeavesAnswered I.Directory.law (I.view walk).directory r.1 ruled
        (map (given_outcome I.Entry.facts I.Residue.facts) r.0.items)) }
{
    law_of_walks();
    collect_items(alloc, walk)
}

/// Collects the feed of a walk: returns all items in order, kept or excluded, and the directory.
/// Errors are among the kept items. What is `known` of the walk's entries holds for each kept one.
/// If the walk is that of a glob with filters, over a lawful directory, the feed is what these
/// leave of the list of the whole walk, or a prefix of that if memory or the budget runs out.
///
/// # Errors
///
/// Returns `NoMemory` if allocation fails for the list itself. If it fails in the walk, the last
/// item is that error.
pub fn collect_feed<I>(
    alloc: Global,
    walk: I,
) -> Result<(Vec<Separation<I::Feed>>, I::Directory), NoMemory>
where
    I: FileIterator,
    requires can { I.can_feed walk }
    requires ends { IsFinite (I.left walk) }
    ensures took { IfOk result (λ r. Took I.Directory.law (I.view walk) r.1
        (map (given_of I.Entry.facts I.Residue.facts) r.0.items)) }
    ensures few { IfOk result (λ r. length r.0.items ≤ size (I.left walk)) }
    ensures known { IfOk result (λ r. All (KnownItem (I.known walk)) r.0.items) }
    ensures wanted { IfOk result (λ r. (d : I.Directory) (request : GlobRequest) (s : Shown)
        (listed : List (List ℕ)) → ComesWanted I.Directory.law d request (I.view walk)
        → I.Directory.law.shows d request.origin.path s → I.Directory.law.tells d listed
        → Yielded (I.Directory.law.tells r.1) (request.walked.budget + 1) (request_pending request s listed)
        (map (given_of I.Entry.facts I.Residue.facts) r.0.items)) }
    ensures feed { IfOk result (λ r. (d : I.Directory) (ruled : RuledWalk) (s : Shown)
        (listed : List (List ℕ)) → ComesRuled I.Directory.law d ruled (I.view walk)
        → I.Directory.law.shows d ruled.origin.path s → I.Directory.law.tells d listed
        → FeedsRuled ruled s (map (given_of I.Entry.facts I.Residue.facts) r.0.items)) }
    ensures answered { IfOk result (λ r. (d : I.Directory) (ruled : RuledWalk)
        → ComesRuled I.Directory.law d ruled (I.view walk)
        → FeedsAnswered I.Directory.law (I.view walk).directory r.1 ruled
        (map (given_of I.Entry.facts I.Residue.facts) r.0.items)) }
{
    collect_feed_items(alloc, walk)
}

/// Collects a walk without what the rules exclude: returns what is kept, in order, errors included,
/// and the directory. If the walk is that of a glob over a lawful directory, and each rule is that
/// of a pattern or of an ignore list, the entries are exactly those of the plain walk that the glob
/// matches and no filter excludes, or a prefix of these if memory or the budget runs out.
///
/// # Errors
///
/// Returns `NoMemory` if allocation fails for the list itself. If it fails in the walk, the last
/// item is that error.
pub fn collect_excluding<I, R>(
    alloc: Global,
    walk: I,
    rules: Vec<R>,
) -> Result<(Vec<Result<I::Entry, WalkError>>, I::Directory), NoMemory>
where
    I: FileIterator,
    R: Exclude,
    requires can { I.can_feed walk }
    requires ends { IsFinite (I.left walk) }
    ensures took { IfOk result (λ r. (xs : List Given)
        × Took I.Directory.law (ruled_view (I.view walk) (any_mark (map R.rule rules.items)) false) r.1 xs
        × (length xs ≤ size (I.left walk))
        × (map (given_outcome I.Entry.facts I.Residue.facts) r.0.items ≡ filter is_kept xs)) }
    ensures known { IfOk result (λ r. All (KnownOutcome (I.known walk)) r.0.items) }
    ensures wanted { IfOk result (λ r. (d : I.Directory) (request : GlobRequest)
        (filters : List (Filter Span))
        (s : Shown) (listed : List (List ℕ)) → ComesWanted I.Directory.law d request (I.view walk)
        → AreRulesOf filters (map R.rule rules.items) → CanBegin (request_excluding request filters)
        → I.Directory.law.shows d request.origin.path s → I.Directory.law.tells d listed
        → KeepsWanted (I.Directory.law.tells r.1) (request_excluding request filters) s listed
        (map (given_outcome I.Entry.facts I.Residue.facts) r.0.items)) }
    ensures answered { IfOk result (λ r. (d : I.Directory) (request : GlobRequest)
        (filters : List (Filter Span)) → ComesWanted I.Directory.law d request (I.view walk)
        → AreRulesOf filters (map R.rule rules.items) → CanBegin (request_excluding request filters)
        → KeepsAnswered I.Directory.law (I.view walk).directory r.1 (request_excluding request filters)
        (map (given_outcome I.Entry.facts I.Residue.facts) r.0.items)) }
{
    let kept = walk.excluding(alloc, FilterAny::new(rules));
    collect(alloc, kept)
}
