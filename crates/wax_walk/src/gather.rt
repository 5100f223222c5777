//! Lists of what walks yield.

ghost use Rattle.std.specs.Prelude.{◌≡◌, ◌≤◌, ◌++◌, All, List, IfOk, length, map, filter};
ghost use Rattle.std.specs.Iterator.{IsFinite, size};
ghost use Rattle.wax_walk.specs.{Collected.Took, Entries.{given_of, given_outcome}, Given.{Given, is_kept}};
ghost use Rattle.wax_walk.specs.Known.{KnownItem, KnownOutcome, kept_of};

use crate::entry::Entry;
use crate::error::WalkError;
use crate::iterator::FileIterator;
use std::alloc::Global;
use wax_filter::filter::{Feed, Separation, TreeResidue};
use wax_query::diagnostics::NoMemory;

fn keep<T, R, F>(
    items: &mut Vec<Result<T, WalkError>>,
    separation: Separation<F>,
) -> Result<(), NoMemory>
where
    T: Entry,
    R: Entry,
    F: Feed<Filtrate = Result<T, WalkError>, Residue = TreeResidue<R>>,
    ensures { IfOk result (λ _. items.new.items ≡ items.old.items ++ kept_of separation) }
{
    match separation {
        Separation::Filtrate(filtrate) => Ok(items.push(filtrate.into_inner())?),
        Separation::Residue(_) => Ok(()),
    }
}

/// Collects the feed of a walk: returns all items in order, kept or excluded, and the directory.
/// Errors are among the kept items. What is `known` of the walk's entries holds for each kept one.
///
/// # Errors
///
/// Returns `NoMemory` if allocation fails for the list itself. If it fails in the walk, the last
/// item is that error.
pub fn collect_feed<I>(
    alloc: Global,
    mut walk: I,
) -> Result<(Vec<Separation<I::Feed>>, I::Directory), NoMemory>
where
    I: FileIterator,
    requires can { I.can_feed walk }
    requires ends { IsFinite (I.left walk) }
    ensures took { IfOk result (λ r. Took I.Directory.law (I.view walk) r.1
        (map (given_of I.Entry.facts I.Residue.facts) r.0.items)) }
    ensures few { IfOk result (λ r. length r.0.items ≤ size (I.left walk)) }
    ensures known { IfOk result (λ r. All (KnownItem (I.known walk)) r.0.items) }
{
    let mut items = Vec::new(alloc);
    while let Some(item) = walk.feed() {
        items.push(item)?;
    }
    Ok((items, walk.into_directory()))
}

/// Collects what a walk keeps: returns the kept items in order, errors included, and the directory.
/// What is `known` of the walk's entries holds for each.
///
/// # Errors
///
/// Returns `NoMemory` if allocation fails for the list itself. If it fails in the walk, the last
/// item is that error.
pub fn collect<I>(
    alloc: Global,
    mut walk: I,
) -> Result<(Vec<Result<I::Entry, WalkError>>, I::Directory), NoMemory>
where
    I: FileIterator,
    requires can { I.can_feed walk }
    requires ends { IsFinite (I.left walk) }
    ensures took { IfOk result (λ r. (xs : List Given) × Took I.Directory.law (I.view walk) r.1 xs
        × (length xs ≤ size (I.left walk))
        × (map (given_outcome I.Entry.facts I.Residue.facts) r.0.items ≡ filter is_kept xs)) }
    ensures known { IfOk result (λ r. All (KnownOutcome (I.known walk)) r.0.items) }
{
    let mut items = Vec::new(alloc);
    while let Some(item) = walk.feed() {
        keep(&mut items, item)?;
    }
    Ok((items, walk.into_directory()))
}
