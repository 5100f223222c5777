//! How far the walks of globs and sets go: along the names of a prefix, and no deeper than the
//! longest matches.
ghost use Rattle.std.specs.Prelude.{◌≡◌, ◌+◌, ◌*◌};
ghost use Rattle.wax_query.specs.Ranges.{bounds};
ghost use Rattle.wax_tree.specs.{Begins.{BeginsAt, EndsWithin}, Prefix.from_last};
ghost use Rattle.wax_exclude.specs.BeginsRequest.{origin_from, within};

use crate::prefixes::PrefixNames;
use std::alloc::Global;
use wax_directory::directory::Directory;
use wax_filter::filter::SeparatingFilter;
use wax_query::query::DepthVariance;
use wax_tree::{DepthRange, WalkTree};
use wax_walk::FileIterator;

/// Begins a plain walk at the names of a prefix, below `start`, or below the root if the prefix is
/// rooted.
pub fn walk_along<D: Directory>(
    alloc: Global,
    directory: D,
    start: &str,
    prefix_names: PrefixNames,
    range: DepthRange,
) -> WalkTree<D>
    ensures begins { BeginsAt D.law directory
        (origin_from start.now prefix_names.is_rooted (from_last prefix_names.names.items)) range
        (⟦<WalkTree<D> as FileIterator>⟧.view result) }
    ensures gives { EndsWithin (2 * range.budget + 3) (⟦<WalkTree<D> as SeparatingFilter>⟧.left result) }
{
    let PrefixNames { is_rooted, names } = prefix_names;
    if is_rooted {
        WalkTree::to_place(alloc, directory, "", "/", "/", names, range)
    } else {
        WalkTree::to_place(alloc, directory, start, start, "", names, range)
    }
}

/// Lowers the greatest depth of `range` to the greatest number of components of a match.
pub fn within(range: DepthRange, depth: DepthVariance) -> DepthRange
    ensures { result ≡ within range (bounds depth) }
{
    match depth.upper() {
        Some(upper) => DepthRange {
            max: range.max.min(upper),
            ..range
        },
        None => range,
    }
}
