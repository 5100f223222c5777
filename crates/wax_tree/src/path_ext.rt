//! Walks from a path.

ghost use Rattle.std.specs.Prelude.{◌≡◌, ◌+◌, ◌*◌, ℕ, List};
ghost use Rattle.wax_tree.specs.Depths.{behavior_at, greatest};
ghost use Rattle.wax_tree.specs.declared.behavior.DepthBehavior.TheVariants.{Unbounded};
ghost use Rattle.wax_tree.specs.Begins.{EndsWithin, Begins, or_greatest, behavior_range};

use crate::behavior::{DepthBehavior, WalkBehavior};
use crate::steps::DepthRange;
use crate::walk_tree::WalkTree;
use std::alloc::Global;
use wax_directory::directory::Directory;
use wax_filter::filter::SeparatingFilter;
use wax_walk::FileIterator;

/// Paths from which a directory can be walked.
pub trait PathExt {
    ghost use Rattle.wax_tree.specs.declared.behavior.WalkBehavior.{WalkBehavior};

    /// The characters of the path.
    ghost text: { Self → List ℕ };

    /// Walks through `directory` from this path, at every depth. The walk takes at most
    /// 4,294,967,295 items from folders. If memory runs out for the path, its only item is an
    /// error.
    fn walk<D: Directory>(self, alloc: Global, directory: D) -> WalkTree<D>
    where
        Self: Sized,
        ensures begins { Begins D.law directory (text self) (behavior_range (behavior_at Unbounded))
            (⟦<WalkTree<D> as FileIterator>⟧.view result) }
        ensures gives { EndsWithin (2 * (behavior_at Unbounded).budget + 3)
            (⟦<WalkTree<D> as SeparatingFilter>⟧.left result) };

    /// Walks through `directory` from this path, at the depths of `behavior`, and takes at most as
    /// many items from folders as its budget. If memory runs out for the path, the walk's only item
    /// is an error.
    fn walk_with_behavior<D, B>(self, alloc: Global, directory: D, behavior: B) -> WalkTree<D>
    where
        Self: Sized,
        D: Directory,
        B: Into<WalkBehavior>,
        ensures { (b : WalkBehavior) × B.converts behavior b
            × Begins D.law directory (text self) (behavior_range b)
            (⟦<WalkTree<D> as FileIterator>⟧.view result)
            × EndsWithin (2 * b.budget + 3) (⟦<WalkTree<D> as SeparatingFilter>⟧.left result) };
}

fn greatest_or_all(depth: &DepthBehavior) -> usize
    ensures { result ≡ or_greatest (greatest depth.now) }
{
    match depth.greatest() {
        Some(greatest) => greatest,
        None => usize::MAX,
    }
}

impl WalkBehavior {
    /// Returns the depths and the budget as numbers. If there is no greatest depth, it is
    /// `usize::MAX`.
    pub fn range(&self) -> DepthRange
        ensures { result ≡ behavior_range self.now }
    {
        DepthRange {
            min: self.depth.least(),
            max: greatest_or_all(&self.depth),
            budget: self.budget,
        }
    }
}

// The body of all walks from a path, for a behavior that is already converted.
pub(crate) fn walk_from<D: Directory>(
    alloc: Global,
    directory: D,
    start: &str,
    behavior: WalkBehavior,
) -> WalkTree<D>
    ensures begins { Begins D.law directory start.now (behavior_range behavior)
        (⟦<WalkTree<D> as FileIterator>⟧.view result) }
    ensures gives { EndsWithin (2 * behavior.budget + 3) (⟦<WalkTree<D> as SeparatingFilter>⟧.left result) }
{
    WalkTree::with_range(alloc, directory, start, behavior.range())
}

impl<'a> PathExt for &'a str {
    ghost text = { λ s. s.now };

    fn walk<D: Directory>(self, alloc: Global, directory: D) -> WalkTree<D> {
        walk_from(alloc, directory, self, WalkBehavior::default())
    }

    fn walk_with_behavior<D, B>(self, alloc: Global, directory: D, behavior: B) -> WalkTree<D>
    where
        D: Directory,
        B: Into<WalkBehavior>,
    {
        walk_from(alloc, directory, self, behavior.into())
    }
}
