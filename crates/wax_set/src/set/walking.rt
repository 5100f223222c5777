//! Walks of sets.
ghost use Rattle.std.specs.Prelude.{◌≡◌, ◌+◌, ◌*◌, IfOk};
ghost use Rattle.wax_set.specs.Walks.{BeginsSet};
ghost use Rattle.wax_token.specs.{Syntax.alternation, Words.trees};
ghost use Rattle.wax_tree.specs.{Begins.{EndsWithin, behavior_range}, Depths.behavior_at};
ghost use Rattle.wax_tree.specs.declared.behavior.DepthBehavior.TheVariants.{Unbounded};

use crate::set::{Any, branches_of};
use std::alloc::Global;
use wax_directory::directory::Directory;
use wax_exclude::{common_prefix_of, walk_along, within};
use wax_filter::filter::SeparatingFilter;
use wax_query::diagnostics::NoMemory;
use wax_query::matching::Program;
use wax_token::token::{ExpressionMetadata, Token};
use wax_tree::{DepthRange, Uncaptured, WalkBehavior, uncaptured_of};
use wax_walk::FileIterator;

/// The walk of a set through a directory. It opens only the folders below which a pattern can match
/// something.
pub type SetWalk<'a, 't, D> = Uncaptured<'a, D, Any<'t>>;

impl<'t> Any<'t> {
    ghost use Rattle.wax_tree.specs.declared.behavior.WalkBehavior.{WalkBehavior};

    /// Walks through `directory` from `start` and yields each entry that one of the patterns
    /// matches, once, at every depth. The walk takes at most 4,294,967,295 items from folders.
    ///
    /// One walk serves all patterns: it opens only the folders below which at least one of them can
    /// match something. It begins at the names with which the prefixes of all patterns begin, and
    /// goes no deeper than their longest matches. If all prefixes begin with `/`, it begins at the
    /// root, and `start` isn't used. If only some do, those patterns match nothing.
    ///
    /// The entries are those of a plain walk: a set captures only the whole candidate, which an entry
    /// has. A folder that matches is yielded even if it isn't opened.
    ///
    /// Each filter of walks can be added, such as `not` and `ignore`.
    ///
    /// ```
    /// use wax::any;
    /// use wax::walk::{Tree, collect};
    ///
    /// let tree = Tree::from_paths(alloc, &["Cargo.toml", "src/lib.rs", "target/debug/lib.o"])?;
    /// let inputs = any(alloc, vec![in alloc; "src/**/*.rs", "Cargo.toml"]?)?;
    /// let (items, tree) = collect(alloc, inputs.walk(alloc, tree, "")?)?;
    /// println!(rt; "{} {}", items.len(), tree.listed().len())?; // 2 2
    /// ```
    ///
    /// # Errors
    ///
    /// Returns `NoMemory` if allocation fails before the walk begins. If it fails in the walk, its
    /// last item is an error.
    pub fn walk<'a, D: Directory>(
        &'a self,
        alloc: Global,
        directory: D,
        start: &str,
    ) -> Result<SetWalk<'a, 't, D>, NoMemory>
        ensures begins { IfOk result (λ walk. BeginsSet self.now D.law directory start.now
            (behavior_range (behavior_at Unbounded)) (⟦<SetWalk<'a, 't, D> as FileIterator>⟧.view walk)) }
        ensures gives { IfOk result (λ walk. EndsWithin (2 * (behavior_at Unbounded).budget + 3)
            (⟦<SetWalk<'a, 't, D> as SeparatingFilter>⟧.left walk)) }
        ensures feeds { IfOk result (λ walk.
            ⟦<SetWalk<'a, 't, D> as SeparatingFilter>⟧.can_feed walk) }
    {
        walk_in(alloc, self, directory, start, WalkBehavior::default())
    }

    /// Walks as `walk` does, at the depths of `behavior`, and takes at most as many items from
    /// folders as its budget. The filters of the walk see the entries below the least depth, too.
    ///
    /// # Errors
    ///
    /// Returns `NoMemory` if allocation fails before the walk begins. If it fails in the walk, its
    /// last item is an error.
    pub fn walk_with_behavior<'a, D, B>(
        &'a self,
        alloc: Global,
        directory: D,
        start: &str,
        behavior: B,
    ) -> Result<SetWalk<'a, 't, D>, NoMemory>
    where
        D: Directory,
        B: Into<WalkBehavior>,
        ensures begins { (b : WalkBehavior) × B.converts behavior b
            × IfOk result (λ walk. BeginsSet self.now D.law directory start.now (behavior_range b)
            (⟦<SetWalk<'a, 't, D> as FileIterator>⟧.view walk)
            × EndsWithin (2 * b.budget + 3) (⟦<SetWalk<'a, 't, D> as SeparatingFilter>⟧.left walk)) }
        ensures feeds { IfOk result (λ walk.
            ⟦<SetWalk<'a, 't, D> as SeparatingFilter>⟧.can_feed walk) }
    {
        walk_in(alloc, self, directory, start, behavior.into())
    }

    /// Returns the trees of the patterns.
    fn branches(&self) -> &[Token<'t, ExpressionMetadata>]
        ensures { self.now ≡ alternation (0, 0) (trees result.now) }
    {
        branches_of(self.token.as_ref())
    }
}

// The body of both walks, for a behavior that is already converted.
fn walk_in<'a, 't, D: Directory>(
    alloc: Global,
    any: &'a Any<'t>,
    directory: D,
    start: &str,
    behavior: WalkBehavior,
) -> Result<SetWalk<'a, 't, D>, NoMemory>
    ensures begins { IfOk result (λ walk. BeginsSet any.now D.law directory start.now
        (behavior_range behavior) (⟦<SetWalk<'a, 't, D> as FileIterator>⟧.view walk)) }
    ensures gives { IfOk result (λ walk. EndsWithin (2 * behavior.budget + 3)
        (⟦<SetWalk<'a, 't, D> as SeparatingFilter>⟧.left walk)) }
    ensures feeds { IfOk result (λ walk.
        ⟦<SetWalk<'a, 't, D> as SeparatingFilter>⟧.can_feed walk) }
{
    let asked = within(behavior.range(), any.depth());
    let range = DepthRange { min: 0, ..asked };
    let prefix_names = common_prefix_of(alloc, any.branches())?;
    let walk = walk_along(alloc, directory, start, prefix_names, range);
    uncaptured_of(alloc, walk, any, asked.min, asked.max)
}
