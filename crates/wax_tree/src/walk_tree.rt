//! The plain walk.

ghost use Rattle.std.specs.{Prelude.{◌≡◌, ◌+◌, ◌*◌, IfOk, ⊤}, Iterator.at_most};
ghost use Rattle.wax_filter.specs.Feeding.{NextFiltrate};
ghost use Rattle.wax_tree.specs.Begins.{EndsWithin, Begins, BeginsAt, HasEnded, LacksMemory};
ghost use Rattle.wax_tree.specs.{Lacking.{tree_view, gives_at_most}, Prefix.from_last};
ghost use Rattle.wax_walk.specs.{Entries.{entry_in, facts_of, answer_of}, View.FeedStep};

use crate::location::Location;
use crate::steps::{DepthRange, StartPoint, Steps};
use std::alloc::{AllocError, Global};
use wax_directory::directory::Directory;
use wax_filter::filter::{
    CancelWalk, Feed, Isomeric, Product, SeparatingFilter, Separation, TreeResidue, filtrate,
};
use wax_walk::{FileIterator, TreeEntry, WalkError, WalkedPath};

/// The items of a plain walk and of the filters of it.
pub struct TreeFeed;

impl Feed for TreeFeed {
    type Filtrate = Result<TreeEntry, WalkError>;

    type Residue = TreeResidue<TreeEntry>;
}

impl Isomeric for TreeFeed {
    type Substituent = TreeEntry;

    ghost shown = { λ x. entry_in x };

    fn entry(separation: &Separation<TreeFeed>) -> Option<&TreeEntry> {
        match separation {
            Separation::Filtrate(filtrate) => match filtrate.get() {
                Ok(entry) => Some(entry),
                Err(_) => None,
            },
            Separation::Residue(residue) => Some(residue.get().get()),
        }
    }
}

/// The plain walk: yields each entry from a start on, a folder before what is in it, in the
/// directory's order.
#[derive(Drop)]
pub struct WalkTree<D: Directory> {
    steps: Steps<D>,
    lacks_memory: bool,
}

// Copies the texts of a path.
fn copied(alloc: Global, root: &str, path: &str, candidate: &str) -> Result<WalkedPath, AllocError>
    ensures { IfOk result (λ p. p ≡ record {
      path = path.now;
      root = root.now;
      candidate = candidate.now;
    }) }
{
    let path = String::from_str(alloc, path)?;
    let root = String::from_str(alloc, root)?;
    let candidate = String::from_str(alloc, candidate)?;
    Ok(WalkedPath::new(path, root, candidate))
}

impl<D: Directory> WalkTree<D> {
    // Begins at a start, for a range of depths that is already a pair of numbers.
    pub(crate) fn with_range(
        alloc: Global,
        directory: D,
        start: &str,
        range: DepthRange,
    ) -> WalkTree<D>
        ensures begins { Begins D.law directory start.now range
            (⟦<WalkTree<D> as FileIterator>⟧.view result) }
        ensures gives { EndsWithin (2 * range.budget + 3) (⟦<WalkTree<D> as SeparatingFilter>⟧.left result) }
    {
        let none = Vec::new(alloc);
        WalkTree::to_place(alloc, directory, start, start, "", none, range)
    }

    /// Walks to a place below a start, and then on from there. `start` is the path of the start,
    /// and `candidate` its candidate; `names` lead from there to the place, the first of them last.
    /// `root` is what the entries return as the path of the start.
    ///
    /// The walk looks up what is at the start and at each name in turn. If nothing is there, or it
    /// isn't a folder and a name follows, or it can't be read, the only item is an error. If there
    /// are more names than the greatest depth, the walk yields nothing and doesn't call the
    /// directory. If memory runs out for the paths, the only item is an error.
    pub fn to_place(
        alloc: Global,
        directory: D,
        root: &str,
        start: &str,
        candidate: &str,
        names: Vec<String>,
        range: DepthRange,
    ) -> WalkTree<D>
        ensures begins { BeginsAt D.law directory (record {
          root = root.now;
          path = start.now;
          candidate = candidate.now;
          names = from_last names.items;
        }) range (⟦<WalkTree<D> as FileIterator>⟧.view result) }
        ensures gives { EndsWithin (2 * range.budget + 3) (⟦<WalkTree<D> as SeparatingFilter>⟧.left result) }
    {
        if range.max < names.len() {
            return WalkTree::ended(alloc, directory, range);
        }
        match copied(alloc, root, start, candidate) {
            Ok(path) => {
                let at = Location { path, depth: 0 };
                let first = Some(StartPoint { at, names });
                WalkTree {
                    steps: Steps::new(alloc, directory, first, range),
                    lacks_memory: false,
                }
            }
            Err(_) => WalkTree::refused(alloc, directory, range),
        }
    }

    /// Builds a walk that has ended: it yields nothing and doesn't call the directory.
    pub fn ended(alloc: Global, directory: D, range: DepthRange) -> WalkTree<D>
        ensures ended { HasEnded D.law directory range (⟦<WalkTree<D> as FileIterator>⟧.view result) }
        ensures gives { EndsWithin (2 * range.budget + 3) (⟦<WalkTree<D> as SeparatingFilter>⟧.left result) }
    {
        WalkTree {
            steps: Steps::new(alloc, directory, None, range),
            lacks_memory: false,
        }
    }

    /// Builds a walk whose only item is an error for memory. It doesn't call the directory.
    pub fn refused(alloc: Global, directory: D, range: DepthRange) -> WalkTree<D>
        ensures lacks { LacksMemory D.law directory range (⟦<WalkTree<D> as FileIterator>⟧.view result) }
        ensures gives { EndsWithin (2 * range.budget + 3) (⟦<WalkTree<D> as SeparatingFilter>⟧.left result) }
    {
        WalkTree {
            steps: Steps::new(alloc, directory, None, range),
            lacks_memory: true,
        }
    }
}

impl<D: Directory> SeparatingFilter for WalkTree<D> {
    type Feed = TreeFeed;

    ghost feeds = { λ s r t. FeedStep D.law (tree_view D.law s) (answer_of facts_of facts_of r)
        (tree_view D.law t) };

    ghost left = { λ s. at_most (gives_at_most s) };

    fn feed(&mut self) -> Option<Separation<TreeFeed>> {
        if self.lacks_memory {
            self.lacks_memory = false;
            self.steps.has_ended = true;
            return Some(Separation::Filtrate(Product::new(Err(WalkError::Memory))));
        }
        let item = self.steps.run()?;
        Some(Separation::Filtrate(Product::new(item)))
    }
}

impl<D: Directory> CancelWalk for WalkTree<D> {
    ghost use Rattle.wax_tree.specs.WalkLaws.{uncancelled, cancel_once, cancel_no_longer};

    ghost cancels = { λ s t. t ≡ uncancelled s };

    fn cancel_walk_tree(&mut self) {
        self.steps.entered = None;
    }

    ghost once = { λ s t u h k. cancel_once s t u h k };

    ghost can_go_on = { λ s t h c. c };

    ghost no_longer = { λ s t h e. (tt, cancel_no_longer s t h) };
}

impl<D: Directory> FileIterator for WalkTree<D> {
    ghost use Rattle.wax_tree.specs.WalkLaws.{cancel_law, comes_told};
    ghost use Rattle.wax_walk.specs.Laws.{nothing_known};
    ghost use Rattle.std.proofs.Common.{ap};

    type Entry = TreeEntry;

    type Residue = TreeEntry;

    type Directory = D;

    ghost view = { tree_view D.law };

    ghost known = { λ s e. ⊤ };

    fn directory(&self) -> &D {
        &self.steps.directory
    }

    fn into_directory(self) -> D {
        self.steps.into_directory()
    }

    ghost telling = { λ s p h. comes_told D.law s p h };

    ghost same_facts = { λ e r h. ap facts_of h };

    ghost feeding = { λ s t r f. f };

    ghost cancelling = { λ s t h. cancel_law D.law s t h };

    ghost keeping = { λ s t r f. nothing_known r };

    ghost staying = { λ s t h e k. tt };
}

impl<D: Directory> Iterator for WalkTree<D> {
    type Item = Result<TreeEntry, WalkError>;

    ghost next_gives = { λ s r t. NextFiltrate ⟦<Self as SeparatingFilter>⟧.feeds s r t };

    ghost remaining = { λ s. at_most (gives_at_most s) };

    fn next(&mut self) -> Option<Result<TreeEntry, WalkError>> {
        filtrate(self)
    }
}
