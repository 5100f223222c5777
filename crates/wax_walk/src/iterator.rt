//! Walks that can be filtered.

ghost use Rattle.std.specs.Prelude.{◌≡◌, List, ℕ, Option, Result, false};
ghost use Rattle.wax_walk.specs.{Forest.Pending, Given.Given, Known.{KeepsKnown, StaysKnown}};
ghost use Rattle.wax_walk.specs.{Pruned.selected_view, Ruled.ruled_view, Says.closure_view};
ghost use Rattle.wax_walk.specs.View.{WalkView, FeedStep, CancelStep, IsSeenAs};

use crate::entry::{Entry, TreeEntry};
use crate::error::WalkError;
use crate::excluding::{Exclude, Excluding};
use crate::filter_entry::FilterEntry;
use crate::selecting::{Select, Selecting};
use std::alloc::Global;
use wax_directory::directory::Directory;
use wax_filter::filter::{CancelWalk, Feed, SeparatingFilter, TreeResidue};

/// What a filter excludes: only an entry (`File`), or an entry with everything below it (`Tree`).
#[derive(Clone, Copy, Debug, Eq, Hash, PartialEq)]
pub enum EntryResidue {
    File,
    Tree,
}

impl From<EntryResidue> for TreeResidue<()> {
    ghost use Rattle.std.specs.Prelude.{◌≡◌};
    ghost use Rattle.wax_walk.specs.Said.{tree_residue};

    ghost from_gives = { λ excluded residue. residue ≡ tree_residue excluded };

    fn from(excluded: EntryResidue) -> Self {
        match excluded {
            EntryResidue::File => TreeResidue::Node(()),
            EntryResidue::Tree => TreeResidue::Tree(()),
        }
    }
}

/// A walk through a directory, or a filter of one.
///
/// Contracts see a walk as a `WalkView`: the items that it will still yield, each with what is
/// below it, and where folders will be listed. The laws of this trait say how `feed` and cancelling
/// change that view, what the directory counts, and when a walk has ended.
pub trait FileIterator: CancelWalk<
    Feed: Feed<Filtrate = Result<Self::Entry, WalkError>, Residue = TreeResidue<Self::Residue>>,
> {
    ghost use Rattle.wax_walk.specs.{Entries.answer_of, declared.error.WalkError.WalkError};
    ghost use Rattle.wax_filter.specs.declared.filter.separation.Separation.{Separation};
    ghost use Rattle.wax_filter.specs.declared.filter.tree_residue.TreeResidue.{TreeResidue};

    type Entry: Entry;

    type Residue: Entry + From<Self::Entry>;

    type Directory: Directory;

    /// The state of the walk, as contracts see it.
    ghost view: { Self → WalkView Self.Directory };

    /// What is known of each entry that the walk keeps.
    ghost known: { Self → Self.Entry → Type 0 };

    /// Returns the directory that is walked.
    fn directory(&self) -> &Self::Directory
        ensures { result.now ≡ (view self.now).directory };

    /// Ends the walk, and returns its directory.
    fn into_directory(self) -> Self::Directory
    where
        Self: Sized,
        ensures { result ≡ (view self).directory };

    /// The folders that are listed so far are those that the directory reports.
    ghost telling: { (s : Self) (p : Pending Given) → (view s).to_come p
        → Self.Directory.law.tells (view s).directory p.listed };

    /// Converting an entry into a residue keeps its facts.
    ghost same_facts: { (e : Self.Entry) (r : Self.Residue) → Self.Residue.from_gives e r
        → Self.Residue.facts r ≡ Self.Entry.facts e };

    /// What a call of `feed` returns, and how it changes the view.
    ghost feeding: { (s t : Self)
        (r : Option (Separation Self.Feed (Result Self.Entry WalkError) (TreeResidue Self.Residue)))
        → Self.feeds s r t
        → FeedStep Self.Directory.law (view s) (answer_of Self.Entry.facts Self.Residue.facts r) (view t) };

    /// How cancelling changes the view.
    ghost cancelling: { (s t : Self) → Self.cancels s t → CancelStep (view s) (view t) };

    /// What is known holds for each entry that `feed` keeps, and stays known after it.
    ghost keeping: { (s t : Self)
        (r : Option (Separation Self.Feed (Result Self.Entry WalkError) (TreeResidue Self.Residue)))
        → Self.feeds s r t → KeepsKnown (known s) r (known t) };

    /// What is known stays known when a folder is cancelled.
    ghost staying: { (s t : Self) → Self.cancels s t → StaysKnown (known s) (known t) };

    /// Excludes what a rule excludes. The rule sees each entry, even one that was excluded before,
    /// and no error. If the rule returns an error, the walk yields it and ends.
    final fn excluding<P: Exclude>(self, alloc: Global, rule: P) -> Excluding<Self, P>
    where
        Self: Sized,
        ensures view { IsSeenAs (ruled_view (view self) (P.rule rule) false)
            (⟦<Excluding<Self, P> as FileIterator>⟧.view result) }
        ensures ends { ⟦<Excluding<Self, P> as SeparatingFilter>⟧.left result ≡ Self.left self }
        ensures feeds { Self.can_feed self → ⟦<Excluding<Self, P> as SeparatingFilter>⟧.can_feed result }
        ensures known { StaysKnown (Self.known self) (⟦<Excluding<Self, P> as FileIterator>⟧.known result) }
    {
        Excluding::new(alloc, self, rule)
    }

    /// Keeps only the entries that a selection keeps, and opens only the folders that it opens. An
    /// error is kept. If the selection returns an error, the walk yields it and ends.
    final fn selecting<S: Select>(self, alloc: Global, selection: S) -> Selecting<Self, S>
    where
        Self: Sized,
        ensures view { IsSeenAs (selected_view (view self) (S.keeps selection) (S.goes_on selection) false)
            (⟦<Selecting<Self, S> as FileIterator>⟧.view result) }
        ensures ends { ⟦<Selecting<Self, S> as SeparatingFilter>⟧.left result ≡ Self.left self }
        ensures feeds { Self.can_feed self → ⟦<Selecting<Self, S> as SeparatingFilter>⟧.can_feed result }
        ensures known { StaysKnown (Self.known self) (⟦<Selecting<Self, S> as FileIterator>⟧.known result) }
    {
        Selecting::new(alloc, self, selection)
    }

    /// Excludes what a closure excludes. For each entry, `None` keeps the item as it is, `File`
    /// excludes only the entry, and `Tree` excludes it with everything below it, which is
    /// cancelled: the folder isn't even listed. The closure is called for each entry, even one that
    /// was excluded before, and never for an error.
    final fn filter_entry<F>(self, f: F) -> FilterEntry<Self, F>
    where
        Self: Sized,
        F: FnMut(&TreeEntry) -> Option<EntryResidue> + Drop,
        ensures view { IsSeenAs (closure_view F.step (view self) f)
            (⟦<FilterEntry<Self, F> as FileIterator>⟧.view result) }
        ensures ends { ⟦<FilterEntry<Self, F> as SeparatingFilter>⟧.left result ≡ Self.left self }
        ensures feeds { Self.can_feed self → F.IsAlwaysCallable f
            → ⟦<FilterEntry<Self, F> as SeparatingFilter>⟧.can_feed result }
        ensures known { StaysKnown (Self.known self) (⟦<FilterEntry<Self, F> as FileIterator>⟧.known result) }
    {
        FilterEntry::new(self, f)
    }
}
