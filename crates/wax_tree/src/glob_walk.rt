//! The walk of a glob.

ghost use Rattle.std.specs.{Prelude.{◌≡◌, IfOk, OnErr, chars, false, true}, Iterator.IsFinite};
ghost use Rattle.wax_query.specs.Matched.{IsMatchOf};
ghost use Rattle.wax_filter.specs.Feeding.{NextFiltrate};
ghost use Rattle.wax_tree.specs.{Matches.{IsMatchedEntry, glob_facts, shown_entry}, Programs.leading_mark};
ghost use Rattle.wax_walk.specs.{Candidates.of_candidate, Entries.{given_of, facts_of}};
ghost use Rattle.wax_walk.specs.{Known.{KnownItem, StaysKnown}, Ruled.ruled_view, View.IsSeenAs};
ghost use Rattle.wax_walk.specs.Given as G;

use crate::glob_walk::leading::names_may_match;
use crate::walk_tree::WalkTree;
use std::alloc::Global;
use wax_directory::directory::Directory;
use wax_filter::filter::{
    CancelWalk, Feed, Isomeric, Product, SeparatingFilter, Separation, TreeResidue, filtrate,
};
use wax_query::diagnostics::NoMemory;
use wax_query::matching::{CandidatePath, MatchedText, Program};
use wax_walk::{Entry, FileIterator, TreeEntry, WalkError};

mod entry;
mod filter_any;
mod leading;
mod matched;

pub use entry::GlobEntry;
pub use filter_any::FilterAny;
pub use leading::NameTest;
pub use matched::{Matched, Uncaptured, uncaptured_of};

/// The items of a glob's walk and of the filters of it.
pub struct GlobFeed;

impl Feed for GlobFeed {
    type Filtrate = Result<GlobEntry, WalkError>;

    type Residue = TreeResidue<TreeEntry>;
}

impl Isomeric for GlobFeed {
    type Substituent = TreeEntry;

    ghost shown = { λ x. shown_entry x };

    fn entry(separation: &Separation<GlobFeed>) -> Option<&TreeEntry> {
        match separation {
            Separation::Filtrate(filtrate) => match filtrate.get() {
                Ok(entry) => Some(&entry.entry),
                Err(_) => None,
            },
            Separation::Residue(residue) => Some(residue.get().get()),
        }
    }
}

// Matches an entry's candidate, and copies the match, which would borrow from the entry.
fn captured<P: Program>(
    alloc: Global,
    program: &P,
    entry: &TreeEntry,
) -> Result<Option<MatchedText<'static>>, NoMemory>
    ensures { IfOk result (IsMatchOf (P.means program.now) (P.captured program.now)
        (chars (facts_of entry.now).candidate)) }
{
    let (_, candidate) = entry.root_relative_paths();
    let path = CandidatePath::from(candidate);
    match program.matched(alloc, &path)? {
        Some(matched) => Ok(Some(matched.into_owned(alloc)?)),
        None => Ok(None),
    }
}

// Decides what becomes of an entry that no filter excluded before. The boolean is true if
// everything below it is to be cancelled.
fn separate_entry<P, C>(
    alloc: Global,
    program: &P,
    leading: &[C],
    entry: TreeEntry,
) -> Result<(Separation<GlobFeed>, bool), NoMemory>
where
    P: Program,
    C: NameTest,
    ensures gives { IfOk result (λ r. given_of glob_facts facts_of r.0
        ≡ G.changed_by (of_candidate (leading_mark C.decides leading.now P.decides program.now))
        (G.entry G.kept (facts_of entry))) }
    ensures cuts { IfOk result (λ r. r.1
        ≡ G.cut_by (of_candidate (leading_mark C.decides leading.now P.decides program.now))
        (G.entry G.kept (facts_of entry))) }
    ensures matches { IfOk result
        (λ r. KnownItem (IsMatchedEntry (P.means program.now) (P.captured program.now)) r.0) }
{
    if !names_may_match(alloc, leading, entry.candidate())? {
        let excluded = TreeResidue::Tree(entry);
        return Ok((Separation::Residue(Product::new(excluded)), true));
    }
    match captured(alloc, program, &entry)? {
        Some(matched) => {
            let entry = GlobEntry::new(entry, matched);
            Ok((Separation::Filtrate(Product::new(Ok(entry))), false))
        }
        None => {
            let unmatched = TreeResidue::Node(entry);
            Ok((Separation::Residue(Product::new(unmatched)), false))
        }
    }
}

// Decides what becomes of an item. An item that was excluded before isn't matched, but its names
// are still looked at.
fn separated<P, C, F>(
    alloc: Global,
    program: &P,
    leading: &[C],
    separation: Separation<F>,
) -> Result<(Separation<GlobFeed>, bool), NoMemory>
where
    P: Program,
    C: NameTest,
    F: Feed<Filtrate = Result<TreeEntry, WalkError>, Residue = TreeResidue<TreeEntry>>,
    ensures gives { IfOk result (λ r. given_of glob_facts facts_of r.0
        ≡ G.changed_by (of_candidate (leading_mark C.decides leading.now P.decides program.now))
        (given_of facts_of facts_of separation)) }
    ensures cuts { IfOk result (λ r. r.1
        ≡ G.cut_by (of_candidate (leading_mark C.decides leading.now P.decides program.now))
        (given_of facts_of facts_of separation)) }
    ensures asks { OnErr result (G.is_entry (given_of facts_of facts_of separation) ≡ true) }
    ensures matches { IfOk result
        (λ r. KnownItem (IsMatchedEntry (P.means program.now) (P.captured program.now)) r.0) }
{
    match separation {
        Separation::Filtrate(filtrate) => match filtrate.into_inner() {
            Ok(entry) => separate_entry(alloc, program, leading, entry),
            Err(error) => Ok((Separation::Filtrate(Product::new(Err(error))), false)),
        },
        Separation::Residue(residue) => match residue.into_inner() {
            TreeResidue::Node(entry) => {
                if names_may_match(alloc, leading, entry.candidate())? {
                    let excluded = TreeResidue::Node(entry);
                    Ok((Separation::Residue(Product::new(excluded)), false))
                } else {
                    let excluded = TreeResidue::Tree(entry);
                    Ok((Separation::Residue(Product::new(excluded)), true))
                }
            }
            TreeResidue::Tree(entry) => {
                let excluded = TreeResidue::Tree(entry);
                Ok((Separation::Residue(Product::new(excluded)), false))
            }
        },
    }
}

/// A walk of the entries of another that a program matches, each with its captures. If a name of an
/// entry isn't matched by the leading component at the same place, the entry is excluded with
/// everything below it, which is cancelled. Any other entry that doesn't match is excluded by
/// itself. Each entry is matched at most once.
#[derive(Drop)]
pub struct Matching<'g, I, P, C> {
    pub(crate) alloc: Global,
    pub(crate) input: I,
    pub(crate) program: &'g P,
    pub(crate) leading: Vec<C>,
    pub(crate) has_ended: bool,
}

/// The walk of a glob.
pub type GlobWalk<'g, D, P, C> = Matching<'g, WalkTree<D>, P, C>;

/// Builds the walk of a glob from a plain walk, the leading components of the glob and its program.
/// Each entry that it keeps has the captures of a match of its candidate.
pub fn walk_of<'g, D, P, C>(
    alloc: Global,
    walk: WalkTree<D>,
    leading: Vec<C>,
    program: &'g P,
) -> GlobWalk<'g, D, P, C>
where
    D: Directory,
    P: Program,
    C: NameTest,
    ensures view { IsSeenAs (ruled_view (⟦<WalkTree<D> as FileIterator>⟧.view walk)
        (leading_mark C.decides leading.items P.decides program.now) false)
        (⟦<GlobWalk<'g, D, P, C> as FileIterator>⟧.view result) }
    ensures ends { ⟦<GlobWalk<'g, D, P, C> as SeparatingFilter>⟧.left result
        ≡ ⟦<WalkTree<D> as SeparatingFilter>⟧.left walk }
    ensures feeds { ⟦<GlobWalk<'g, D, P, C> as SeparatingFilter>⟧.can_feed result }
    ensures known { StaysKnown (IsMatchedEntry (P.means program.now) (P.captured program.now))
        (⟦<GlobWalk<'g, D, P, C> as FileIterator>⟧.known result) }
{
    Matching {
        alloc,
        input: walk,
        program,
        leading,
        has_ended: false,
    }
}

impl<I, P, C> SeparatingFilter for Matching<'_, I, P, C>
where
    I: FileIterator<Entry = TreeEntry, Residue = TreeEntry>,
    P: Program,
    C: NameTest,
{
    ghost use Rattle.wax_tree.specs.Matches.{IsMatchedEntry, glob_facts};
    ghost use Rattle.wax_walk.specs.{Entries.{answer_of, facts_of}, Known.KeepsKnown, View.FeedStep};

    type Feed = GlobFeed;

    ghost can_feed = { λ s. I.can_feed s.input };

    ghost feeds = { λ s r t. FeedStep I.Directory.law
        (ruled_view (I.view s.input)
        (leading_mark C.decides s.leading.items P.decides s.program.now) s.has_ended)
        (answer_of glob_facts facts_of r)
        (ruled_view (I.view t.input)
        (leading_mark C.decides t.leading.items P.decides t.program.now) t.has_ended)
        × KeepsKnown (IsMatchedEntry (P.means s.program.now) (P.captured s.program.now)) r
        (IsMatchedEntry (P.means t.program.now) (P.captured t.program.now)) };

    ghost left = { λ s. I.left s.input };

    fn feed(&mut self) -> Option<Separation<GlobFeed>> {
        if self.has_ended {
            return None;
        }
        let separation = self.input.feed()?;
        let Ok((separation, cuts)) = separated(self.alloc, self.program, &self.leading, separation)
        else {
            self.has_ended = true;
            return Some(Separation::Filtrate(Product::new(Err(WalkError::Memory))));
        };
        if cuts {
            self.input.cancel_walk_tree();
        }
        Some(separation)
    }
}

impl<I, P, C> CancelWalk for Matching<'_, I, P, C>
where
    I: FileIterator<Entry = TreeEntry, Residue = TreeEntry>,
    P: Program,
    C: NameTest,
{
    ghost use Rattle.std.proofs.Common.{◌∙◌};

    ghost cancels = { λ s t. I.cancels s.input t.input × (t.program ≡ s.program)
        × (t.leading ≡ s.leading) × (t.has_ended ≡ s.has_ended) };

    fn cancel_walk_tree(&mut self) {
        self.input.cancel_walk_tree()
    }

    ghost once = { λ s t u a b. (
      I.once s.input t.input u.input a.0 b.0,
      b.1 ∙ a.1,
      b.2 ∙ a.2,
      b.3 ∙ a.3,
    ) };

    ghost can_go_on = { λ s t h c. I.can_go_on s.input t.input h.0 c };

    ghost no_longer = { λ s t h e. I.no_longer s.input t.input h.0 e };
}

impl<I, P, C> FileIterator for Matching<'_, I, P, C>
where
    I: FileIterator<Entry = TreeEntry, Residue = TreeEntry>,
    P: Program,
    C: NameTest,
{
    ghost use Rattle.std.proofs.Common.{ap, subst};
    ghost use Rattle.wax_tree.specs.{Laws.leading_cancelling, Matches.IsMatchedEntry};
    ghost use Rattle.wax_walk.specs.{Entries.facts_of, Laws.ruled_telling};

    type Entry = GlobEntry;

    type Residue = TreeEntry;

    type Directory = I::Directory;

    ghost view = { λ s. ruled_view (I.view s.input)
        (leading_mark C.decides s.leading.items P.decides s.program.now) s.has_ended };

    ghost known = { λ s. IsMatchedEntry (P.means s.program.now) (P.captured s.program.now) };

    fn directory(&self) -> &I::Directory {
        self.input.directory()
    }

    fn into_directory(self) -> I::Directory {
        self.input.into_directory()
    }

    ghost telling = { λ s q i. ruled_telling (I.view s.input)
        (leading_mark C.decides s.leading.items P.decides s.program.now)
        (I.Directory.law.tells (I.view s.input).directory) (I.telling s.input) q i.1 };

    ghost same_facts = { λ e r h. ap facts_of h };

    ghost feeding = { λ s t r f. f.0 };

    ghost cancelling = { λ s t h. leading_cancelling (I.view s.input) (I.view t.input) C.decides P.decides
        s.leading.items t.leading.items s.program.now t.program.now s.has_ended t.has_ended
        (I.cancelling s.input t.input h.0) (λ i. (h.2 i).items) (λ i. (h.1 i).now) h.3 };

    ghost keeping = { λ s t r f. f.1 };

    ghost staying = { λ s t h e k. subst (λ p. IsMatchedEntry (P.means p.now) (P.captured p.now) e) h.1 k };
}

impl<I, P, C> Iterator for Matching<'_, I, P, C>
where
    I: FileIterator<Entry = TreeEntry, Residue = TreeEntry>,
    P: Program,
    C: NameTest,
{
    type Item = Result<GlobEntry, WalkError>;

    ghost can_next = { λ s. I.can_feed s.input × IsFinite (I.left s.input) };

    ghost next_gives = { λ s r t. NextFiltrate ⟦<Self as SeparatingFilter>⟧.feeds s r t };

    ghost remaining = { λ s. I.left s.input };

    fn next(&mut self) -> Option<Result<GlobEntry, WalkError>> {
        filtrate(self)
    }
}
