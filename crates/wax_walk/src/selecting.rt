//! Filters of walks that open only some folders.

ghost use Rattle.std.specs.{Prelude.{◌≡◌, ◌&&◌, Bool, IfOk, OnErr, false, not, true}, Iterator.IsFinite};
ghost use Rattle.wax_filter.specs.Feeding.{NextFiltrate};
ghost use Rattle.wax_walk.specs.{Candidates.{Candidate, in_characters, of_candidate}, Entries.given_of};
ghost use Rattle.wax_walk.specs.{Given.{is_entry, mark_by}, Known.KeepsKnown};
ghost use Rattle.wax_walk.specs.{Pruned.{is_closed, keep_mark, opens_by}, Said.mark_of, View.is_folder_kind};

use crate::candidate::Candidate;
use crate::entry::Entry;
use crate::error::WalkError;
use crate::excluding::separated;
use crate::iterator::{EntryResidue, FileIterator};
use std::alloc::Global;
use wax_directory::directory::FileType;
use wax_filter::filter::{
    CancelWalk, Feed, Product, SeparatingFilter, Separation, TreeResidue, filtrate,
};
use wax_query::diagnostics::NoMemory;

/// What a selection decides about an entry.
#[derive(Clone, Copy, Debug, Eq, PartialEq)]
pub struct Selection {
    /// True if the entry is kept. Otherwise it is excluded by itself.
    pub is_kept: bool,
    /// True if what is below the entry is walked. It is of no importance unless the entry is a
    /// folder.
    pub goes_on: bool,
}

/// A selection of the entries that a walk keeps, and of the folders that it opens, by their
/// candidates and depths. A folder can be kept and not opened.
pub trait Select: Drop {
    /// The entries that are kept, by their candidates.
    ghost keeps: { Self → Candidate → Bool };

    /// The folders that are opened, by their candidates.
    ghost goes_on: { Self → Candidate → Bool };

    /// Returns whether the entry with this candidate is kept and, if it is a folder, whether it is
    /// opened. A call changes no decision, even if it fails.
    fn select(
        &mut self,
        alloc: Global,
        candidate: Candidate<'_>,
        is_folder: bool,
    ) -> Result<Selection, NoMemory>
        ensures keeps { IfOk result (λ s. s.is_kept ≡ keeps self.old (in_characters candidate.entry)) }
        ensures opens { IfOk result (λ s. is_folder ≡ true
            → s.goes_on ≡ goes_on self.old (in_characters candidate.entry)) }
        ensures same_kept { keeps self.new ≡ keeps self.old }
        ensures same_opened { goes_on self.new ≡ goes_on self.old };
}

// What becomes of an item: what is excluded of it, and whether it is a folder that isn't opened.
#[derive(Clone, Copy)]
struct Decision {
    residue: Option<EntryResidue>,
    is_closed: bool,
}

// Asks the selection about an entry.
fn select_entry<E: Entry, S: Select>(
    alloc: Global,
    selection: &mut S,
    entry: &E,
) -> Result<Decision, NoMemory>
    ensures keeps { IfOk result (λ r. mark_of r.residue
        ≡ of_candidate (keep_mark (S.keeps selection.old)) (E.facts entry.now)) }
    ensures closes { let facts = E.facts entry.now in IfOk result (λ r. r.is_closed
        ≡ (not (opens_by (S.goes_on selection.old) facts) && is_folder_kind facts.kind)) }
    ensures same_kept { S.keeps selection.new ≡ S.keeps selection.old }
    ensures same_opened { S.goes_on selection.new ≡ S.goes_on selection.old }
{
    let is_folder = matches!(entry.file_type(), FileType::Folder);
    let selection = selection.select(alloc, entry.candidate(), is_folder)?;
    Ok(Decision {
        residue: if selection.is_kept {
            None
        } else {
            Some(EntryResidue::File)
        },
        is_closed: is_folder && !selection.goes_on,
    })
}

// Asks the selection about the entry of an item, kept or excluded, and never about an error.
fn select_item<T, R, F, S>(
    alloc: Global,
    selection: &mut S,
    separation: &Separation<F>,
) -> Result<Decision, NoMemory>
where
    T: Entry,
    R: Entry,
    S: Select,
    F: Feed<Filtrate = Result<T, WalkError>, Residue = TreeResidue<R>>,
    ensures keeps { let given = given_of T.facts R.facts separation.now in IfOk result
        (λ r. mark_of r.residue ≡ mark_by (of_candidate (keep_mark (S.keeps selection.old))) given) }
    ensures closes { let given = given_of T.facts R.facts separation.now in IfOk result
        (λ r. r.is_closed ≡ is_closed (opens_by (S.goes_on selection.old)) given) }
    ensures asks { OnErr result (is_entry (given_of T.facts R.facts separation.now) ≡ true) }
    ensures same_kept { S.keeps selection.new ≡ S.keeps selection.old }
    ensures same_opened { S.goes_on selection.new ≡ S.goes_on selection.old }
{
    match separation {
        Separation::Filtrate(filtrate) => match filtrate.get() {
            Ok(entry) => select_entry(alloc, selection, entry),
            Err(_) => Ok(Decision {
                residue: None,
                is_closed: false,
            }),
        },
        Separation::Residue(residue) => match residue.get() {
            TreeResidue::Node(entry) => select_entry(alloc, selection, entry),
            TreeResidue::Tree(entry) => select_entry(alloc, selection, entry),
        },
    }
}

/// A walk of what a selection keeps, which opens only the folders that the selection opens.
/// `FileIterator::selecting` builds it.
#[derive(Clone, Debug, Drop)]
pub struct Selecting<I, S> {
    alloc: Global,
    input: I,
    selection: S,
    has_ended: bool,
}

impl<I, S> Selecting<I, S> {
    pub(crate) fn new(alloc: Global, input: I, selection: S) -> Self
        ensures { result ≡ record { alloc = alloc; input = input; selection = selection; has_ended = false } }
    {
        Selecting {
            alloc,
            input,
            selection,
            has_ended: false,
        }
    }
}

impl<I, S> SeparatingFilter for Selecting<I, S>
where
    I: FileIterator,
    S: Select,
{
    ghost use Rattle.wax_walk.specs.{Entries.answer_of, Pruned.selected_view, View.FeedStep};

    type Feed = I::Feed;

    ghost can_feed = { λ s. I.can_feed s.input };

    ghost feeds = { λ s r t. FeedStep I.Directory.law
        (selected_view (I.view s.input) (S.keeps s.selection) (S.goes_on s.selection) s.has_ended)
        (answer_of I.Entry.facts I.Residue.facts r)
        (selected_view (I.view t.input) (S.keeps t.selection) (S.goes_on t.selection) t.has_ended)
        × KeepsKnown (I.known s.input) r (I.known t.input) };

    ghost left = { λ s. I.left s.input };

    fn feed(&mut self) -> Option<Separation<I::Feed>> {
        if self.has_ended {
            return None;
        }
        let separation = self.input.feed()?;
        let Ok(selected) = select_item(self.alloc, &mut self.selection, &separation) else {
            self.has_ended = true;
            return Some(Separation::Filtrate(Product::new(Err(WalkError::Memory))));
        };
        if selected.is_closed {
            self.input.cancel_walk_tree();
        }
        Some(separated(separation, selected.residue))
    }
}

impl<I, S> CancelWalk for Selecting<I, S>
where
    I: FileIterator,
    S: Select,
{
    ghost use Rattle.std.proofs.Common.{◌∙◌};

    ghost cancels = { λ s t. I.cancels s.input t.input × (t.selection ≡ s.selection)
        × (t.has_ended ≡ s.has_ended) };

    fn cancel_walk_tree(&mut self) {
        self.input.cancel_walk_tree()
    }

    ghost once = { λ s t u a b. (I.once s.input t.input u.input a.0 b.0, b.1 ∙ a.1, b.2 ∙ a.2) };

    ghost can_go_on = { λ s t h c. I.can_go_on s.input t.input h.0 c };

    ghost no_longer = { λ s t h e. I.no_longer s.input t.input h.0 e };
}

impl<I, S> FileIterator for Selecting<I, S>
where
    I: FileIterator,
    S: Select,
{
    ghost use Rattle.wax_walk.specs.{Laws.{selected_telling, selected_cancelling}, Pruned.selected_view};

    type Entry = I::Entry;

    type Residue = I::Residue;

    type Directory = I::Directory;

    ghost view = { λ s. selected_view (I.view s.input) (S.keeps s.selection) (S.goes_on s.selection)
        s.has_ended };

    ghost known = { λ s. I.known s.input };

    fn directory(&self) -> &I::Directory {
        self.input.directory()
    }

    fn into_directory(self) -> I::Directory {
        self.input.into_directory()
    }

    ghost telling = { λ s q i. selected_telling (I.view s.input) (S.keeps s.selection) (S.goes_on s.selection)
        s.has_ended (I.Directory.law.tells (I.view s.input).directory) (I.telling s.input) q i };

    ghost same_facts = { λ e r h. I.same_facts e r h };

    ghost feeding = { λ s t r f. f.0 };

    ghost cancelling = { λ s t h. selected_cancelling (I.view s.input) (I.view t.input) S.keeps S.goes_on
        s.selection t.selection s.has_ended t.has_ended (I.cancelling s.input t.input h.0) h.1 h.2 };

    ghost keeping = { λ s t r f. f.1 };

    ghost staying = { λ s t h. I.staying s.input t.input h.0 };
}

impl<I: FileIterator, S: Select> Iterator for Selecting<I, S> {
    type Item = Result<I::Entry, WalkError>;

    ghost can_next = { λ s. I.can_feed s.input × IsFinite (I.left s.input) };

    ghost next_gives = { λ s r t. NextFiltrate ⟦<Self as SeparatingFilter>⟧.feeds s r t };

    ghost remaining = { λ s. I.left s.input };

    fn next(&mut self) -> Option<Result<I::Entry, WalkError>> {
        filtrate(self)
    }
}
