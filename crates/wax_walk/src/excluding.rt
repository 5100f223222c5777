//! Filters of walks by a rule.

ghost use Rattle.std.specs.{Prelude.{◌≡◌, ◌⊎◌, IfOk, OnErr, true, false}, Iterator.IsFinite};
ghost use Rattle.wax_filter.specs.{Feeding.NextFiltrate, Separating.AtFiltrate};
ghost use Rattle.wax_walk.specs.Entries.{given_of, given_outcome};
ghost use Rattle.wax_walk.specs.Candidates.{Candidate, in_characters, of_candidate};
ghost use Rattle.wax_walk.specs.Given.{Mark, mark_by, is_cut, is_entry, with_mark};
ghost use Rattle.wax_walk.specs.{Known.{KeepsKnown, KeepsOnly}, Said.{RuleStep, mark_of}};

use crate::candidate::Candidate;
use crate::entry::Entry;
use crate::error::WalkError;
use crate::iterator::{EntryResidue, FileIterator};
use std::alloc::Global;
use wax_filter::filter::{
    CancelWalk, Feed, Product, SeparatingFilter, Separation, TreeResidue, filtrate,
};
use wax_query::diagnostics::NoMemory;

/// A filter that decides each entry from its candidate and its depth, and nothing else.
pub trait Exclude: Drop {
    /// The decision for an entry with this candidate.
    ghost rule: { Self → Candidate → Mark };

    /// Returns what to exclude of the entry with this candidate; `None` keeps it. A call changes no
    /// decision, even if it fails.
    fn residue(
        &mut self,
        alloc: Global,
        candidate: Candidate<'_>,
    ) -> Result<Option<EntryResidue>, NoMemory>
        ensures { RuleStep rule self.old self.new (in_characters candidate.entry) result };
}

// Calls the rule for the entry of an item, kept or excluded, and never for an error.
fn residue_of<T, R, F, P>(
    alloc: Global,
    rule: &mut P,
    separation: &Separation<F>,
) -> Result<Option<EntryResidue>, NoMemory>
where
    T: Entry,
    R: Entry,
    P: Exclude,
    F: Feed<Filtrate = Result<T, WalkError>, Residue = TreeResidue<R>>,
    ensures says { let given = given_of T.facts R.facts separation.now in
        IfOk result (λ r. mark_of r ≡ mark_by (of_candidate (P.rule rule.old)) given) }
    ensures asks { OnErr result (is_entry (given_of T.facts R.facts separation.now) ≡ true) }
    ensures same { P.rule rule.new ≡ P.rule rule.old }
{
    match separation {
        Separation::Filtrate(filtrate) => match filtrate.get() {
            Ok(entry) => rule.residue(alloc, entry.candidate()),
            Err(_) => Ok(None),
        },
        Separation::Residue(residue) => match residue.get() {
            TreeResidue::Node(entry) => rule.residue(alloc, entry.candidate()),
            TreeResidue::Tree(entry) => rule.residue(alloc, entry.candidate()),
        },
    }
}

// Returns whether to cancel what is below an item. An item that was already excluded as a tree was
// cancelled by whoever excluded it.
pub(crate) fn cuts<T, R, F>(separation: &Separation<F>, residue: Option<EntryResidue>) -> bool
where
    T: Entry,
    R: Entry,
    F: Feed<Filtrate = Result<T, WalkError>, Residue = TreeResidue<R>>,
    ensures { result ≡ is_cut (given_of T.facts R.facts separation.now) (mark_of residue) }
{
    let Some(EntryResidue::Tree) = residue else {
        return false;
    };
    match separation {
        Separation::Filtrate(filtrate) => match filtrate.get() {
            Ok(_) => true,
            Err(_) => false,
        },
        Separation::Residue(residue) => match residue.get() {
            TreeResidue::Node(_) => true,
            TreeResidue::Tree(_) => false,
        },
    }
}

// Applies a decision to an item that was kept. An error stays kept, whatever the decision.
fn separated_outcome<T, R, F>(
    outcome: Result<T, WalkError>,
    residue: Option<EntryResidue>,
) -> Separation<F>
where
    T: Entry,
    R: Entry + From<T>,
    F: Feed<Filtrate = Result<T, WalkError>, Residue = TreeResidue<R>>,
    requires { (e : T) (r : R) → R.from_gives e r → R.facts r ≡ T.facts e }
    ensures given { given_of T.facts R.facts result ≡ with_mark (given_outcome T.facts R.facts outcome)
        (mark_of residue) }
    ensures kept { AtFiltrate (λ x. x ≡ outcome) result }
{
    match (outcome, residue) {
        (Ok(entry), Some(EntryResidue::File)) => {
            Separation::Residue(Product::new(TreeResidue::Node(R::from(entry))))
        }
        (Ok(entry), Some(EntryResidue::Tree)) => {
            Separation::Residue(Product::new(TreeResidue::Tree(R::from(entry))))
        }
        (outcome, _) => Separation::Filtrate(Product::new(outcome)),
    }
}

// Applies a decision to an item. An item that was excluded stays excluded; `Tree` can still exclude
// what is below it.
pub(crate) fn separated<T, R, F>(
    separation: Separation<F>,
    residue: Option<EntryResidue>,
) -> Separation<F>
where
    T: Entry,
    R: Entry + From<T>,
    F: Feed<Filtrate = Result<T, WalkError>, Residue = TreeResidue<R>>,
    requires { (e : T) (r : R) → R.from_gives e r → R.facts r ≡ T.facts e }
    ensures given { given_of T.facts R.facts result ≡ with_mark (given_of T.facts R.facts separation)
        (mark_of residue) }
    ensures kept { KeepsOnly separation result }
{
    match separation {
        Separation::Filtrate(filtrate) => separated_outcome(filtrate.into_inner(), residue),
        Separation::Residue(excluded) => match (excluded.into_inner(), residue) {
            (TreeResidue::Node(entry), Some(EntryResidue::Tree)) => {
                Separation::Residue(Product::new(TreeResidue::Tree(entry)))
            }
            (excluded, _) => Separation::Residue(Product::new(excluded)),
        },
    }
}

/// A walk without what a rule excludes. `FileIterator::excluding` builds it.
#[derive(Clone, Debug, Drop)]
pub struct Excluding<I, P> {
    alloc: Global,
    input: I,
    rule: P,
    has_ended: bool,
}

impl<I, P> Excluding<I, P> {
    pub(crate) fn new(alloc: Global, input: I, rule: P) -> Self
        ensures { result ≡ record { alloc = alloc; input = input; rule = rule; has_ended = false } }
    {
        Excluding {
            alloc,
            input,
            rule,
            has_ended: false,
        }
    }
}

impl<I, P> SeparatingFilter for Excluding<I, P>
where
    I: FileIterator,
    P: Exclude,
{
    ghost use Rattle.wax_walk.specs.{Entries.answer_of, Ruled.ruled_view, View.FeedStep};

    type Feed = I::Feed;

    ghost can_feed = { λ s. I.can_feed s.input };

    ghost feeds = { λ s r t. FeedStep I.Directory.law
        (ruled_view (I.view s.input) (P.rule s.rule) s.has_ended)
        (answer_of I.Entry.facts I.Residue.facts r)
        (ruled_view (I.view t.input) (P.rule t.rule) t.has_ended)
        × KeepsKnown (I.known s.input) r (I.known t.input) };

    ghost left = { λ s. I.left s.input };

    fn feed(&mut self) -> Option<Separation<I::Feed>> {
        if self.has_ended {
            return None;
        }
        let separation = self.input.feed()?;
        let Ok(residue) = residue_of(self.alloc, &mut self.rule, &separation) else {
            self.has_ended = true;
            return Some(Separation::Filtrate(Product::new(Err(WalkError::Memory))));
        };
        if cuts(&separation, residue) {
            self.input.cancel_walk_tree();
        }
        Some(separated(separation, residue))
    }
}

impl<I, P> CancelWalk for Excluding<I, P>
where
    I: FileIterator,
    P: Exclude,
{
    ghost use Rattle.std.proofs.Common.{◌∙◌};

    ghost cancels = { λ s t. I.cancels s.input t.input × (t.rule ≡ s.rule) × (t.has_ended ≡ s.has_ended) };

    fn cancel_walk_tree(&mut self) {
        self.input.cancel_walk_tree()
    }

    ghost once = { λ s t u a b. (I.once s.input t.input u.input a.0 b.0, b.1 ∙ a.1, b.2 ∙ a.2) };

    ghost can_go_on = { λ s t h c. I.can_go_on s.input t.input h.0 c };

    ghost no_longer = { λ s t h e. I.no_longer s.input t.input h.0 e };
}

impl<I, P> FileIterator for Excluding<I, P>
where
    I: FileIterator,
    P: Exclude,
{
    ghost use Rattle.wax_walk.specs.{Laws.{ruled_telling, ruled_cancelling}, Ruled.ruled_view};

    type Entry = I::Entry;

    type Residue = I::Residue;

    type Directory = I::Directory;

    ghost view = { λ s. ruled_view (I.view s.input) (P.rule s.rule) s.has_ended };

    ghost known = { λ s. I.known s.input };

    fn directory(&self) -> &I::Directory {
        self.input.directory()
    }

    fn into_directory(self) -> I::Directory {
        self.input.into_directory()
    }

    ghost telling = { λ s q i. ruled_telling (I.view s.input) (P.rule s.rule)
        (I.Directory.law.tells (I.view s.input).directory) (I.telling s.input) q i.1 };

    ghost same_facts = { λ e r h. I.same_facts e r h };

    ghost feeding = { λ s t r f. f.0 };

    ghost cancelling = { λ s t h. ruled_cancelling (I.view s.input) (I.view t.input) P.rule s.rule t.rule
        s.has_ended t.has_ended (I.cancelling s.input t.input h.0) h.1 h.2 };

    ghost keeping = { λ s t r f. f.1 };

    ghost staying = { λ s t h. I.staying s.input t.input h.0 };
}

impl<I: FileIterator, P: Exclude> Iterator for Excluding<I, P> {
    type Item = Result<I::Entry, WalkError>;

    ghost can_next = { λ s. I.can_feed s.input × IsFinite (I.left s.input) };

    ghost next_gives = { λ s r t. NextFiltrate ⟦<Self as SeparatingFilter>⟧.feeds s r t };

    ghost remaining = { λ s. I.left s.input };

    fn next(&mut self) -> Option<Result<I::Entry, WalkError>> {
        filtrate(self)
    }
}
