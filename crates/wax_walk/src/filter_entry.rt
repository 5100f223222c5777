//! Filters by a closure.

ghost use Rattle.std.specs.{Prelude.◌≡◌, Iterator.IsFinite};
ghost use Rattle.wax_filter.specs.Feeding.{NextFiltrate};
ghost use Rattle.wax_walk.specs.{Entries.{given_of, answer_of}, Given.{Facts, Mark, mark_by}};
ghost use Rattle.wax_walk.specs.{Known.KeepsKnown, Said.mark_of, Says.{SaysByRule, closure_view}};
ghost use Rattle.wax_walk.specs.View.{FeedStep};

use crate::entry::{Entry, TreeEntry};
use crate::error::WalkError;
use crate::excluding::{cuts, separated};
use crate::iterator::{EntryResidue, FileIterator};
use wax_filter::filter::{CancelWalk, Feed, SeparatingFilter, Separation, TreeResidue, filtrate};

// Calls the closure for the entry of an item, kept or excluded, and never for an error.
fn said_by<T, R, S, F>(f: &mut F, separation: &Separation<S>) -> Option<EntryResidue>
where
    T: Entry,
    R: Entry,
    S: Feed<Filtrate = Result<T, WalkError>, Residue = TreeResidue<R>>,
    F: FnMut(&TreeEntry) -> Option<EntryResidue>,
    requires { F.IsAlwaysCallable f.old }
    ensures callable { F.IsAlwaysCallable f.new }
    ensures says { (rule : Facts → Mark) → SaysByRule F.step rule f.old
        → (mark_of result ≡ mark_by rule (given_of T.facts R.facts separation.now))
        × SaysByRule F.step rule f.new }
{
    match separation {
        Separation::Filtrate(filtrate) => match filtrate.get() {
            Ok(entry) => f(entry.as_tree_entry()),
            Err(_) => None,
        },
        Separation::Residue(residue) => f(residue.get().get().as_tree_entry()),
    }
}

/// A walk without what a closure excludes. `FileIterator::filter_entry` builds it.
#[derive(Clone, Debug, Drop)]
pub struct FilterEntry<I, F> {
    input: I,
    f: F,
}

impl<I, F> FilterEntry<I, F> {
    pub(crate) fn new(input: I, f: F) -> Self
        ensures { result ≡ record { input = input; f = f } }
    {
        FilterEntry { input, f }
    }
}

impl<I, F> SeparatingFilter for FilterEntry<I, F>
where
    I: FileIterator,
    F: FnMut(&TreeEntry) -> Option<EntryResidue> + Drop,
{
    type Feed = I::Feed;

    ghost can_feed = { λ s. I.can_feed s.input × F.IsAlwaysCallable s.f };

    ghost feeds = { λ s r t. FeedStep I.Directory.law (closure_view F.step (I.view s.input) s.f)
        (answer_of I.Entry.facts I.Residue.facts r) (closure_view F.step (I.view t.input) t.f)
        × KeepsKnown (I.known s.input) r (I.known t.input) };

    ghost left = { λ s. I.left s.input };

    fn feed(&mut self) -> Option<Separation<I::Feed>> {
        let separation = self.input.feed()?;
        let residue = said_by(&mut self.f, &separation);
        if cuts(&separation, residue) {
            self.input.cancel_walk_tree();
        }
        Some(separated(separation, residue))
    }
}

impl<I, F> CancelWalk for FilterEntry<I, F>
where
    I: FileIterator,
    F: FnMut(&TreeEntry) -> Option<EntryResidue> + Drop,
{
    ghost use Rattle.std.proofs.Common.{subst, sym, ◌∙◌};

    ghost cancels = { λ s t. I.cancels s.input t.input × (t.f ≡ s.f) };

    fn cancel_walk_tree(&mut self) {
        self.input.cancel_walk_tree()
    }

    ghost once = { λ s t u a b. (I.once s.input t.input u.input a.0 b.0, b.1 ∙ a.1) };

    ghost can_go_on = { λ s t h c.
        (I.can_go_on s.input t.input h.0 c.0, subst (λ v. F.IsAlwaysCallable v) (sym h.1) c.1) };

    ghost no_longer = { λ s t h e. I.no_longer s.input t.input h.0 e };
}

impl<I, F> FileIterator for FilterEntry<I, F>
where
    I: FileIterator,
    F: FnMut(&TreeEntry) -> Option<EntryResidue> + Drop,
{
    ghost use Rattle.wax_walk.specs.Laws.{closure_telling, closure_cancelling};

    type Entry = I::Entry;

    type Residue = I::Residue;

    type Directory = I::Directory;

    ghost view = { λ s. closure_view F.step (I.view s.input) s.f };

    ghost known = { λ s. I.known s.input };

    fn directory(&self) -> &I::Directory {
        self.input.directory()
    }

    fn into_directory(self) -> I::Directory {
        self.input.into_directory()
    }

    ghost telling = { λ s q i. closure_telling F.step (I.view s.input) s.f
        (I.Directory.law.tells (I.view s.input).directory) (I.telling s.input) q i };

    ghost same_facts = { λ e r h. I.same_facts e r h };

    ghost feeding = { λ s t r f. f.0 };

    ghost cancelling = { λ s t h. closure_cancelling F.step (I.view s.input) (I.view t.input) s.f t.f
        (I.cancelling s.input t.input h.0) h.1 };

    ghost keeping = { λ s t r f. f.1 };

    ghost staying = { λ s t h. I.staying s.input t.input h.0 };
}

impl<I, F> Iterator for FilterEntry<I, F>
where
    I: FileIterator,
    F: FnMut(&TreeEntry) -> Option<EntryResidue> + Drop,
{
    type Item = Result<I::Entry, WalkError>;

    ghost can_next = { λ s. I.can_feed s.input × F.IsAlwaysCallable s.f × IsFinite (I.left s.input) };

    ghost next_gives = { λ s r t. NextFiltrate ⟦<Self as SeparatingFilter>⟧.feeds s r t };

    ghost remaining = { λ s. I.left s.input };

    fn next(&mut self) -> Option<Result<I::Entry, WalkError>> {
        filtrate(self)
    }
}
