//! Filters of a walk that may cancel what is below an item.

ghost use Rattle.std.specs.{Prelude.{◌≡◌, ◌⊎◌}, Option.option_map, Iterator.IsFinite};
ghost use Rattle.std.proofs.Common.{subst, sym, ◌∙◌};
ghost use Rattle.wax_filter.specs.Feeding.{Feeds, ReturnsFor, ByEntry, NextFiltrate, entry_layer};

use crate::filter::cancel::{CancelWalk, SeparatingFilter, WalkCancellation};
use crate::filter::layers::filtrate;
use crate::filter::map_tree::FilterMapTree;
use crate::filter::separation::{Feed, Isomeric, Separation, separated_by};
use crate::filter::tree_residue::TreeResidue;

// Calls the closure for the entry of an item, and never for an error.
fn said_of<S, F>(f: &mut F, separation: &Separation<S>) -> Option<TreeResidue<()>>
where
    S: Isomeric,
    F: FnMut(&S::Substituent) -> Option<TreeResidue<()>>,
    requires { F.IsAlwaysCallable f.old }
    ensures callable { F.IsAlwaysCallable f.new }
    ensures says { ReturnsFor F.step f.old (S.shown separation.now) result f.new }
{
    match S::entry(separation) {
        Some(entry) => f(entry),
        None => None,
    }
}

/// A walk whose items are separated by a closure over their entries. `None` keeps the item as it
/// is, `Node` excludes only the item if it was kept, and `Tree` excludes it with everything below
/// it, which is cancelled. The closure is never called for an error.
#[derive(Clone, Debug, Drop)]
pub struct FilterTreeBySubstituent<I, F> {
    input: I,
    f: F,
}

impl<I, F> FilterTreeBySubstituent<I, F> {
    /// Wraps `input`. `f` is called for each entry.
    pub fn new(input: I, f: F) -> Self
        ensures input { result.input ≡ input }
        ensures f { result.f ≡ f }
    {
        FilterTreeBySubstituent { input, f }
    }
}

impl<R, I, F> SeparatingFilter for FilterTreeBySubstituent<I, F>
where
    R: From<<I::Feed as Feed>::Filtrate>,
    I: CancelWalk,
    I::Feed: Feed<Residue = TreeResidue<R>> + Isomeric,
    F: FnMut(&<I::Feed as Isomeric>::Substituent) -> Option<TreeResidue<()>> + Drop,
{
    type Feed = I::Feed;

    ghost can_feed = { λ s. I.can_feed s.input × F.IsAlwaysCallable s.f };

    ghost feeds = { λ s r t. Feeds I.feeds (ByEntry (entry_layer F.step I.Feed.shown R.from_gives I.cancels))
        (s.input, s.f) r (t.input, t.f) };

    ghost left = { λ s. I.left s.input };

    fn feed(&mut self) -> Option<Separation<I::Feed>> {
        let separation = self.input.feed()?;
        let said = said_of(&mut self.f, &separation);
        let mut cancellation = WalkCancellation::new(&mut self.input);
        Some(separated_by(separation, &mut cancellation, said))
    }
}

impl<R, I, F> CancelWalk for FilterTreeBySubstituent<I, F>
where
    R: From<<I::Feed as Feed>::Filtrate>,
    I: CancelWalk,
    I::Feed: Feed<Residue = TreeResidue<R>> + Isomeric,
    F: FnMut(&<I::Feed as Isomeric>::Substituent) -> Option<TreeResidue<()>> + Drop,
{
    ghost cancels = { λ s t. I.cancels s.input t.input × (t.f ≡ s.f) };

    fn cancel_walk_tree(&mut self) {
        self.input.cancel_walk_tree()
    }

    ghost once = { λ s t u a b. (I.once s.input t.input u.input a.0 b.0, b.1 ∙ a.1) };

    ghost can_go_on = { λ s t h c. (
      I.can_go_on s.input t.input h.0 c.0,
      subst (λ v. F.IsAlwaysCallable v) (sym h.1) c.1,
    ) };

    ghost no_longer = { λ s t h e. I.no_longer s.input t.input h.0 e };
}

impl<R, I, F> Iterator for FilterTreeBySubstituent<I, F>
where
    R: From<<I::Feed as Feed>::Filtrate> + Drop,
    I: CancelWalk,
    I::Feed: Feed<Residue = TreeResidue<R>> + Isomeric,
    F: FnMut(&<I::Feed as Isomeric>::Substituent) -> Option<TreeResidue<()>> + Drop,
{
    type Item = <I::Feed as Feed>::Filtrate;

    ghost can_next = { λ s. I.can_feed s.input × F.IsAlwaysCallable s.f × IsFinite (I.left s.input) };

    ghost next_gives = { λ s r t. NextFiltrate (λ u o v. Feeds I.feeds
        (ByEntry (entry_layer F.step I.Feed.shown R.from_gives I.cancels))
        (u.input, u.f) o (v.input, v.f)) s r t };

    ghost remaining = { λ s. I.left s.input };

    fn next(&mut self) -> Option<Self::Item> {
        filtrate(self)
    }
}

/// A walk that can be filtered and mapped by closures.
pub trait HierarchicalIterator: CancelWalk
    + Iterator<Item = <Self::Feed as Feed>::Filtrate>
    + SeparatingFilter {
    /// Separates each item by what `f` returns for its entry, as `FilterTreeBySubstituent` says.
    final fn filter_tree_by_substituent<F>(self, f: F) -> FilterTreeBySubstituent<Self, F>
    where
        Self: Sized,
        Self::Feed: Isomeric,
        F: FnMut(&<Self::Feed as Isomeric>::Substituent) -> Option<TreeResidue<()>>,
        ensures input { result.input ≡ self }
        ensures f { result.f ≡ f }
    {
        FilterTreeBySubstituent::new(self, f)
    }

    /// Maps each item, kept or excluded, by one call of `f`. Through its first argument `f` can
    /// cancel what is below the item.
    final fn filter_map_tree<S, F>(self, f: F) -> FilterMapTree<Self, S, F>
    where
        Self: Sized,
        S: Feed,
        F: FnMut(&mut WalkCancellation<Self>, Separation<Self::Feed>) -> Separation<S>,
        ensures input { result.input ≡ self }
        ensures f { result.f ≡ f }
    {
        FilterMapTree::new(self, f)
    }
}

impl<R, I> HierarchicalIterator for I
where
    I: CancelWalk + Iterator<Item = <Self::Feed as Feed>::Filtrate> + SeparatingFilter,
    I::Feed: Feed<Residue = TreeResidue<R>>,
{}
