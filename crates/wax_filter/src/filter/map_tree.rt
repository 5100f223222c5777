//! Walks whose items are mapped by a closure, which may cancel what is below an item.

ghost use Rattle.std.specs.{Prelude.◌≡◌, Iterator.IsFinite};
ghost use Rattle.std.proofs.Common.{subst, sym, ◌∙◌};
ghost use Rattle.wax_filter.specs.Feeding.{Feeds, ByItem, OnlyCancels, NextFiltrate};

use crate::filter::cancel::{CancelWalk, SeparatingFilter, WalkCancellation};
use crate::filter::layers::filtrate;
use crate::filter::separation::{Feed, Separation};
use std::marker::PhantomData;

fn made_of<G, S, I, F>(
    cancellation: &mut WalkCancellation<I>,
    f: &mut F,
    item: Separation<G>,
) -> Separation<S>
where
    G: Feed,
    S: Feed,
    I: CancelWalk,
    F: FnMut(&mut WalkCancellation<I>, Separation<G>) -> Separation<S>,
    requires callable { F.IsAlwaysCallable f.old }
    requires cancels { OnlyCancels F.step I.cancels }
    ensures callable { F.IsAlwaysCallable f.new }
    ensures makes { ByItem F.step I.cancels (cancellation.old.0.now, f.old) item result
        (cancellation.new.0.now, f.new) }
    ensures same { cancellation.new.0.ghost_name ≡ cancellation.old.0.ghost_name }
{
    f(cancellation, item)
}

/// A walk whose items, kept or excluded, are mapped by a closure. The closure borrows the walk and
/// may cancel what is below the item. Callers of `feed` have to show that it does nothing else to
/// the walk.
#[derive(Clone, Debug, Drop)]
pub struct FilterMapTree<I, S, F> {
    input: I,
    f: F,
    feed: PhantomData<S>,
}

impl<I, S, F> FilterMapTree<I, S, F> {
    /// Wraps `input`. `f` is called for each item.
    pub fn new(input: I, f: F) -> Self
        ensures input { result.input ≡ input }
        ensures f { result.f ≡ f }
    {
        FilterMapTree {
            input,
            f,
            feed: PhantomData,
        }
    }
}

impl<I, S, F> SeparatingFilter for FilterMapTree<I, S, F>
where
    I: CancelWalk,
    S: Feed,
    F: FnMut(&mut WalkCancellation<I>, Separation<I::Feed>) -> Separation<S> + Drop,
{
    type Feed = S;

    ghost can_feed = { λ s. I.can_feed s.input × F.IsAlwaysCallable s.f × OnlyCancels F.step I.cancels };

    ghost feeds = { λ s r t. Feeds I.feeds (ByItem F.step I.cancels) (s.input, s.f) r (t.input, t.f) };

    ghost left = { λ s. I.left s.input };

    fn feed(&mut self) -> Option<Separation<S>> {
        let separation = self.input.feed()?;
        let mut cancellation = WalkCancellation::new(&mut self.input);
        Some(made_of(&mut cancellation, &mut self.f, separation))
    }
}

impl<I, S, F> CancelWalk for FilterMapTree<I, S, F>
where
    I: CancelWalk,
    S: Feed,
    F: FnMut(&mut WalkCancellation<I>, Separation<I::Feed>) -> Separation<S> + Drop,
{
    ghost cancels = { λ s t. I.cancels s.input t.input × (t.f ≡ s.f) };

    fn cancel_walk_tree(&mut self) {
        self.input.cancel_walk_tree()
    }

    ghost once = { λ s t u a b. (I.once s.input t.input u.input a.0 b.0, b.1 ∙ a.1) };

    ghost can_go_on = { λ s t h c. (
      I.can_go_on s.input t.input h.0 c.0,
      subst (λ v. F.IsAlwaysCallable v) (sym h.1) c.1,
      c.2,
    ) };

    ghost no_longer = { λ s t h e. I.no_longer s.input t.input h.0 e };
}

impl<I, S, F> Iterator for FilterMapTree<I, S, F>
where
    I: CancelWalk,
    S: Feed,
    S::Residue: Drop,
    F: FnMut(&mut WalkCancellation<I>, Separation<I::Feed>) -> Separation<S> + Drop,
{
    type Item = S::Filtrate;

    ghost can_next = { λ s. I.can_feed s.input × F.IsAlwaysCallable s.f × OnlyCancels F.step I.cancels
        × IsFinite (I.left s.input) };

    ghost next_gives = { λ s r t. NextFiltrate (λ u o v. Feeds I.feeds (ByItem F.step I.cancels)
        (u.input, u.f) o (v.input, v.f)) s r t };

    ghost remaining = { λ s. I.left s.input };

    fn next(&mut self) -> Option<Self::Item> {
        filtrate(self)
    }
}
