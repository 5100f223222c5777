//! Filters, and cancelling what is below the current item.

ghost use Rattle.std.specs.Prelude.{◌≡◌, ⊤, Option};
ghost use Rattle.std.specs.Iterator.{Count, MakesProgress, UpTo, IsFinite, size, endless};

use crate::filter::separation::{Feed, Separation};

/// An iterator whose items are each kept or excluded.
pub trait SeparatingFilter: Drop {
    ghost use Rattle.wax_filter.specs.declared.filter.separation.Separation.{Separation};

    type Feed: Feed;

    /// The states in which `feed` may be called.
    ghost can_feed: { Self → Type 0 } = { λ _. ⊤ };

    /// The relation of the state before a call of `feed`, its result, and the state after.
    ghost feeds: { Self → Option (Separation Self.Feed Self.Feed.Filtrate Self.Feed.Residue) → Self
        → Type 0 } = { λ _ _ _. ⊤ };

    /// In a state in which `feed` may be called: a bound for the number of items before `None`.
    ghost left: { Self → Count } = { λ _. endless };

    /// Returns the next item, kept or excluded, or `None` at the end.
    fn feed(&mut self) -> Option<Separation<Self::Feed>>
        requires { can_feed self.old }
        ensures steps { feeds self.old result self.new }
        ensures goes { MakesProgress can_feed left self.old result self.new };
}

/// A walk that can skip what is below the item that it yielded last.
pub trait CancelWalk: SeparatingFilter {
    /// The relation of the states before and after a call of `cancel_walk_tree`.
    ghost cancels: { Self → Self → Type 0 } = { λ _ _. ⊤ };

    /// Skips what is below the item that was yielded last, and nothing else.
    fn cancel_walk_tree(&mut self)
        ensures { cancels self.old self.new };

    /// Cancelling twice is cancelling once.
    ghost once: { (s t u : Self) → cancels s t → cancels t u → cancels s u };

    /// After cancelling, `feed` may be called if it could be called before.
    ghost can_go_on: { (s t : Self) → cancels s t → Self.can_feed s → Self.can_feed t };

    /// Cancelling doesn't raise the number of items to come.
    ghost no_longer: { (s t : Self) → cancels s t → IsFinite (Self.left s)
        → UpTo (Self.left t) (size (Self.left s)) };
}

/// A borrowed walk that can be cancelled and nothing else.
#[derive(Debug, Drop)]
pub struct WalkCancellation<'i, I>(&'i mut I);

impl<'i, I> WalkCancellation<'i, I>
where
    I: CancelWalk,
{
    /// Borrows `walk`.
    pub fn new(walk: &'i mut I) -> Self
        ensures same { result.0.ghost_name ≡ walk.entry.ghost_name }
        ensures now { result.0.now ≡ walk.old }
    {
        WalkCancellation(walk)
    }

    /// Skips what is below the item that the walk yielded last, and nothing else. A second call has
    /// no effect.
    pub fn cancel_walk_tree(&mut self)
        ensures cancels { I.cancels self.old.0.now self.new.0.now }
        ensures same { self.new.0.ghost_name ≡ self.old.0.ghost_name }
    {
        self.0.cancel_walk_tree()
    }
}
