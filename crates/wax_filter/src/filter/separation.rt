//! Items that are kept or excluded.

ghost use Rattle.std.specs.{Prelude.{◌≡◌, Option}, Option.option_map, Fn.FnOnceReturnsAt};
ghost use Rattle.wax_filter.specs.Separating.{filtrate_of, AtFiltrate, AtResidue, LeavesOut, LeavesOutNode};
ghost use Rattle.wax_filter.specs.Separating.{LeavesOutTree, MapsFiltrate, MapsLeftOut, RefersTo};
ghost use Rattle.wax_filter.specs.Separating.{CancelsTree, Answers, SaysOf, SeparatesBy, CancelsBy};
ghost use Rattle.wax_filter.specs.Transposing.{Transposes, TransposesOk};

use crate::filter::cancel::{CancelWalk, WalkCancellation};
use crate::filter::product::{Filtrate, Product, Residue};
use crate::filter::tree_residue::TreeResidue;

/// The types of a filter's items: of those that are kept, and of those that are excluded.
pub trait Feed {
    type Filtrate;

    type Residue;
}

impl<T, R> Feed for (T, R) {
    type Filtrate = T;

    type Residue = R;
}

/// An item that is kept or excluded.
#[derive(Drop)]
#[derive_where(Clone, Debug, Eq, Hash, PartialEq; S::Filtrate, S::Residue)]
pub enum Separation<S>
where
    S: Feed,
{
    /// The item is kept.
    Filtrate(Filtrate<S::Filtrate>),
    /// The item is excluded.
    Residue(Residue<S::Residue>),
}

/// A feed in which kept and excluded items hold the same type of entry.
pub trait Isomeric: Feed {
    ghost use Rattle.wax_filter.specs.declared.filter.separation.Separation.{Separation};

    type Substituent;

    /// The entry of an item; none for an error.
    ghost shown: { Separation Self Self.Filtrate Self.Residue → Option Self.Substituent };

    /// Returns the entry of an item, or `None` for an error.
    fn entry(separation: &Separation<Self>) -> Option<&Self::Substituent>
    where
        Self: Sized,
        ensures { option_map (λ e. e.now) result ≡ shown separation.now };

    /// Calls `f` for the entry of an item. Returns `None` for an error, without a call.
    final fn substituent<R, F>(separation: &Separation<Self>, f: F) -> Option<R>
    where
        Self: Sized,
        F: FnOnce(&Self::Substituent) -> R,
        requires { F.IsAlwaysCallable f }
        ensures { Answers (FnOnceReturnsAt F.FnOnce f) (shown separation.now) result }
    {
        match Self::entry(separation) {
            Some(entry) => Some(f(entry)),
            None => None,
        }
    }
}

impl<S> Separation<S>
where
    S: Feed,
{
    /// Maps an item that is kept by `f` and excludes it. Any other item stays.
    pub fn filter_map<F>(self, f: F) -> Self
    where
        F: FnOnce(S::Filtrate) -> S::Residue + Drop,
        requires { AtFiltrate (F.pre f) self }
        ensures { LeavesOut (F.post f) self result }
    {
        match self {
            Separation::Filtrate(filtrate) => {
                Separation::Residue(Product::new(f(filtrate.into_inner())))
            }
            Separation::Residue(residue) => Separation::Residue(residue),
        }
    }

    /// Maps an item that is kept by `f`. Any other item stays.
    pub fn map_filtrate<U, F>(self, f: F) -> Separation<(U, S::Residue)>
    where
        F: FnOnce(S::Filtrate) -> U + Drop,
        requires { AtFiltrate (F.pre f) self }
        ensures { MapsFiltrate (F.post f) self result }
    {
        match self {
            Separation::Filtrate(filtrate) => Separation::Filtrate(filtrate.map(f)),
            Separation::Residue(residue) => Separation::Residue(residue),
        }
    }

    /// Maps an item that is excluded by `f`. Any other item stays.
    pub fn map_residue<U, F>(self, f: F) -> Separation<(S::Filtrate, U)>
    where
        F: FnOnce(S::Residue) -> U + Drop,
        requires { AtResidue (F.pre f) self }
        ensures { MapsLeftOut (F.post f) self result }
    {
        match self {
            Separation::Filtrate(filtrate) => Separation::Filtrate(filtrate),
            Separation::Residue(residue) => Separation::Residue(residue.map(f)),
        }
    }

    /// Returns the item if it is kept.
    pub fn filtrate(self) -> Option<Filtrate<S::Filtrate>>
    where
        S::Residue: Drop,
        ensures { result ≡ filtrate_of self }
    {
        match self {
            Separation::Filtrate(filtrate) => Some(filtrate),
            Separation::Residue(_) => None,
        }
    }

    /// Returns a reference to the item if it is kept.
    pub fn as_filtrate(&self) -> Option<&Filtrate<S::Filtrate>>
        ensures { option_map (λ p. p.now) result ≡ filtrate_of self.now }
    {
        match self {
            Separation::Filtrate(kept) => Some(kept),
            Separation::Residue(_) => None,
        }
    }

    /// Borrows the item, kept or excluded as it is.
    pub fn as_ref(&self) -> Separation<(&S::Filtrate, &S::Residue)>
        ensures { RefersTo self.now result }
    {
        match self {
            Separation::Filtrate(filtrate) => Separation::Filtrate(Product::new(filtrate.get())),
            Separation::Residue(residue) => Separation::Residue(Product::new(residue.get())),
        }
    }

    /// Calls `f` for the entry of the item. Returns `None` for an error, without a call.
    pub fn substituent<R, F>(&self, f: F) -> Option<R>
    where
        S: Isomeric,
        F: FnOnce(&S::Substituent) -> R,
        requires { F.IsAlwaysCallable f }
        ensures { Answers (FnOnceReturnsAt F.FnOnce f) (S.shown self.now) result }
    {
        S::substituent(self, f)
    }
}

impl<T, R, S> Separation<S>
where
    S: Feed<Filtrate = T, Residue = TreeResidue<R>>,
{
    /// Maps an item that is kept by `f` and excludes only it. Any other item stays.
    pub fn filter_map_node<F>(self, f: F) -> Self
    where
        F: FnOnce(T) -> R + Drop,
        requires { AtFiltrate (F.pre f) self }
        ensures { LeavesOutNode (F.post f) self result }
    {
        match self {
            Separation::Filtrate(filtrate) => Separation::Residue(filtrate.filter_map_node(f)),
            Separation::Residue(residue) => Separation::Residue(residue),
        }
    }

    /// Excludes the item with everything below it, which is cancelled. An item that is kept is
    /// mapped by `f` first. An item that was excluded with everything below it stays, and nothing
    /// is cancelled.
    pub fn filter_map_tree<I, F>(self, cancellation: &mut WalkCancellation<I>, f: F) -> Self
    where
        I: CancelWalk,
        F: FnOnce(T) -> R + Drop,
        requires { AtFiltrate (F.pre f) self }
        ensures separates { LeavesOutTree (F.post f) self result }
        ensures cancels { CancelsTree I.cancels self cancellation.old.0.now cancellation.new.0.now }
        ensures same { cancellation.new.0.ghost_name ≡ cancellation.old.0.ghost_name }
    {
        match self {
            Separation::Filtrate(filtrate) => {
                Separation::Residue(filtrate.filter_map_tree(cancellation, f))
            }
            Separation::Residue(residue) => match residue.into_inner() {
                TreeResidue::Node(residue) => {
                    cancellation.cancel_walk_tree();
                    Separation::Residue(Product::new(TreeResidue::Tree(residue)))
                }
                TreeResidue::Tree(residue) => {
                    Separation::Residue(Product::new(TreeResidue::Tree(residue)))
                }
            },
        }
    }

    /// Separates the item by what `f` returns for its entry: `None` keeps the item as it is, `Node`
    /// excludes only the item if it was kept, and `Tree` does what `filter_map_tree` does. An error
    /// stays.
    pub fn filter_tree_by_substituent<I, F>(
        self,
        cancellation: &mut WalkCancellation<I>,
        f: F,
    ) -> Self
    where
        S: Isomeric,
        R: From<T>,
        I: CancelWalk,
        F: FnOnce(&S::Substituent) -> Option<TreeResidue<()>>,
        requires { F.IsAlwaysCallable f }
        ensures separates { (said : _) × SaysOf (FnOnceReturnsAt F.FnOnce f) (S.shown self) said
            × SeparatesBy R.from_gives said self result
            × CancelsBy I.cancels said self cancellation.old.0.now cancellation.new.0.now }
        ensures same { cancellation.new.0.ghost_name ≡ cancellation.old.0.ghost_name }
    {
        match self.substituent(f) {
            Some(said) => separated_by(self, cancellation, said),
            None => self,
        }
    }
}

fn without_node<T, R, S>(separation: Separation<S>) -> Separation<S>
where
    S: Feed<Filtrate = T, Residue = TreeResidue<R>>,
    R: From<T>,
    ensures { LeavesOutNode R.from_gives separation result }
{
    match separation {
        Separation::Filtrate(filtrate) => Separation::Residue(filtrate.filter_node()),
        Separation::Residue(residue) => Separation::Residue(residue),
    }
}

// Excludes an item with everything below it, and cancels that unless it was cancelled before.
fn without_tree<T, R, S, I>(
    separation: Separation<S>,
    cancellation: &mut WalkCancellation<I>,
) -> Separation<S>
where
    S: Feed<Filtrate = T, Residue = TreeResidue<R>>,
    R: From<T>,
    I: CancelWalk,
    ensures separates { LeavesOutTree R.from_gives separation result }
    ensures cancels { CancelsTree I.cancels separation cancellation.old.0.now cancellation.new.0.now }
    ensures same { cancellation.new.0.ghost_name ≡ cancellation.old.0.ghost_name }
{
    match separation {
        Separation::Filtrate(filtrate) => Separation::Residue(filtrate.filter_tree(cancellation)),
        Separation::Residue(residue) => match residue.into_inner() {
            TreeResidue::Node(residue) => {
                cancellation.cancel_walk_tree();
                Separation::Residue(Product::new(TreeResidue::Tree(residue)))
            }
            TreeResidue::Tree(residue) => {
                Separation::Residue(Product::new(TreeResidue::Tree(residue)))
            }
        },
    }
}

// Applies what a closure returned for the item's entry.
pub(crate) fn separated_by<T, R, S, I>(
    separation: Separation<S>,
    cancellation: &mut WalkCancellation<I>,
    said: Option<TreeResidue<()>>,
) -> Separation<S>
where
    S: Feed<Filtrate = T, Residue = TreeResidue<R>>,
    R: From<T>,
    I: CancelWalk,
    ensures separates { SeparatesBy R.from_gives said separation result }
    ensures cancels { CancelsBy I.cancels said separation cancellation.old.0.now cancellation.new.0.now }
    ensures same { cancellation.new.0.ghost_name ≡ cancellation.old.0.ghost_name }
{
    match said {
        None => separation,
        Some(TreeResidue::Node(_)) => without_node(separation),
        Some(TreeResidue::Tree(_)) => without_tree(separation, cancellation),
    }
}

impl<T, R> Separation<(Option<T>, R)> {
    /// Moves the `Option` of a kept item out of the separation: returns `None` if it is `None`. Any
    /// other item stays.
    pub fn transpose_filtrate(self) -> Option<Separation<(T, R)>>
        ensures { Transposes self result }
    {
        match self {
            Separation::Filtrate(filtrate) => match filtrate.transpose() {
                Some(filtrate) => Some(Separation::Filtrate(filtrate)),
                None => None,
            },
            Separation::Residue(residue) => Some(Separation::Residue(residue)),
        }
    }
}

impl<T, E, R> Separation<(Result<T, E>, R)> {
    /// Moves the `Result` of a kept item out of the separation. Any other item stays.
    ///
    /// # Errors
    ///
    /// Returns the error inside the item, marked as kept, if there is one.
    pub fn transpose_filtrate(self) -> Result<Separation<(T, R)>, Filtrate<E>>
        ensures { TransposesOk self result }
    {
        match self {
            Separation::Filtrate(filtrate) => match filtrate.transpose() {
                Ok(filtrate) => Ok(Separation::Filtrate(filtrate)),
                Err(error) => Err(error),
            },
            Separation::Residue(residue) => Ok(Separation::Residue(residue)),
        }
    }
}

impl<S> From<Filtrate<S::Filtrate>> for Separation<S>
where
    S: Feed,
{
    ghost use Rattle.wax_filter.specs.declared.filter.separation.Separation.TheVariants.{Filtrate};

    ghost from_gives = { λ x r. r ≡ Filtrate x };

    fn from(item: Filtrate<S::Filtrate>) -> Self {
        Separation::Filtrate(item)
    }
}

impl<S> From<Residue<S::Residue>> for Separation<S>
where
    S: Feed,
{
    ghost use Rattle.wax_filter.specs.declared.filter.separation.Separation.TheVariants.{Residue};

    ghost from_gives = { λ x r. r ≡ Residue x };

    fn from(item: Residue<S::Residue>) -> Self {
        Separation::Residue(item)
    }
}
