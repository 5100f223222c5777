//! Items that are marked as kept or as excluded.

ghost use Rattle.std.specs.{Prelude.{◌≡◌, Option, Ok, Err, MatchResult}, Option.option_map};
ghost use Rattle.wax_filter.specs.Leaving.{residue_item};
ghost use Rattle.wax_filter.specs.declared.filter.tree_residue.TreeResidue.TheVariants.{Node, Tree};

use crate::filter::cancel::{CancelWalk, WalkCancellation};
use crate::filter::tree_residue::TreeResidue;
use std::marker::PhantomData;

mod kind {
    /// The mark of an item that is kept.
    #[derive(Drop)]
    pub enum FiltrateKind {}

    /// The mark of an item that is excluded.
    #[derive(Drop)]
    pub enum ResidueKind {}
}

pub use kind::{FiltrateKind, ResidueKind};

/// An item with a mark, `FiltrateKind` or `ResidueKind`. The mark takes no space.
#[derive(Drop)]
#[derive_where(Clone, Copy, Debug, Eq, Hash, PartialEq; T)]
pub struct Product<K, T> {
    inner: T,
    kind: PhantomData<K>,
}

/// An item that is kept.
pub type Filtrate<T> = Product<FiltrateKind, T>;
/// An item that is excluded.
pub type Residue<T> = Product<ResidueKind, T>;

impl<K, T> Product<K, T> {
    /// Adds the mark to an item.
    pub fn new(inner: T) -> Self
        ensures { result.inner ≡ inner }
    {
        Product {
            inner,
            kind: PhantomData,
        }
    }

    /// Returns the item without its mark.
    pub fn into_inner(self) -> T
        ensures { result ≡ self.inner }
    {
        let Product { inner, kind: _ } = self;
        inner
    }

    /// Maps the item by `f`. The mark stays.
    pub fn map<U, F>(self, f: F) -> Product<K, U>
    where
        F: FnOnce(T) -> U,
        requires { F.pre f self.inner }
        ensures { F.post f self.inner result.inner }
    {
        let mapped = f(self.into_inner());
        Product::new(mapped)
    }

    /// Returns a reference to the item.
    pub fn get(&self) -> &T
        ensures { result.now ≡ self.now.inner }
    {
        &self.inner
    }
}

impl<K, T> Product<K, Option<T>> {
    /// Returns the item inside, with the mark, or `None` if there is none.
    pub fn transpose(self) -> Option<Product<K, T>>
        ensures { option_map (λ p. p.inner) result ≡ self.inner }
    {
        match self.into_inner() {
            Some(inner) => Some(Product::new(inner)),
            None => None,
        }
    }
}

impl<K, T, E> Product<K, Result<T, E>> {
    /// Returns the item inside, with the mark.
    ///
    /// # Errors
    ///
    /// Returns the error inside, with the mark, if there is no item.
    pub fn transpose(self) -> Result<Product<K, T>, Product<K, E>>
        ensures { MatchResult result (λ p. self.inner ≡ Ok p.inner) (λ p. self.inner ≡ Err p.inner) }
    {
        match self.into_inner() {
            Ok(inner) => Ok(Product::new(inner)),
            Err(error) => Err(Product::new(error)),
        }
    }
}

impl<K, T> AsRef<T> for Product<K, T> {
    fn as_ref(&self) -> &T
        ensures { result.now ≡ self.now.inner }
    {
        self.get()
    }
}

impl<T> Filtrate<T> {
    /// Excludes the item.
    pub fn filter(self) -> Residue<T>
        ensures { result.inner ≡ self.inner }
    {
        Product::new(self.into_inner())
    }

    /// Maps the item by `f` and excludes it.
    pub fn filter_map<R, F>(self, f: F) -> Residue<R>
    where
        F: FnOnce(T) -> R,
        requires { F.pre f self.inner }
        ensures { F.post f self.inner result.inner }
    {
        Product::new(f(self.into_inner()))
    }

    /// Excludes only the item, converted into a residue.
    pub fn filter_node<R>(self) -> Residue<TreeResidue<R>>
    where
        R: From<T>,
        ensures { (r : _) × R.from_gives self.inner r × (result.inner ≡ Node r) }
    {
        Product::new(TreeResidue::Node(R::from(self.into_inner())))
    }

    /// Maps the item by `f` and excludes only it.
    pub fn filter_map_node<R, F>(self, f: F) -> Residue<TreeResidue<R>>
    where
        F: FnOnce(T) -> R,
        requires { F.pre f self.inner }
        ensures { (r : _) × F.post f self.inner r × (result.inner ≡ Node r) }
    {
        Product::new(TreeResidue::Node(f(self.into_inner())))
    }

    /// Excludes the item, converted into a residue, with everything below it, which is cancelled.
    pub fn filter_tree<I, R>(
        self,
        cancellation: &mut WalkCancellation<I>,
    ) -> Residue<TreeResidue<R>>
    where
        I: CancelWalk,
        R: From<T>,
        ensures gives { (r : _) × R.from_gives self.inner r × (result.inner ≡ Tree r) }
        ensures cancels { I.cancels cancellation.old.0.now cancellation.new.0.now }
        ensures same { cancellation.new.0.ghost_name ≡ cancellation.old.0.ghost_name }
    {
        cancellation.cancel_walk_tree();
        Product::new(TreeResidue::Tree(R::from(self.into_inner())))
    }

    /// Maps the item by `f` and excludes it with everything below it, which is cancelled.
    pub fn filter_map_tree<I, R, F>(
        self,
        cancellation: &mut WalkCancellation<I>,
        f: F,
    ) -> Residue<TreeResidue<R>>
    where
        I: CancelWalk,
        F: FnOnce(T) -> R,
        requires { F.pre f self.inner }
        ensures gives { (r : _) × F.post f self.inner r × (result.inner ≡ Tree r) }
        ensures cancels { I.cancels cancellation.old.0.now cancellation.new.0.now }
        ensures same { cancellation.new.0.ghost_name ≡ cancellation.old.0.ghost_name }
    {
        cancellation.cancel_walk_tree();
        Product::new(TreeResidue::Tree(f(self.into_inner())))
    }
}

impl<T> AsRef<T> for Residue<TreeResidue<T>> {
    fn as_ref(&self) -> &T
        ensures { result.now ≡ residue_item self.now.inner }
    {
        self.get().get()
    }
}
