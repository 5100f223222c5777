//! Values that are either fixed for all matches of a glob or vary within bounds.
ghost use Rattle.std.specs.Prelude.{◌≡◌, ◌↔◌, IfOk, IsNone, IsSome, IsTrue, Some, option_and_then};
ghost use Rattle.std.specs.{Prelude.{option_copied, option_map, string_bytes}, Option.ForSome};
ghost use Rattle.wax_query.specs.Ranges.{bound_number, present};
ghost use Rattle.wax_query.specs.Variances.{IsMapped, bound, variance_value, invariant, text_of};
ghost use Rattle.wax_query.specs.Variances.{variance_copied, variant};

use crate::diagnostics::NoMemory;
use std::alloc::Global;
use std::borrow::CowStr;
use std::num::NonZeroUsize;

/// A bound of a range, or `Unbounded` where the range is open.
#[derive(Clone, Copy, Debug, PartialEq, Eq, Hash, Drop)]
pub enum Boundedness<T> {
    Bounded(T),
    Unbounded,
}

impl<T> Boundedness<T> {
    /// Applies `f` to the bound, if there is one.
    pub fn map_bounded<U, F>(self, f: F) -> Boundedness<U>
    where
        F: FnOnce(T) -> U + Drop,
        requires { ForSome (bound self) (F.pre f) }
        ensures { IsMapped (F.post f) (bound self) (bound result) }
    {
        match self {
            Boundedness::Bounded(bound) => Boundedness::Bounded(f(bound)),
            Boundedness::Unbounded => Boundedness::Unbounded,
        }
    }

    /// Returns the bound, or `None` for `Unbounded`.
    pub fn bounded(self) -> Option<T>
        ensures { result ≡ bound self }
    {
        match self {
            Boundedness::Bounded(bound) => Some(bound),
            Boundedness::Unbounded => None,
        }
    }

    pub fn as_ref(&self) -> Boundedness<&T>
        ensures { option_copied (bound result) ≡ bound self.now }
    {
        match self {
            Boundedness::Bounded(bound) => Boundedness::Bounded(bound),
            Boundedness::Unbounded => Boundedness::Unbounded,
        }
    }

    pub fn is_bounded(&self) -> bool
        ensures { IsTrue result ↔ IsSome (bound self.now) }
    {
        matches!(self, Boundedness::Bounded(_))
    }

    pub fn is_unbounded(&self) -> bool
        ensures { IsTrue result ↔ IsNone (bound self.now) }
    {
        !self.is_bounded()
    }
}

impl<T> From<T> for Boundedness<T> {
    ghost from_gives = { λ x r. bound r ≡ Some x };

    fn from(bound: T) -> Self {
        Boundedness::Bounded(bound)
    }
}

/// 0 becomes `Unbounded`.
impl From<usize> for Boundedness<NonZeroUsize> {
    ghost from_gives = { λ n r. bound_number r ≡ present n };

    fn from(bound: usize) -> Self {
        NonZeroUsize::new(bound).map_or(Boundedness::Unbounded, Boundedness::Bounded)
    }
}

/// `None` and `Some(0)` become `Unbounded`.
impl From<Option<usize>> for Boundedness<NonZeroUsize> {
    ghost from_gives = { λ n r. bound_number r ≡ option_and_then present n };

    fn from(bound: Option<usize>) -> Self {
        Boundedness::from(bound.unwrap_or(0))
    }
}

/// A value that all matches of a glob share, or the bounds between which it varies.
#[derive(Clone, Copy, Debug, PartialEq, Eq, Hash, Drop)]
pub enum Variance<T, B> {
    Invariant(T),
    Variant(B),
}

impl<T, B> Variance<T, B> {
    /// Returns the shared value, or `None` for `Variant`.
    pub fn invariant(self) -> Option<T>
    where
        B: Drop,
        ensures { result ≡ invariant self }
    {
        match self {
            Variance::Invariant(invariant) => Some(invariant),
            Variance::Variant(_) => None,
        }
    }

    /// Returns the bounds, or `None` for `Invariant`.
    pub fn variant(self) -> Option<B>
    where
        T: Drop,
        ensures { result ≡ variant self }
    {
        match self {
            Variance::Invariant(_) => None,
            Variance::Variant(bound) => Some(bound),
        }
    }

    pub fn as_ref(&self) -> Variance<&T, &B>
        ensures { variance_copied result ≡ self.now }
    {
        match self {
            Variance::Invariant(invariant) => Variance::Invariant(invariant),
            Variance::Variant(bound) => Variance::Variant(bound),
        }
    }

    pub fn is_invariant(&self) -> bool
        ensures { IsTrue result ↔ IsSome (invariant self.now) }
    {
        matches!(self, Variance::Invariant(_))
    }

    pub fn is_variant(&self) -> bool
        ensures { IsTrue result ↔ IsSome (variant self.now) }
    {
        !self.is_invariant()
    }

    /// Applies `f` to an `Invariant` value, and returns a `Variant` unchanged.
    pub fn map_invariant<U, F>(self, f: F) -> Variance<U, B>
    where
        F: FnOnce(T) -> U + Drop,
        requires { ForSome (invariant self) (F.pre f) }
        ensures mapped { IsMapped (F.post f) (invariant self) (invariant result) }
        ensures kept { variant result ≡ variant self }
    {
        match self {
            Variance::Invariant(invariant) => Variance::Invariant(f(invariant)),
            Variance::Variant(bound) => Variance::Variant(bound),
        }
    }

    /// Applies `f` to the bounds of a `Variant`, and returns an `Invariant` unchanged.
    pub fn map_variant<U, F>(self, f: F) -> Variance<T, U>
    where
        F: FnOnce(B) -> U + Drop,
        requires { ForSome (variant self) (F.pre f) }
        ensures mapped { IsMapped (F.post f) (variant self) (variant result) }
        ensures kept { invariant result ≡ invariant self }
    {
        match self {
            Variance::Invariant(invariant) => Variance::Invariant(invariant),
            Variance::Variant(bound) => Variance::Variant(f(bound)),
        }
    }
}

impl<T> Variance<T, T> {
    /// Returns the value of either variant.
    pub fn into_inner(self) -> T
        ensures { result ≡ variance_value self }
    {
        match self {
            Variance::Invariant(inner) | Variance::Variant(inner) => inner,
        }
    }

    /// Applies `f` to the value of either variant, and keeps the variant.
    pub fn map<U, F>(self, f: F) -> Variance<U, U>
    where
        F: FnOnce(T) -> U,
        requires { F.pre f (variance_value self) }
        ensures value { F.post f (variance_value self) (variance_value result) }
        ensures side { IsSome (invariant result) ↔ IsSome (invariant self) }
    {
        match self {
            Variance::Invariant(inner) => Variance::Invariant(f(inner)),
            Variance::Variant(inner) => Variance::Variant(f(inner)),
        }
    }
}

/// The only text that a glob can match, if it is written as one text; otherwise `Variant(())`.
pub type TextVariance<'t> = Variance<CowStr<'t>, ()>;

impl<'t> TextVariance<'t> {
    /// Returns the text as a path, or `None` if it varies.
    pub fn as_path(&self) -> Option<&str>
        ensures { option_copied result ≡ text_of self.now }
    {
        match self {
            Variance::Invariant(text) => Some(text.as_str()),
            Variance::Variant(()) => None,
        }
    }

    /// Returns the text as an owned path, or `None` if it varies. Allocates only if the text is
    /// borrowed.
    pub fn into_path_buf(self, alloc: Global) -> Result<Option<String>, NoMemory>
        ensures path { IfOk result (λ path. option_map string_bytes path ≡ text_of self.entry) }
        ensures varying { IsSome (variant self.entry) → result ≡ Ok None }
    {
        match self {
            Variance::Invariant(text) => Ok(Some(text.into_owned(alloc)?)),
            Variance::Variant(()) => Ok(None),
        }
    }
}
