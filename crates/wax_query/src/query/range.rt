//! Ranges of whole numbers.
ghost use Rattle.std.specs.{Prelude.{◌≡◌, ◌<◌, ◌↔◌, IfSome, IsSome, IsTrue, SomeIff}, Option.ForSome};
ghost use Rattle.wax_query.specs.Ranges.{AtMost, Bounds, Fits, IsVariant, IsRangeThatFits, HoldsBoth};
ghost use Rattle.wax_query.specs.Ranges.{HoldsProducts, HoldsShifted, HoldsSums, bound_number, bounds};
ghost use Rattle.wax_query.specs.Ranges.{given_bounds, ordered, present, shifted, product_bounds, range_of};
ghost use Rattle.wax_query.specs.Ranges.{sum_bounds, union_bounds, variant_bounds, variant_range};
ghost use Rattle.wax_query.specs.declared.query.variance.Variance.TheVariants.{Invariant};

use super::variance::Boundedness::{Bounded, Unbounded};
use super::variance::{Boundedness, Variance};
use std::marker::Model;
use std::num::NonZeroUsize;

/// A range from a lower to an upper bound, both inclusive. It has at least one of the two bounds
/// and contains more than one number. Contracts see the two bounds; a lower bound of 0 counts as
/// none.
#[derive(Clone, Copy, Debug, PartialEq, Eq, Hash)]
pub struct BoundedVariantRange {
    lower: usize,
    upper: Option<usize>,
}

impl Model for BoundedVariantRange {
    ghost Value = { Bounds };

    ghost view = { λ r. (r.lower, r.upper) };

    ghost invariant = { λ r. IsVariant (r.lower, r.upper) };

    ghost inverse = { λ r. record { lower = r.0; upper = r.1 } };
}

impl BoundedVariantRange {
    /// Returns the range from `lower` to `upper`, where 0 stands for a missing bound. Returns
    /// `None` if both bounds are missing, or if `upper` isn't greater than `lower`.
    pub fn try_from_lower_and_upper(lower: usize, upper: Option<usize>) -> Option<Self>
        ensures { SomeIff result (IsVariant (given_bounds lower upper)) (given_bounds lower upper) }
    {
        match upper {
            None | Some(0) if lower > 0 => Some(BoundedVariantRange { lower, upper: None }),
            Some(high) if lower < high => Some(BoundedVariantRange { lower, upper }),
            _ => None,
        }
    }

    /// Returns the lower bound, or `Unbounded` if the range begins at 0.
    pub fn lower(&self) -> Boundedness<NonZeroUsize>
        ensures { bound_number result ≡ present self.now.0 }
    {
        non_zero(self.lower)
    }

    /// Returns the upper bound, or `Unbounded` if the range is open above.
    pub fn upper(&self) -> Boundedness<NonZeroUsize>
        ensures { bound_number result ≡ self.now.1 }
    {
        non_zero(self.upper.unwrap_or(0))
    }

    /// Returns the range from the lesser of the two lower bounds to the greater of the two upper
    /// bounds.
    pub fn union(self, other: NaturalRange) -> VariantRange
        ensures bounds { result ≡ variant_range (union_bounds self (bounds other)) }
        ensures members { HoldsBoth self (bounds other) (variant_bounds result) }
    {
        let upper = self.upper.zip(other.upper());
        between(
            self.lower.min(other.lower()),
            upper.map(|(left, right)| left.max(right)),
        )
    }

    /// Adds `vector` to each bound that the range has. Returns `None` if a bound would exceed 64
    /// bits.
    pub fn translation(self, vector: usize) -> Option<Self>
        ensures bounds { SomeIff result (Fits (shifted vector self)) (shifted vector self) }
        ensures members { IfSome result (HoldsShifted vector self) }
    {
        let lower = match self.lower {
            0 => 0,
            lower => lower.checked_add(vector)?,
        };
        let upper = match self.upper {
            None => None,
            Some(upper) => Some(upper.checked_add(vector)?),
        };
        Some(BoundedVariantRange { lower, upper })
    }

    /// Returns the range from 0 to the upper bound.
    pub fn opened_lower_bound(self) -> VariantRange
        ensures { result ≡ variant_range (0, self.1) }
    {
        between(0, self.upper)
    }
}

/// Converts 0, which stands for a missing bound, to `Unbounded`.
fn non_zero(number: usize) -> Boundedness<NonZeroUsize>
    ensures { bound_number result ≡ present number }
{
    NonZeroUsize::new(number).map_or(Unbounded, Bounded)
}

/// Builds a range from bounds that are known to be in order.
fn between(lower: usize, upper: Option<usize>) -> VariantRange
    requires { ForSome upper (λ high. lower < high) }
    ensures { result ≡ variant_range (lower, upper) }
{
    if lower == 0 && upper.is_none() {
        Unbounded
    } else {
        Bounded(BoundedVariantRange { lower, upper })
    }
}

/// A range that contains more than one number; `Unbounded` contains all numbers.
pub type VariantRange = Boundedness<BoundedVariantRange>;

impl VariantRange {
    /// Returns the lower bound, or `Unbounded` if the range begins at 0.
    pub fn lower(&self) -> Boundedness<NonZeroUsize>
        ensures { bound_number result ≡ present (variant_bounds self.now).0 }
    {
        match self {
            Bounded(range) => range.lower(),
            Unbounded => Unbounded,
        }
    }

    /// Returns the upper bound, or `Unbounded` if the range is open above.
    pub fn upper(&self) -> Boundedness<NonZeroUsize>
        ensures { bound_number result ≡ (variant_bounds self.now).1 }
    {
        match self {
            Bounded(range) => range.upper(),
            Unbounded => Unbounded,
        }
    }
}

/// One number, or a range that contains more than one.
pub type NaturalRange = Variance<usize, VariantRange>;

/// The number of components of the paths that a glob matches.
pub type DepthVariance = NaturalRange;

impl NaturalRange {
    /// Returns the range from the lesser of the two numbers to the greater. If `other` is `None`,
    /// the range begins at `closed` and is open above.
    pub fn from_closed_and_open(closed: usize, other: Option<usize>) -> Self
        ensures range { result ≡ range_of (ordered closed other) }
        ensures bounds { bounds result ≡ ordered closed other }
        ensures in_order { AtMost closed other → bounds result ≡ (closed, other) }
    {
        match other {
            Some(other) if other == closed => Variance::Invariant(closed),
            Some(other) => Variance::Variant(between(closed.min(other), Some(closed.max(other)))),
            None => Variance::Variant(between(closed, None)),
        }
    }

    /// Returns the lower bound, or 0 if there is none.
    pub fn lower(&self) -> usize
        ensures { result ≡ (bounds self.now).0 }
    {
        match self {
            Variance::Invariant(number) => *number,
            Variance::Variant(Bounded(range)) => range.lower,
            Variance::Variant(Unbounded) => 0,
        }
    }

    /// Returns the upper bound, or `None` if the range is open above.
    pub fn upper(&self) -> Option<usize>
        ensures value { result ≡ (bounds self.now).1 }
        ensures ordered { AtMost (bounds self.now).0 result }
    {
        match self {
            Variance::Invariant(number) => Some(*number),
            Variance::Variant(Bounded(range)) => range.upper,
            Variance::Variant(Unbounded) => None,
        }
    }

    /// Returns whether 1 is the only number of the range.
    pub fn is_one(&self) -> bool
        ensures { IsTrue result ↔ (self.now ≡ Invariant 1) }
    {
        matches!(self, Variance::Invariant(1))
    }

    /// Returns whether 0 is the only number of the range.
    pub fn is_zero(&self) -> bool
        ensures { IsTrue result ↔ (self.now ≡ Invariant 0) }
    {
        matches!(self, Variance::Invariant(0))
    }

    pub fn has_upper_bound(&self) -> bool
        ensures { IsTrue result ↔ IsSome (bounds self.now).1 }
    {
        self.upper().is_some()
    }

    /// Adds the lower bounds and the upper bounds. The sum contains every sum of a number of `self`
    /// and a number of `other`. Returns `None` if a bound would exceed 64 bits.
    pub fn sum(self, other: Self) -> Option<Self>
        ensures bounds { IsRangeThatFits result (sum_bounds (bounds self) (bounds other)) }
        ensures members { IfSome result (λ r. HoldsSums (bounds self) (bounds other) (bounds r)) }
    {
        let lower = self.lower().checked_add(other.lower())?;
        let upper = match self.upper().zip(other.upper()) {
            None => None,
            Some((left, right)) => Some(left.checked_add(right)?),
        };
        Some(Self::from_closed_and_open(lower, upper))
    }

    /// Multiplies the lower bounds and the upper bounds. The product contains every product of a
    /// number of `self` and a number of `other`; it is 0 if one of the two is 0, even if the other
    /// is open above. Returns `None` if a bound would exceed 64 bits.
    pub fn product(self, other: Self) -> Option<Self>
        ensures bounds { IsRangeThatFits result (product_bounds (bounds self) (bounds other)) }
        ensures members { IfSome result (λ r. HoldsProducts (bounds self) (bounds other) (bounds r)) }
    {
        if self.upper() == Some(0) || other.upper() == Some(0) {
            return Some(Variance::Invariant(0));
        }
        let lower = self.lower().checked_mul(other.lower())?;
        let upper = match self.upper().zip(other.upper()) {
            None => None,
            Some((left, right)) => Some(left.checked_mul(right)?),
        };
        Some(Self::from_closed_and_open(lower, upper))
    }
}
