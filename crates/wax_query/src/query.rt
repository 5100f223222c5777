//! The results of static queries.

mod capturing;
mod range;
mod variance;
mod verdict;
mod when;

pub use crate::diagnostics::{LocatedError, Span};
pub use capturing::CapturingToken;
pub use range::{BoundedVariantRange, DepthVariance, NaturalRange, VariantRange};
pub use variance::Boundedness::{Bounded, Unbounded};
pub use variance::{Boundedness, TextVariance, Variance};
pub use verdict::Verdict;
pub use when::When;
