//! The results of queries.

pub use wax_query::query::{
    Bounded, BoundedVariantRange, Boundedness, CapturingToken, DepthVariance, LocatedError,
    NaturalRange, Span, TextVariance, Unbounded, Variance, VariantRange, Verdict, When,
};
