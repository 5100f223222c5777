//! Places in an expression, pictures of them, and errors of a build.

pub use wax_components::{SemanticLiteralWarning, TerminatingSeparatorWarning, Warning};
pub use wax_query::diagnostics::{
    CompositeSpan, CorrelatedSpan, LocatedError, NoMemory, Refusal, Span, SpanExt, Spanned,
};
pub use wax_rule::picture;
