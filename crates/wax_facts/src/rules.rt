//! Types that name a broken rule of expressions and its place.
use thiserror::Error;
use wax_query::diagnostics::{CompositeSpan, CorrelatedSpan, Span};

/// A rule that can be broken. Its `Display` form is the message of the error.
#[derive(Clone, Copy, Debug, PartialEq, Eq, Error)]
pub enum RuleErrorKind {
    /// Error 2: two boundaries are side by side, as in `a//b`.
    #[error("malformed glob expression: adjacent component boundaries `/` or `**`")]
    AdjacentBoundary,
    /// Error 3: a repetition's upper bound is below its lower one or both are zero, as in
    /// `<a:2,1>`.
    #[error("malformed glob expression: incompatible repetition bounds")]
    IncompatibleBounds,
    /// Error 4: a sub-glob is only `**`, as in `{a,**}`.
    #[error("malformed glob expression: singular tree wildcard `**` in branch")]
    SingularTree,
    /// Error 5: a sub-glob begins or ends with `*` or `$` beside another one, as in `*{a,*}`.
    #[error("malformed glob expression: adjacent zero-or-more wildcards `*` or `$`")]
    AdjacentZeroOrMore,
    /// Error 6: whether a match begins at the root depends on the branch, as in `{a,/b}`.
    #[error("malformed glob expression: uncertain or overlapping roots in branch")]
    RootedSubGlob,
    /// Error 7: a repetition of only `*` or `$`, as in `<*:1,>`.
    #[error("malformed glob expression: singular zero-or-more wildcard `*` or `$` in branch")]
    SingularZeroOrMore,
    /// Error 8: a token has a fixed size of 65,536 bytes or more, as in `<a:65536>`.
    #[error("malformed glob expression: oversized invariant expression")]
    OversizedInvariant,
}

/// A broken rule, and the place where it is broken.
#[derive(Drop)]
pub struct Break {
    pub kind: RuleErrorKind,
    pub location: CompositeSpan,
}

/// One side of a token, as its neighbour sees it: the token's span, and whether it has a boundary,
/// or a `*` or `$`, at that side.
#[derive(Clone, Copy)]
pub struct Side {
    pub span: Span,
    pub has_boundary: bool,
    pub has_zero_or_more: bool,
}

/// The kind of a branch. A repetition comes with its lower bound.
#[derive(Clone, Copy)]
pub enum Sort {
    Alternation,
    Repetition(usize),
}

/// The first or the last token of a sub-glob.
#[derive(Clone, Copy)]
pub struct Terminal {
    pub span: Span,
    pub is_boundary: bool,
    pub is_separator: bool,
    pub is_tree: bool,
    pub is_rooting: bool,
    pub is_zero_or_more: bool,
}

/// One way to break a rule: whether a branch does so, which rule it is, and the places that explain
/// the error.
#[derive(Clone, Copy)]
pub struct Row {
    pub holds: bool,
    pub kind: RuleErrorKind,
    pub correlated: CorrelatedSpan,
}
