//! The rule of adjacent boundaries: two tokens side by side in a concatenation are both `/` or
//! `**`.
ghost use Rattle.std.specs.Prelude.{◌≡◌};
ghost use Rattle.wax_token.specs.{Words.trees, Kinds.{is_boundary_leaf, is_such}};
ghost use Rattle.wax_query.specs.Spans.{span_union};
ghost use Rattle.wax_facts.specs.Rules.{adjacent_span, boundary_breaks, adjacent_boundaries};
ghost use Rattle.wax_rule.specs.FirstBreak.{head_of};

use super::{Break, RuleErrorKind, break_here};
use wax_query::diagnostics::Span;
use wax_token::token::{BranchKind, ExpressionMetadata, Token, Topology};

fn is_boundary<'t>(token: &Token<'t, ExpressionMetadata>) -> bool
    ensures { result ≡ is_such is_boundary_leaf token.now }
{
    match token.topology() {
        Topology::Branch(_) => false,
        Topology::Leaf(leaf) => leaf.is_boundary(),
    }
}

/// Returns the smallest span that contains both. Unlike `SpanExt::union` it can't overflow, since
/// the metadata of a token bounds the end of its span.
fn union(left: &ExpressionMetadata, right: &ExpressionMetadata) -> Span
    ensures { result ≡ span_union left.now right.now }
{
    let (left, right) = (left.span(), right.span());
    let start = left.0.min(right.0);
    let end = (left.0 + left.1).max(right.0 + right.1);
    (start, end - start)
}

/// Returns the span of the two tokens together, if both are boundaries.
fn adjacent_span<'t>(
    left: &Token<'t, ExpressionMetadata>,
    right: &Token<'t, ExpressionMetadata>,
) -> Option<Span>
    ensures { result ≡ adjacent_span left.now right.now }
{
    if is_boundary(left) && is_boundary(right) {
        return Some(union(left.annotation(), right.annotation()));
    }
    None
}

/// Returns the break at the first two adjacent boundaries.
fn adjacent_break<'t>(tokens: &[Token<'t, ExpressionMetadata>]) -> Option<Break>
    ensures { result ≡ head_of (adjacent_boundaries (trees tokens.now)) }
{
    for index in 1..tokens.len() {
        if let Some(span) = adjacent_span(&tokens[index - 1], &tokens[index]) {
            return Some(break_here(RuleErrorKind::AdjacentBoundary, span));
        }
    }
    None
}

/// Returns the break of the rule of adjacent boundaries at this token itself, not inside it.
pub(super) fn boundary_break<'t>(token: &Token<'t, ExpressionMetadata>) -> Option<Break>
    ensures { result ≡ head_of (boundary_breaks token.now) }
{
    match token.as_branch()? {
        BranchKind::Concatenation(c) => adjacent_break(c.tokens.as_slice()),
        _ => None,
    }
}
