//! The tokens of an expression in the order in which they are written.

use std::alloc::{AllocError, Global};
use wax::token::{ExpressionMetadata, Token};

/// A token with its place in the tree.
#[derive(Clone, Copy)]
pub struct Visit<'v, 't> {
    pub token: &'v Token<'t, ExpressionMetadata>,
    /// The number of tokens around it.
    pub depth: usize,
    /// The index of the token around it, from 1; 0 if there is none.
    pub parent: usize,
    /// The number of its capture, from 1; 0 if it doesn't capture.
    pub capture: usize,
}

/// Lists each token before those in it, from left to right. The whole isn't among them if it is a
/// sequence.
pub fn visits<'v, 't>(
    alloc: Global,
    whole: &'v Token<'t, ExpressionMetadata>,
) -> Result<Vec<Visit<'v, 't>>, AllocError> {
    let mut found = Vec::new(alloc);
    let mut left = Vec::new(alloc);
    push_all(&mut left, whole.concatenation(), 0, 0)?;
    let mut captures: usize = 0;
    for index in 1..usize::MAX {
        let Some(mut visit) = left.pop() else {
            break;
        };
        if visit.depth == 0 && visit.token.is_capturing() {
            captures = captures.saturating_add(1);
            visit.capture = captures;
        }
        found.push(visit)?;
        push_below(&mut left, visit.token, visit.depth.saturating_add(1), index)?;
    }
    Ok(found)
}

/// Pushes the tokens in a token, the last one first, so that the first is popped first.
fn push_below<'v, 't>(
    left: &mut Vec<Visit<'v, 't>>,
    token: &'v Token<'t, ExpressionMetadata>,
    depth: usize,
    parent: usize,
) -> Result<(), AllocError> {
    if let Some(alternation) = token.as_alternation() {
        return push_all(left, alternation.tokens(), depth, parent);
    }
    if let Some(sequence) = token.as_concatenation() {
        return push_all(left, sequence.tokens(), depth, parent);
    }
    if let Some(repetition) = token.as_repetition() {
        push(left, repetition.token(), depth, parent)?;
    }
    Ok(())
}

fn push_all<'v, 't>(
    left: &mut Vec<Visit<'v, 't>>,
    tokens: &'v [Token<'t, ExpressionMetadata>],
    depth: usize,
    parent: usize,
) -> Result<(), AllocError> {
    for token in tokens.iter().rev() {
        push(left, token, depth, parent)?;
    }
    Ok(())
}

/// Pushes a token; of a sequence with only one token, that one.
fn push<'v, 't>(
    left: &mut Vec<Visit<'v, 't>>,
    token: &'v Token<'t, ExpressionMetadata>,
    depth: usize,
    parent: usize,
) -> Result<(), AllocError> {
    let token = match token.concatenation() {
        [only] => only,
        _ => token,
    };
    left.push(Visit {
        token,
        depth,
        parent,
        capture: 0,
    })?;
    Ok(())
}
