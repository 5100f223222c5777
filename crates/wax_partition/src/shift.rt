//! Moving the spans of tokens whose expression has lost its beginning.
ghost use Rattle.std.specs.Prelude.{◌≡◌, IfOk};
ghost use Rattle.wax_token.specs.{Reads.Span, View.branch_tree, Words.trees};
ghost use Rattle.wax_rule.specs.Shifted.{shifted_tree, shifted_each, shifted_span};

use std::alloc::{AllocError, Global};
use wax_token::token::{
    Alternation, BranchKind, Concatenation, ExpressionMetadata, Repetition, Token, Topology,
    new_branch, new_leaf,
};

/// Moves the spans of a token and all tokens in it to the left by `bytes`.
#[cycle(shifted)]
pub fn shifted<'t>(
    alloc: Global,
    token: Token<'t, ExpressionMetadata>,
    bytes: usize,
) -> Result<Token<'t, ExpressionMetadata>, AllocError>
    ensures { IfOk result (λ t. t ≡ shifted_tree bytes token.entry) }
{
    let (topology, annotation) = token.into_parts();
    let here = shifted_metadata(annotation, bytes);
    match topology {
        Topology::Branch(branch) => Ok(new_branch(shifted_branch(alloc, branch, bytes)?, here)),
        Topology::Leaf(leaf) => Ok(new_leaf(leaf, here)),
    }
}

fn shifted_metadata(metadata: ExpressionMetadata, bytes: usize) -> ExpressionMetadata
    ensures { result ≡ shifted_span bytes metadata }
{
    let span = metadata.span();
    ExpressionMetadata::new((span.0.saturating_sub(bytes), span.1))
}

#[cycle(shifted)]
fn shifted_branch<'t>(
    alloc: Global,
    branch: BranchKind<'t, ExpressionMetadata>,
    bytes: usize,
) -> Result<BranchKind<'t, ExpressionMetadata>, AllocError>
    ensures { (s : Span) → IfOk result (λ b.
        branch_tree b (shifted_span bytes s) ≡ shifted_tree bytes (branch_tree branch.entry s)) }
{
    match branch {
        BranchKind::Alternation(a) => {
            let tokens = shifted_each(alloc, a.tokens, bytes)?;
            Ok(BranchKind::Alternation(Alternation { tokens }))
        }
        BranchKind::Concatenation(c) => {
            let tokens = shifted_each(alloc, c.tokens, bytes)?;
            Ok(BranchKind::Concatenation(Concatenation { tokens }))
        }
        BranchKind::Repetition(r) => {
            let token = shifted(alloc, Box::into_inner(r.token), bytes)?;
            Ok(BranchKind::Repetition(Repetition {
                token: Box::new(alloc, token)?,
                lower: r.lower,
                upper: r.upper,
            }))
        }
    }
}

/// Moves the spans of each of the tokens to the left by `bytes`.
#[cycle(shifted)]
pub fn shifted_each<'t>(
    alloc: Global,
    mut tokens: Vec<Token<'t, ExpressionMetadata>>,
    bytes: usize,
) -> Result<Vec<Token<'t, ExpressionMetadata>>, AllocError>
    ensures { IfOk result (λ r. trees r.items ≡ shifted_each bytes (trees tokens.entry.items)) }
{
    let mut done = Vec::with_capacity(alloc, tokens.len())?;
    while let Some(token) = tokens.pop() {
        done.push(shifted(alloc, token, bytes)?)?;
    }
    done.reverse();
    Ok(done)
}
