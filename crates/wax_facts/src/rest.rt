//! The tokens of a glob after its prefix.
ghost use Rattle.std.specs.Prelude.{◌+◌, ◌^◌, ◌<◌, ◌≡◌, ◌∷◌, [], ℕ, IfOk, List, MatchOption, None, Some};
ghost use Rattle.std.specs.Prelude.{◌||◌, nat_lt};
ghost use Rattle.wax_token.specs.{Reads.Span, Syntax.{alternation, repetition}};
ghost use Rattle.wax_token.specs.Words.{annotation_of, members, trees};
ghost use Rattle.wax_facts.specs.{Prefix.opened, Rest.begins_with_tree};
ghost use Rattle.wax_facts.specs.inner.Bodies.{IsInside, AreRestTokens, inside, last_body, open_body};

use crate::opened;
use std::alloc::{AllocError, Global};
use wax_query::diagnostics::Span;
use wax_token::token::{
    BranchKind, ExpressionMetadata, Repetition, Token, Topology, new_branch, new_leaf,
};

/// Returns the tokens after the first `taken` ones of the opened list, and the span of the glob or
/// sub-glob in which these are.
#[tactic(auto, using(crate::proofs::Insides::rest_smaller))]
pub fn rest_of<'t>(
    alloc: Global,
    glob: Token<'t, ExpressionMetadata>,
    taken: usize,
) -> Result<(Vec<Token<'t, ExpressionMetadata>>, Span), AllocError>
    ensures rest { IfOk result (λ r. AreRestTokens glob.entry taken r.0.items r.1) }
    ensures fits { IfOk result (λ r. r.1.0 + r.1.1 < 2 ^ 64) }
{
    let span = glob.annotation().span();
    let mut tokens = into_members(alloc, glob)?;
    match taken_inside(tokens.as_slice(), taken) {
        Some(inside) => match into_last_body(tokens) {
            Some(body) => rest_of(alloc, body, inside),
            None => unreachable!(),
        },
        None => {
            let here = taken.min(tokens.len());
            Ok((tokens.split_off(here)?, span))
        }
    }
}

// Returns the tokens of a concatenation. Any other token becomes a list of only it.
fn into_members<'t>(
    alloc: Global,
    glob: Token<'t, ExpressionMetadata>,
) -> Result<Vec<Token<'t, ExpressionMetadata>>, AllocError>
    ensures { IfOk result (λ tokens. trees tokens.items ≡ members glob.entry) }
{
    let (topology, annotation) = glob.into_parts();
    match topology {
        Topology::Branch(branch) => match branch {
            BranchKind::Concatenation(c) => Ok(c.tokens),
            other => alone(alloc, new_branch(other, annotation)),
        },
        Topology::Leaf(leaf) => alone(alloc, new_leaf(leaf, annotation)),
    }
}

fn alone<'t>(
    alloc: Global,
    token: Token<'t, ExpressionMetadata>,
) -> Result<Vec<Token<'t, ExpressionMetadata>>, AllocError>
    ensures { IfOk result (λ tokens. tokens.items ≡ token.entry ∷ []) }
{
    let mut tokens = Vec::new(alloc);
    tokens.push(token)?;
    Ok(tokens)
}

// Returns how many tokens are taken of the sub-glob in the last token, if the rest is inside it.
fn taken_inside<'t>(tokens: &[Token<'t, ExpressionMetadata>], taken: usize) -> Option<usize>
    ensures { MatchOption result (inside (trees tokens.now) taken ≡ None) (λ k.
        IsInside (trees tokens.now) taken k) }
{
    let (last, before) = tokens.split_last()?;
    let inside = taken.checked_sub(before.len())?;
    if rest_begins_inside(opened::open_body(last)?, inside) {
        return Some(inside);
    }
    None
}

// Returns whether the rest begins inside the sub-glob: whether one of its tokens is taken, or it
// begins with the `**` at which the prefix ends.
fn rest_begins_inside<'t>(body: &Token<'t, ExpressionMetadata>, taken: usize) -> bool
    ensures { result ≡ (nat_lt 0 taken || begins_with_tree (opened body.now)) }
{
    taken > 0 || opened::begins_with_tree(body)
}

// Returns the sub-glob in the last token, if the opened list goes on inside it.
fn into_last_body<'t>(
    mut tokens: Vec<Token<'t, ExpressionMetadata>>,
) -> Option<Token<'t, ExpressionMetadata>>
    ensures { result ≡ last_body (trees tokens.entry.items) }
{
    into_body(tokens.pop()?)
}

// Returns the only branch of an alternation, or the body of a repetition of exactly one copy.
fn into_body<'t>(token: Token<'t, ExpressionMetadata>) -> Option<Token<'t, ExpressionMetadata>>
    ensures { result ≡ open_body token.entry }
{
    let (topology, _) = token.into_parts();
    match topology {
        Topology::Branch(branch) => match branch {
            BranchKind::Alternation(a) => only_branch(a.tokens),
            BranchKind::Repetition(r) => only_copy(r),
            BranchKind::Concatenation(_) => None,
        },
        Topology::Leaf(_) => None,
    }
}

fn only_branch<'t>(
    mut branches: Vec<Token<'t, ExpressionMetadata>>,
) -> Option<Token<'t, ExpressionMetadata>>
    ensures { (s : Span) → result ≡ open_body (alternation s (trees branches.entry.items)) }
{
    if branches.len() != 1 {
        return None;
    }
    branches.pop()
}

fn only_copy<'t>(
    copies: Repetition<'t, ExpressionMetadata>,
) -> Option<Token<'t, ExpressionMetadata>>
    ensures { (s : Span) → result ≡ open_body (repetition s
        copies.entry.token.value copies.entry.lower copies.entry.upper) }
{
    if copies.lower != 1 || copies.upper != Some(1) {
        return None;
    }
    Some(Box::into_inner(copies.token))
}
