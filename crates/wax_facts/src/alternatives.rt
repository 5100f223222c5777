//! The alternatives of a token, listed level by level.
ghost use Rattle.std.specs.Prelude.{◌≡◌, ◌+◌, ◌≤◌, ◌++◌, ◌∷◌, [], IfOk, length};
ghost use Rattle.wax_token.specs.{Syntax.trees_size, Words.trees};
ghost use Rattle.wax_facts.specs.Alternatives.{MeansOneOf, alternatives, joined, levels_each};

use crate::alternatives::opened::{opened, taken_apart};
use std::alloc::{AllocError, Global};
use wax_query::diagnostics::NoMemory;
use wax_token::token::Token;

mod listed;
mod opened;

pub use listed::{Alternative, list_alternatives};

/// Splits a token into its alternatives: it matches a path exactly if one of them does.
///
/// Alternations and concatenations of one token, and repetitions of exactly one copy, are first
/// replaced by the token in them. An alternation is then split into its branches, and these in
/// turn. Branches of a nested alternation follow all others of its level: `{{a,b},c}` becomes `c`,
/// `a` and `b`. Any other token is its only alternative.
///
/// Takes time and memory linear in the tokens.
#[tactic(auto, using(crate::proofs::Means::means_one_of))]
pub fn into_alternatives<'t, A: Drop>(
    alloc: Global,
    token: Token<'t, A>,
) -> Result<Vec<Token<'t, A>>, NoMemory>
    ensures all { IfOk result (λ ts. ts.items ≡ alternatives token.entry) }
    ensures means { IfOk result (λ ts. MeansOneOf token.entry ts.items) }
{
    Ok(alternatives_of(alloc, token)?)
}

#[tactic(auto, using(crate::proofs::Levels::beside_nil))]
fn alternatives_of<'t, A: Drop>(
    alloc: Global,
    token: Token<'t, A>,
) -> Result<Vec<Token<'t, A>>, AllocError>
    ensures { IfOk result (λ ts. ts.items ≡ alternatives token.entry) }
{
    let mut found = Vec::new(alloc);
    let mut level = Vec::new(alloc);
    level.push(token)?;
    while !level.is_empty() {
        level = next_level(alloc, level, &mut found)?;
    }
    Ok(found)
}

// Appends the tokens of a level that aren't alternations to `found`. Returns the branches of the
// others.
#[tactic(auto, using(crate::proofs::Levels::still_first))]
fn next_level<'t, A: Drop>(
    alloc: Global,
    level: Vec<Token<'t, A>>,
    found: &mut Vec<Token<'t, A>>,
) -> Result<Vec<Token<'t, A>>, AllocError>
    ensures all { IfOk result (λ below.
        found.new.items ++ joined (levels_each (trees below.items))
        ≡ found.old.items ++ joined (levels_each (trees level.entry.items))) }
    ensures less { IfOk result (λ below.
        trees_size (trees below.items) + length level.entry.items ≤ trees_size (trees level.entry.items)) }
{
    let mut below = Vec::new(alloc);
    for token in level {
        match taken_apart(opened(token)) {
            Ok(mut branches) => below.append(&mut branches)?,
            Err(token) => found.push(token)?,
        }
    }
    Ok(below)
}
