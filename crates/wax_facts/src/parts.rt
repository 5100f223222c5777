//! Splitting a glob into its prefix and the rest.
ghost use Rattle.std.specs.Prelude.{◌≡◌, ◌↔◌, ◌∷◌, [], ℕ, IfOk, IfSome, List, MatchOption, None, false};
ghost use Rattle.std.specs.Prelude.{chars, string_bytes};
ghost use Rattle.wax_facts.specs.{Rules.broken, Joined.begins_with_leaf, Orderly.{Flat, Full, Orderly}};
ghost use Rattle.wax_facts.specs.Partition.{BeginsPlainly, IsPartition, IsSplit, MeansAfter, SplitsAll};
ghost use Rattle.wax_facts.specs.{Partition.glob_up_to, Prefix.{IsRooted, opened}, Rest.unrooted};
ghost use Rattle.wax_facts.specs.RootedTrees.{is_rooted_tree};
ghost use Rattle.wax_token.specs.{Meaning.Means, Reads.Reads, Words.trees};

use crate::prefix::invariant_text_prefix;
use crate::rest::rest_of;
use std::alloc::Global;
use wax_query::diagnostics::NoMemory;
use wax_token::token::{
    BranchKind, Concatenation, ExpressionMetadata, LeafKind, Token, Wildcard, new_branch, new_leaf,
};

/// Proves that every token that an expression spells is `Full` and `Flat`, and `Orderly` if it
/// keeps the rules and the expression isn't empty. Does nothing when it runs.
pub fn built_is_orderly<'t>(token: &Token<'t, ExpressionMetadata>)
    ensures read { (e : List ℕ) → Reads e token.now → Full token.now × Flat token.now }
    ensures built { (c : ℕ) (cs : List ℕ) → Reads (c ∷ cs) token.now → broken token.now ≡ []
        → Orderly token.now }
{}

/// Splits a glob into its prefix and the rest, a glob of its own. There is no rest if no token is
/// left.
///
/// The rest reaches from the cut to the end of the sub-glob that has the cut, and a `**` at its
/// beginning loses its `/`. Spans stay those of the whole expression. Takes time and memory
/// proportional to the texts of the tokens.
pub fn partition<'t>(
    alloc: Global,
    token: Token<'t, ExpressionMetadata>,
) -> Result<(String, Option<Token<'t, ExpressionMetadata>>), NoMemory>
    ensures parts { IfOk result (λ r. IsPartition token.entry (chars (string_bytes r.0)) r.1) }
    ensures rest { IfOk result (λ r. IfSome r.1 (λ u. Orderly token.entry → BeginsPlainly token.entry
        → MeansAfter token.entry (chars (string_bytes r.0)) u)) }
    ensures split { IfOk result (λ r. IfSome r.1 (λ u. Orderly token.entry → BeginsPlainly token.entry
        → SplitsAll token.entry (chars (string_bytes r.0)) u)) }
    ensures branch { IfOk result (λ r. IfSome r.1 (λ u. Full token.entry → Flat token.entry
        → IsRooted (opened token.entry) → begins_with_leaf (opened token.entry) ≡ false
        → (s : List ℕ) → Means u false false s ↔ Means token.entry false false s)) }
    ensures whole { IfOk result (λ r. MatchOption r.1 (Full token.entry → Flat token.entry
        → (s : List ℕ) → Means token.entry false false s ↔ (s ≡ chars (string_bytes r.0))) (λ _. Unit {0})) }
    ensures orderly { IfOk result (λ r. IfSome r.1 (λ u. Orderly token.entry → Orderly u)) }
{
    let (prefix, tokens, end) = split_tokens(alloc, token)?;
    Ok((prefix, glob_up_to(end, unrooted(tokens))))
}

/// Splits a glob into its prefix and the tokens after it, unchanged. Also returns the byte of the
/// expression at which the glob or sub-glob of these tokens ends. Takes time and memory
/// proportional to the texts of the tokens.
pub fn split_tokens<'t>(
    alloc: Global,
    token: Token<'t, ExpressionMetadata>,
) -> Result<(String, Vec<Token<'t, ExpressionMetadata>>, usize), NoMemory>
    ensures { IfOk result (λ r.
        IsSplit token.entry (chars (string_bytes r.0)) (trees r.1.items) r.2) }
{
    let (taken, prefix) = invariant_text_prefix(alloc, &token)?;
    let (tokens, owner) = rest_of(alloc, token, taken)?;
    Ok((prefix, tokens, owner.0 + owner.1))
}

// Returns a glob of the tokens. Its span reaches from the first of them to the byte `end`.
fn glob_up_to<'t>(
    end: usize,
    tokens: Vec<Token<'t, ExpressionMetadata>>,
) -> Option<Token<'t, ExpressionMetadata>>
    ensures { result ≡ glob_up_to end (trees tokens.entry.items) }
{
    let start = tokens.first()?.annotation().span().0;
    let span = (start, end.saturating_sub(start));
    let glob = BranchKind::Concatenation(Concatenation { tokens });
    Some(new_branch(glob, ExpressionMetadata::new(span)))
}

// Removes the `/` of a `**` at the beginning.
fn unrooted<'t>(
    mut tokens: Vec<Token<'t, ExpressionMetadata>>,
) -> Vec<Token<'t, ExpressionMetadata>>
    ensures { trees result.items ≡ unrooted (trees tokens.entry.items) }
{
    let Some(first) = tokens.first() else {
        return tokens;
    };
    if is_rooted_tree(first) {
        let here = *first.annotation();
        let leaf = LeafKind::Wildcard(Wildcard::Tree { has_root: false });
        tokens[0] = new_leaf(leaf, here);
    }
    tokens
}

/// Returns whether the token is a `**` with a `/` before it.
pub fn is_rooted_tree<'t>(token: &Token<'t, ExpressionMetadata>) -> bool
    ensures { result ≡ is_rooted_tree token.now }
{
    match token.as_leaf() {
        Some(LeafKind::Wildcard(wildcard)) => {
            matches!(wildcard, Wildcard::Tree { has_root: true })
        }
        _ => false,
    }
}
