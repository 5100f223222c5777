//! Partition: the prefix of a glob, and the rest as an expression of its own.
ghost use Rattle.std.specs.Prelude.{◌≡◌, ◌≤◌, ◌↔◌, ℕ, false, List, IfOk, IfSome, MatchOption, chars};
ghost use Rattle.std.specs.{Prelude.string_bytes, Cow.cow_str_bytes};
ghost use Rattle.wax_token.specs.{Cost.program_length, Meaning.Means, Words.trees};
ghost use Rattle.wax_facts.specs.{Joined.begins_with_leaf, Orderly.{Flat, Full, Orderly}};
ghost use Rattle.wax_facts.specs.Partition.{BeginsPlainly, MeansAfter, SplitsAll};
ghost use Rattle.wax_facts.specs.Prefix.{IsRooted, opened};
ghost use Rattle.wax_partition.specs.Partition.{IsPartition, rest_glob, rest_text, spelled_rest};
ghost use Rattle.wax_rule.specs.{Keeping.KeepsRules, Shifted.shifted_rest};

use crate::kept::{between, without_slash};
use crate::shift::shifted_each;
use std::alloc::{AllocError, Global};
use std::borrow::CowStr;
use wax_facts::{is_rooted_tree, split_tokens};
use wax_query::diagnostics::NoMemory;
use wax_token::token::{
    BranchKind, Concatenation, ExpressionMetadata, LeafKind, Token, Tokenized, Wildcard,
    new_branch, new_leaf,
};

/// Splits an expression into its prefix and the rest, an expression of its own. There is no rest if
/// no token is left. For `src/*.rs` they are `src/` and `*.rs`.
///
/// The rest reaches from the cut to the end of the glob or sub-glob that has the cut. A `**` at its
/// beginning loses its `/` and keeps its flags. Other flags from before the cut aren't written in
/// the rest, but its tokens keep their effect. Spans are those in the rest.
///
/// Takes time and memory linear in the expression and the texts of its tokens.
pub fn partition<'t>(
    alloc: Global,
    tokenized: Tokenized<'t, ExpressionMetadata>,
) -> Result<(String, Option<Tokenized<'t, ExpressionMetadata>>), NoMemory>
    ensures parts { IfOk result (λ r. IsPartition (chars (cow_str_bytes tokenized.entry.expression))
        tokenized.entry.token (chars (string_bytes r.0)) (spelled_rest r.1)) }
    ensures rest { IfOk result (λ r. IfSome r.1 (λ u. Orderly tokenized.entry.token
        → BeginsPlainly tokenized.entry.token
        → MeansAfter tokenized.entry.token (chars (string_bytes r.0)) u.token)) }
    ensures split { IfOk result (λ r. IfSome r.1 (λ u. Orderly tokenized.entry.token
        → BeginsPlainly tokenized.entry.token
        → SplitsAll tokenized.entry.token (chars (string_bytes r.0)) u.token)) }
    ensures branch { IfOk result (λ r. IfSome r.1 (λ u. Full tokenized.entry.token
        → Flat tokenized.entry.token → IsRooted (opened tokenized.entry.token)
        → begins_with_leaf (opened tokenized.entry.token) ≡ false
        → (s : List ℕ) → Means u.token false false s ↔ Means tokenized.entry.token false false s)) }
    ensures whole { IfOk result (λ r. MatchOption r.1 (Full tokenized.entry.token
        → Flat tokenized.entry.token → (s : List ℕ)
        → Means tokenized.entry.token false false s ↔ (s ≡ chars (string_bytes r.0))) (λ _. Unit {0})) }
    ensures orderly { IfOk result (λ r. IfSome r.1 (λ u.
        Orderly tokenized.entry.token → Orderly u.token)) }
    ensures fits { IfOk result (λ r. IfSome r.1 (λ u. Flat tokenized.entry.token
        → program_length u.token ≤ program_length tokenized.entry.token)) }
    ensures rules { IfOk result (λ r. IfSome r.1 (λ u. Flat tokenized.entry.token
        → KeepsRules tokenized.entry.token → KeepsRules u.token)) }
{
    let (expression, token) = tokenized.into_parts();
    parts(alloc, expression, token)
}

// Apart from `partition`, whose contract has much more to prove.
fn parts<'t>(
    alloc: Global,
    expression: CowStr<'t>,
    token: Token<'t, ExpressionMetadata>,
) -> Result<(String, Option<Tokenized<'t, ExpressionMetadata>>), NoMemory>
    ensures { IfOk result (λ r. IsPartition (chars (cow_str_bytes expression.entry)) token.entry
        (chars (string_bytes r.0)) (spelled_rest r.1)) }
{
    let (prefix, tokens, end) = split_tokens(alloc, token)?;
    Ok((prefix, cut_out(alloc, expression.as_str(), end, tokens)?))
}

// Returns the tokens with their part of the expression, which ends before the byte `end`.
fn cut_out<'t>(
    alloc: Global,
    expression: &str,
    end: usize,
    tokens: Vec<Token<'t, ExpressionMetadata>>,
) -> Result<Option<Tokenized<'t, ExpressionMetadata>>, NoMemory>
    ensures { IfOk result (λ u.
        spelled_rest u ≡ rest_glob (chars expression.now) end (trees tokens.entry.items)) }
{
    let Some(first) = tokens.first() else {
        return Ok(None);
    };
    let text = text_from(alloc, expression, first, end)?;
    let tokens = moved(alloc, tokens)?;
    let glob = BranchKind::Concatenation(Concatenation { tokens });
    let token = new_branch(glob, ExpressionMetadata::new((0, text.len())));
    Ok(Some(Tokenized {
        expression: CowStr::Owned(text),
        token,
    }))
}

// Copies the part of the expression from a token to the byte `end`. A `**` loses its `/`.
fn text_from<'t>(
    alloc: Global,
    expression: &str,
    first: &Token<'t, ExpressionMetadata>,
    end: usize,
) -> Result<String, AllocError>
    ensures { IfOk result (λ t.
        chars (string_bytes t) ≡ rest_text (chars expression.now) end first.now) }
{
    let text = between(alloc, expression, first.annotation().span().0, end)?;
    if is_rooted_tree(first) {
        return without_slash(alloc, text.as_str());
    }
    Ok(text)
}

// Moves the spans, so that the first token begins at 0. A `**` at the beginning loses its `/`.
fn moved<'t>(
    alloc: Global,
    tokens: Vec<Token<'t, ExpressionMetadata>>,
) -> Result<Vec<Token<'t, ExpressionMetadata>>, NoMemory>
    ensures { IfOk result (λ r. trees r.items ≡ shifted_rest (trees tokens.entry.items)) }
{
    let Some(first) = tokens.first() else {
        return Ok(tokens);
    };
    let span = first.annotation().span();
    if !is_rooted_tree(first) {
        return Ok(shifted_each(alloc, tokens, span.0)?);
    }
    let bytes = span.0.checked_add(1).ok_or(NoMemory)?;
    let mut tokens = shifted_each(alloc, tokens, bytes)?;
    let leaf = LeafKind::Wildcard(Wildcard::Tree { has_root: false });
    tokens[0] = new_leaf(leaf, ExpressionMetadata::new((0, span.1.saturating_sub(1))));
    Ok(tokens)
}
