//! The prefix: a text with which all matches of a glob begin, cut back to a `/`.
ghost use Rattle.std.specs.Prelude.{◌≡◌, ◌↔◌, ℕ, IfOk, IsTrue, List, chars, false, string_bytes};
ghost use Rattle.wax_token.specs.{Meaning.Means, Words.trees, Kinds.is_tree_wildcard};
ghost use Rattle.wax_facts.specs.{Joined.Front, Prefix.{CutBefore, IsRooted, Prefix, opened_last}};
ghost use Rattle.wax_facts.specs.inner.Opening.{IsOpened};

use crate::invariant::text;
use crate::opened::opened_from;
use crate::root::has_root;
use std::alloc::Global;
use wax_query::diagnostics::NoMemory;
use wax_token::token::{Annotation, LeafKind, Token};

/// Returns how many tokens the prefix of a glob takes, and the prefix.
///
/// The prefix is the text of the tokens before the first one that varies, cut back to the last `/`
/// unless that one is `**`. A last alternation of one branch, or a last repetition of exactly one
/// copy, counts as the tokens in it. If the first token always begins with `/` and varies, the
/// prefix is `/` and takes no token.
///
/// Takes time and memory proportional to the texts of the tokens.
pub fn invariant_text_prefix<'t, A: Annotation>(
    alloc: Global,
    token: &Token<'t, A>,
) -> Result<(usize, String), NoMemory>
    ensures prefix { IfOk result (λ r. Prefix token.now r.0 (chars (string_bytes r.1))) }
    ensures only { IfOk result (λ r. (n : ℕ) (p : List ℕ) → Prefix token.now n p
        → (n ≡ r.0) × (p ≡ chars (string_bytes r.1))) }
    ensures front { IfOk result (λ r. (s : List ℕ)
        → Means token.now false false s → Front (chars (string_bytes r.1)) s) }
{
    let tokens = opened_from(token.concatenation());
    if begins_rooted(alloc, tokens)? {
        return Ok((0, String::from_str(alloc, "/")?));
    }
    cut_prefix(alloc, tokens)
}

// Returns whether the first token varies, but always begins with `/`.
fn begins_rooted<'t, A>(alloc: Global, tokens: &[Token<'t, A>]) -> Result<bool, NoMemory>
    requires { IsOpened (trees tokens.now) }
    ensures { IfOk result (λ b. IsTrue b ↔ IsRooted (opened_last (trees tokens.now))) }
{
    let Some(first) = tokens.first() else {
        return Ok(false);
    };
    if !has_root(first).is_always() {
        return Ok(false);
    }
    Ok(text(alloc, first)?.is_none())
}

// Returns how many tokens are before the cut, and their text.
fn cut_prefix<'t, A: Annotation>(
    alloc: Global,
    tokens: &[Token<'t, A>],
) -> Result<(usize, String), NoMemory>
    requires { IsOpened (trees tokens.now) }
    ensures { IfOk result (λ r.
        CutBefore (opened_last (trees tokens.now)) r.0 (chars (string_bytes r.1))) }
{
    let mut left = tokens;
    let mut taken: usize = 0;
    let mut after_slash = String::new(alloc);
    let mut cut = (0, String::new(alloc));
    while let Some((first, others)) = left.split_first() {
        if first.is_tree_wildcard() {
            break;
        }
        let Some(text) = text(alloc, first)? else {
            return Ok(cut);
        };
        taken = taken.checked_add(1).ok_or(NoMemory)?;
        after_slash.push_str(text.as_str())?;
        if first.is_separator() {
            cut.0 = taken;
            cut.1.push_str(after_slash.as_str())?;
            after_slash.clear();
        }
        left = opened_from(others);
    }
    cut.1.push_str(after_slash.as_str())?;
    Ok((taken, cut.1))
}
