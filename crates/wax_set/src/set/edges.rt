//! How the texts that a pattern matches begin and end, as far as its first and last tokens show.
ghost use Rattle.std.specs.Prelude.{◌≡◌, ℕ, Bool, List, IfOk, IfSome, IsTrue, chars, string_bytes, false};
ghost use Rattle.wax_set.specs.Sets.{MeansText};
ghost use Rattle.wax_set.specs.inner.Edges.{AreEnds, HasBeginning, HasEdges, HasEnd, HasOneEnd};
ghost use Rattle.wax_token.specs.{Meaning.{Means, MeansEach, MeansSome}, Words.trees};

use std::alloc::{AllocError, Global};
use std::slice;
use wax_query::diagnostics::NoMemory;
use wax_token::token::{BranchKind, ExpressionMetadata, LeafKind, Token};

/// How every text begins and ends that a pattern matches, as far as that is known.
#[derive(Drop)]
pub struct Edges {
    /// The characters with which every text begins.
    pub beginning: String,
    /// Texts of which every text has one at its end, or none if the ends aren't known.
    pub ends: Vec<String>,
}

impl Edges {
    /// Finds the edges of a pattern: the literals and separators with which it begins, and the last
    /// literal, or those of the branches with which it ends. Literals in any case aren't used.
    pub fn new<'t>(
        alloc: Global,
        pattern: &Token<'t, ExpressionMetadata>,
    ) -> Result<Edges, NoMemory>
        ensures { IfOk result (λ edges. (text : List ℕ) → MeansText pattern.now text → HasEdges edges text) }
    {
        let tokens = pattern.concatenation();
        Ok(Edges {
            beginning: beginning_of(alloc, tokens)?,
            ends: ends_of(alloc, tokens)?,
        })
    }

    /// Returns `true` only if no text has both edges.
    pub fn exclude(&self, other: &Edges) -> bool
        ensures { IsTrue result → (text : List ℕ) → HasEdges self.now text → HasEdges other.now text → ⊥ }
    {
        !(may_begin(&self.beginning, &other.beginning) && may_end(&self.ends, &other.ends))
    }
}

/// Returns the text with which every text begins that the tokens match.
fn beginning_of<'t>(
    alloc: Global,
    tokens: &[Token<'t, ExpressionMetadata>],
) -> Result<String, AllocError>
    ensures { IfOk result (λ beginning. (text : List ℕ) → MeansEach (trees tokens.now) false false text
        → HasBeginning (chars (string_bytes beginning)) text) }
{
    let mut beginning = String::new(alloc);
    for token in tokens {
        let Some(text) = only_text(token) else {
            return Ok(beginning);
        };
        beginning.push_str(text)?;
    }
    Ok(beginning)
}

/// Returns texts of which every text that the tokens match has one at its end, or none if they aren't
/// known.
fn ends_of<'t>(
    alloc: Global,
    tokens: &[Token<'t, ExpressionMetadata>],
) -> Result<Vec<String>, AllocError>
    ensures { IfOk result (λ ends. (text : List ℕ) → MeansEach (trees tokens.now) false false text
        → AreEnds ends.items text) }
{
    match tokens.last() {
        Some(token) => ends_of_some(alloc, alternatives_of(token)),
        None => Ok(Vec::new(alloc)),
    }
}

/// Returns the branches of an alternation. For any other token, returns a list of only it.
fn alternatives_of<'a, 't>(
    token: &'a Token<'t, ExpressionMetadata>,
) -> &'a [Token<'t, ExpressionMetadata>]
    ensures { (before after : Bool) (text : List ℕ) → Means token.now before after text
        → MeansSome (trees result.now) before after text }
{
    match token.as_branch() {
        Some(BranchKind::Alternation(alternation)) => alternation.tokens(),
        _ => slice::from_ref(token),
    }
}

/// Returns texts of which every text that one of the tokens matches has one at its end, or none if
/// they aren't known for each token.
fn ends_of_some<'t>(
    alloc: Global,
    tokens: &[Token<'t, ExpressionMetadata>],
) -> Result<Vec<String>, AllocError>
    ensures { IfOk result (λ ends. (before after : Bool) (text : List ℕ)
        → MeansSome (trees tokens.now) before after text → AreEnds ends.items text) }
{
    let mut ends = Vec::new(alloc);
    for token in tokens {
        let Some(end) = end_of(token) else {
            return Ok(Vec::new(alloc));
        };
        ends.push(String::from_str(alloc, end)?)?;
    }
    Ok(ends)
}

/// Returns the text with which every text ends that the token matches, if its last token is a literal
/// or a separator.
fn end_of<'i, 't>(token: &'i Token<'t, ExpressionMetadata>) -> Option<&'i str>
    ensures { IfSome result (λ end. (before after : Bool) (text : List ℕ)
        → Means token.now before after text → HasEnd (chars end.now) text) }
{
    match token.concatenation().last() {
        Some(last) => only_text(last),
        None => None,
    }
}

/// Returns the only text that the token matches, if it is a separator, or a literal that isn't matched
/// in any case.
fn only_text<'i, 't>(token: &'i Token<'t, ExpressionMetadata>) -> Option<&'i str>
    ensures { IfSome result (λ only. (before after : Bool) (text : List ℕ)
        → Means token.now before after text → text ≡ chars only.now) }
{
    match token.as_leaf() {
        Some(LeafKind::Literal(literal)) if !literal.is_case_insensitive() => Some(literal.text()),
        Some(LeafKind::Separator(_)) => Some("/"),
        _ => None,
    }
}

/// Returns `false` only if no text begins with both.
fn may_begin(first: &str, second: &str) -> bool
    ensures { (text : List ℕ) → HasBeginning (chars first.now) text → HasBeginning (chars second.now) text
        → IsTrue result }
{
    let (first, second) = (first.as_bytes(), second.as_bytes());
    first.starts_with(second) || second.starts_with(first)
}

/// Returns `false` only if no text has one of each at its end.
fn may_end(first: &[String], second: &[String]) -> bool
    ensures { (text : List ℕ) → AreEnds first.now text → AreEnds second.now text → IsTrue result }
{
    first.is_empty() || second.is_empty() || some_may_end(first, second)
}

/// Returns `false` only if no text ends with one of each.
fn some_may_end(first: &[String], second: &[String]) -> bool
    ensures { (text : List ℕ) → HasOneEnd first.now text → HasOneEnd second.now text → IsTrue result }
{
    for end in first {
        if one_may_end(end, second) {
            return true;
        }
    }
    false
}

/// Returns `false` only if no text ends with the first and with one of the others.
fn one_may_end(first: &str, others: &[String]) -> bool
    ensures { (text : List ℕ) → HasEnd (chars first.now) text → HasOneEnd others.now text → IsTrue result }
{
    for other in others {
        if both_may_end(first, other) {
            return true;
        }
    }
    false
}

/// Returns `false` only if no text ends with both.
fn both_may_end(first: &str, second: &str) -> bool
    ensures { (text : List ℕ) → HasEnd (chars first.now) text → HasEnd (chars second.now) text
        → IsTrue result }
{
    let (first, second) = (first.as_bytes(), second.as_bytes());
    first.ends_with(second) || second.ends_with(first)
}
