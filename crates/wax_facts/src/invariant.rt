//! The only text that a token matches, if it is written as one.
ghost use Rattle.std.specs.Prelude.{◌≡◌, ◌∷◌, [], ℕ, IfOk, IfSome, List, MatchOption, None, false, true};
ghost use Rattle.std.specs.Prelude.{chars, string_bytes};
ghost use Rattle.wax_token.specs.{Meaning.Means, Syntax.{class, literal}, View.leaf_of, Words.trees};
ghost use Rattle.wax_facts.specs.InvariantText.{IsRepeated, LeafText, NoText, Text, TextOfAll, TextOfEach};
ghost use Rattle.wax_facts.specs.InvariantText.{Variant};

mod class;
mod fold;

use crate::invariant::class::only_character;
use crate::invariant::fold::all_fold_alone;
pub use crate::invariant::fold::has_variant_casing;
use std::alloc::{AllocError, Global};
use wax_query::diagnostics::NoMemory;
use wax_token::token::{BranchKind, Class, LeafKind, Literal, Repetition, Token, Topology};

/// Returns the only text that the token matches, or `None` if it isn't written as one text. It is,
/// if all its tokens are literals, `/`, classes of one character, alternations whose branches are
/// one text, and repetitions with one number of copies. A literal with the flag `i` counts only if
/// none of its characters has another case.
///
/// An alternation without branches, which matches nothing, has the empty text.
///
/// Takes time and memory proportional to the text, once for each branch around it. `<a:65535>` has
/// a long one.
pub fn text<'t, A>(alloc: Global, token: &Token<'t, A>) -> Result<Option<String>, NoMemory>
    ensures exact { IfOk result (λ found. MatchOption found (Variant token.now) (λ t.
        Text token.now (chars (string_bytes t)))) }
    ensures only { IfOk result (λ found. IfSome found (λ t. (s : List ℕ)
        → Means token.now false false s → s ≡ chars (string_bytes t))) }
{
    Ok(find_text(alloc, token)?)
}

#[cycle(find_text)]
fn find_text<'t, A>(alloc: Global, token: &Token<'t, A>) -> Result<Option<String>, AllocError>
    ensures { IfOk result (λ found. MatchOption found (Variant token.now) (λ t.
        Text token.now (chars (string_bytes t)))) }
{
    match token.topology() {
        Topology::Branch(branch) => match branch {
            BranchKind::Alternation(a) => text_of_all(alloc, a.tokens.as_slice()),
            BranchKind::Concatenation(c) => text_of_each(alloc, c.tokens.as_slice()),
            BranchKind::Repetition(r) => text_of_copies(alloc, r),
        },
        Topology::Leaf(leaf) => text_of_leaf(alloc, leaf),
    }
}

// Returns the text of the branches, if all of them have this one.
#[cycle(find_text)]
#[tactic(auto, using(crate::proofs::Sizes::element_size))]
fn text_of_all<'t, A>(alloc: Global, tokens: &[Token<'t, A>]) -> Result<Option<String>, AllocError>
    ensures { IfOk result (λ found. MatchOption found (NoText (TextOfAll (trees tokens.now))) (λ t.
        TextOfAll (trees tokens.now) (chars (string_bytes t)))) }
{
    let Some((first, others)) = tokens.split_first() else {
        return Ok(Some(String::new(alloc)));
    };
    let Some(text) = find_text(alloc, first)? else {
        return Ok(None);
    };
    for token in others {
        let Some(other) = find_text(alloc, token)? else {
            return Ok(None);
        };
        if other != text {
            return Ok(None);
        }
    }
    Ok(Some(text))
}

// Returns the joined texts of tokens one after another.
#[cycle(find_text)]
#[tactic(auto, using(crate::proofs::Sizes::element_size))]
fn text_of_each<'t, A>(alloc: Global, tokens: &[Token<'t, A>]) -> Result<Option<String>, AllocError>
    ensures { IfOk result (λ found. MatchOption found (NoText (TextOfEach (trees tokens.now))) (λ t.
        TextOfEach (trees tokens.now) (chars (string_bytes t)))) }
{
    let mut joined = String::new(alloc);
    for token in tokens {
        let Some(text) = find_text(alloc, token)? else {
            return Ok(None);
        };
        joined.push_str(text.as_str())?;
    }
    Ok(Some(joined))
}

// Returns the text of the body, repeated. There is none if the number of copies varies.
#[cycle(find_text)]
fn text_of_copies<'t, A>(
    alloc: Global,
    copies: &Repetition<'t, A>,
) -> Result<Option<String>, AllocError>
    ensures { IfOk result (λ found. MatchOption found
        (NoText (IsRepeated (Text copies.now.token.value) copies.now.lower copies.now.upper)) (λ t.
        IsRepeated (Text copies.now.token.value) copies.now.lower copies.now.upper
        (chars (string_bytes t)))) }
{
    if copies.upper != Some(copies.lower) {
        return Ok(None);
    }
    let Some(text) = find_text(alloc, &copies.token)? else {
        return Ok(None);
    };
    Ok(Some(text.as_str().repeat(alloc, copies.lower)?))
}

fn text_of_leaf(alloc: Global, leaf: &LeafKind<'_>) -> Result<Option<String>, AllocError>
    ensures { IfOk result (λ found. MatchOption found (NoText (LeafText (leaf_of leaf.now))) (λ t.
        LeafText (leaf_of leaf.now) (chars (string_bytes t)))) }
{
    match leaf {
        LeafKind::Separator(_) => Ok(Some(String::from_str(alloc, "/")?)),
        LeafKind::Literal(literal) => text_of_literal(alloc, literal),
        LeafKind::Class(class) => text_of_class(alloc, class),
        LeafKind::Wildcard(_) => Ok(None),
    }
}

fn text_of_class(alloc: Global, set: &Class) -> Result<Option<String>, AllocError>
    ensures { IfOk result (λ found. MatchOption found
        (NoText (LeafText (class set.now.0 set.now.1))) (λ t.
        LeafText (class set.now.0 set.now.1) (chars (string_bytes t)))) }
{
    let Some(c) = only_character(set) else {
        return Ok(None);
    };
    let mut text = String::new(alloc);
    text.push(c)?;
    Ok(Some(text))
}

fn text_of_literal(alloc: Global, written: &Literal<'_>) -> Result<Option<String>, AllocError>
    ensures { IfOk result (λ found. MatchOption found
        (NoText (LeafText (literal written.now.0 written.now.1))) (λ t.
        LeafText (literal written.now.0 written.now.1) (chars (string_bytes t)))) }
{
    if written.is_case_insensitive() && !all_fold_alone(written.text()) {
        return Ok(None);
    }
    Ok(Some(String::from_str(alloc, written.text())?))
}
