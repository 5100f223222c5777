//! Collecting facts from tokens.
ghost use Rattle.std.specs.Prelude.{◌≡◌, ◌<◌, IfOk, IfSome, OnOk, chars, length};
ghost use Rattle.wax_token.specs.Meaning.{LeafMeans, Means, MeansEach, MeansSome};
ghost use Rattle.wax_token.specs.{View.{leaf_of, wildcard_leaf}, Words.trees};
ghost use Rattle.wax_prefilter.specs.Known.{EachContainsOne, FactsOfMatches, EachContains};

use crate::needle::{Anchor, Needle};
use crate::prefilter::Fact;
use std::alloc::{AllocError, Global};
use wax_query::diagnostics::NoMemory;
use wax_token::token::{BranchKind, ExpressionMetadata, LeafKind, Token, Topology, Wildcard};

/// The greatest number of facts that are kept.
const MOST_FACTS: usize = 16;

/// The greatest number of texts of a fact.
pub const MOST_NEEDLES: usize = 256;

/// Returns facts about every text that the tokens match: how it ends, how it begins, and what it
/// contains.
pub fn all_facts<'t>(
    alloc: Global,
    tokens: &[Token<'t, ExpressionMetadata>],
) -> Result<Vec<Fact>, NoMemory>
    ensures { IfOk result (λ facts. FactsOfMatches (trees tokens.now) facts.items) }
{
    let mut facts = Vec::new(alloc);
    let ends = add_affix(alloc, Anchor::End, tokens, &mut facts)?;
    let begins = add_affix(alloc, Anchor::Beginning, tokens, &mut facts)?;
    for i in begins as usize..tokens.len().saturating_sub(ends as usize) {
        if facts.len() >= MOST_FACTS {
            break;
        }
        add_inner(alloc, tokens, i, &mut facts)?;
    }
    Ok(facts)
}

// Adds what the texts contain for one of the tokens, if that is known.
fn add_inner<'t>(
    alloc: Global,
    tokens: &[Token<'t, ExpressionMetadata>],
    i: usize,
    facts: &mut Vec<Fact>,
) -> Result<(), NoMemory>
    requires in_range { i < length tokens.now }
    requires facts { FactsOfMatches (trees tokens.now) facts.old.items }
    ensures { OnOk result (FactsOfMatches (trees tokens.now) facts.new.items) }
{
    let Some(needles) = needles_of(alloc, Anchor::Anywhere, &tokens[i])? else {
        return Ok(());
    };
    Fact::add(facts, Anchor::Anywhere, needles)?;
    Ok(())
}

// Adds how the texts begin or end. Returns whether that is known.
fn add_affix<'t>(
    alloc: Global,
    anchor: Anchor,
    tokens: &[Token<'t, ExpressionMetadata>],
    facts: &mut Vec<Fact>,
) -> Result<bool, NoMemory>
    requires { FactsOfMatches (trees tokens.now) facts.old.items }
    ensures { OnOk result (FactsOfMatches (trees tokens.now) facts.new.items) }
{
    let Some(needles) = needles_of_each(alloc, anchor, tokens)? else {
        return Ok(false);
    };
    Fact::add(facts, anchor, needles)?;
    Ok(true)
}

/// Returns needles of which every matching text has at least one at the anchor, if any are known.
#[cycle(needles_of)]
pub fn needles_of<'t>(
    alloc: Global,
    anchor: Anchor,
    token: &Token<'t, ExpressionMetadata>,
) -> Result<Option<Vec<Needle>>, NoMemory>
    ensures { IfOk result (λ known. IfSome known (λ v.
        EachContainsOne anchor v.items (Means token.now))) }
{
    match token.topology() {
        Topology::Branch(branch) => match branch {
            BranchKind::Alternation(a) => needles_of_some(alloc, anchor, a.tokens.as_slice()),
            BranchKind::Concatenation(c) => needles_of_each(alloc, anchor, c.tokens.as_slice()),
            BranchKind::Repetition(_) => Ok(None),
        },
        Topology::Leaf(leaf) => Ok(needles_of_leaf(alloc, anchor, leaf)?),
    }
}

// Returns the needles of tokens one after another.
#[cycle(needles_of)]
#[tactic(auto, using(crate::proofs::MeantEdges::read_size))]
fn needles_of_each<'t>(
    alloc: Global,
    anchor: Anchor,
    tokens: &[Token<'t, ExpressionMetadata>],
) -> Result<Option<Vec<Needle>>, NoMemory>
    ensures { IfOk result (λ known. IfSome known (λ v.
        EachContainsOne anchor v.items (MeansEach (trees tokens.now)))) }
{
    match anchor {
        Anchor::Beginning => match tokens.first() {
            Some(token) => needles_of(alloc, Anchor::Beginning, token),
            None => Ok(None),
        },
        Anchor::End => match tokens.last() {
            Some(token) => needles_of(alloc, Anchor::End, token),
            None => Ok(None),
        },
        Anchor::Anywhere => needles_of_any(alloc, tokens),
    }
}

// Returns the needles of the first token of which any are known.
#[cycle(needles_of)]
#[tactic(auto, using(wax_token::proofs::Sizes::element_size))]
fn needles_of_any<'t>(
    alloc: Global,
    tokens: &[Token<'t, ExpressionMetadata>],
) -> Result<Option<Vec<Needle>>, NoMemory>
    ensures { IfOk result (λ known. IfSome known (λ v.
        EachContainsOne Anchor.Anywhere v.items (MeansEach (trees tokens.now)))) }
{
    for token in tokens {
        let needles = needles_of(alloc, Anchor::Anywhere, token)?;
        if needles.is_some() {
            return Ok(needles);
        }
    }
    Ok(None)
}

// Returns the needles of all branches together, if they are known for each branch and not too many.
#[cycle(needles_of)]
#[tactic(auto, using(wax_token::proofs::Sizes::element_size))]
fn needles_of_some<'t>(
    alloc: Global,
    anchor: Anchor,
    tokens: &[Token<'t, ExpressionMetadata>],
) -> Result<Option<Vec<Needle>>, NoMemory>
    ensures { IfOk result (λ known. IfSome known (λ v.
        EachContainsOne anchor v.items (MeansSome (trees tokens.now)))) }
{
    let mut all = Vec::new(alloc);
    for token in tokens {
        let Some(mut needles) = needles_of(alloc, anchor, token)? else {
            return Ok(None);
        };
        all.append(&mut needles)?;
        if all.len() > MOST_NEEDLES {
            return Ok(None);
        }
    }
    Ok(Some(all))
}

fn needles_of_leaf(
    alloc: Global,
    anchor: Anchor,
    leaf: &LeafKind<'_>,
) -> Result<Option<Vec<Needle>>, AllocError>
    ensures { IfOk result (λ known. IfSome known (λ v.
        EachContainsOne anchor v.items (LeafMeans (leaf_of leaf.now)))) }
{
    let Some((text, is_case_insensitive)) = text_of(anchor, leaf) else {
        return Ok(None);
    };
    let mut needles = Vec::new(alloc);
    needles.push(Needle::new(alloc, text, is_case_insensitive)?)?;
    Ok(Some(needles))
}

// Returns the text at the anchor, and whether in any case. Returns `None` if testing for it would
// rarely reject a text.
fn text_of<'i>(anchor: Anchor, leaf: &'i LeafKind<'_>) -> Option<(&'i str, bool)>
    ensures { IfSome result (λ t. EachContains anchor (t.1, chars t.0.now) (LeafMeans (leaf_of leaf.now))) }
{
    match leaf {
        LeafKind::Literal(literal) => match anchor {
            Anchor::End if literal.is_case_insensitive() => None,
            _ => Some((literal.text(), literal.is_case_insensitive())),
        },
        LeafKind::Separator(_) => match anchor {
            Anchor::Anywhere => None,
            _ => Some(("/", false)),
        },
        LeafKind::Wildcard(wildcard) => text_of_wildcard(anchor, wildcard),
        LeafKind::Class(_) => None,
    }
}

fn text_of_wildcard(anchor: Anchor, wildcard: &Wildcard) -> Option<(&'static str, bool)>
    ensures { IfSome result (λ t.
        EachContains anchor (t.1, chars t.0.now) (LeafMeans (wildcard_leaf wildcard.now))) }
{
    match wildcard {
        Wildcard::Tree { has_root } => match anchor {
            Anchor::Beginning if *has_root => Some(("/", false)),
            _ => None,
        },
        _ => None,
    }
}
