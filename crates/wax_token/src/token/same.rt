//! Equality of tokens, spans included.
ghost use Rattle.std.specs.{Prelude.{◌≡◌, ◌↔◌, ℕ, IsTrue}, Cmp.partial_equiv_from_equiv};
ghost use Rattle.wax_token.specs.Same.{is_same_expression, is_same_tree, same_expression_equiv};
ghost use Rattle.wax_token.specs.{Same.same_tree_equiv, View.{branch_tree, leaf_of, wildcard_leaf}};

use super::{
    Archetype, BranchKind, Evaluation, ExpressionMetadata, LeafKind, Token, Tokenized, Topology,
    Wildcard,
};

/// Two tokens are equal if their trees and all spans in them are.
impl PartialEq for Token<'_, ExpressionMetadata> {
    ghost eq = { is_same_tree };

    ghost laws = { partial_equiv_from_equiv same_tree_equiv };

    fn eq(&self, other: &Self) -> bool {
        same(self, other)
    }
}

impl Eq for Token<'_, ExpressionMetadata> {
    ghost laws = { same_tree_equiv };
}

/// Two values are equal if their expressions and their tokens are.
impl PartialEq for Tokenized<'_, ExpressionMetadata> {
    ghost eq = { is_same_expression };

    ghost laws = { partial_equiv_from_equiv same_expression_equiv };

    fn eq(&self, other: &Self) -> bool {
        self.expression == other.expression && self.token == other.token
    }
}

impl Eq for Tokenized<'_, ExpressionMetadata> {
    ghost laws = { same_expression_equiv };
}

#[cycle(same)]
fn same(token: &Token<'_, ExpressionMetadata>, other: &Token<'_, ExpressionMetadata>) -> bool
    ensures { IsTrue result ↔ (token.now ≡ other.now) }
{
    if token.annotation.span() != other.annotation.span() {
        return false;
    }
    match &token.topology {
        Topology::Branch(branch) => match &other.topology {
            Topology::Branch(other) => same_branch(branch, other),
            Topology::Leaf(_) => false,
        },
        Topology::Leaf(leaf) => match &other.topology {
            Topology::Branch(_) => false,
            Topology::Leaf(other) => same_leaf(leaf, other),
        },
    }
}

#[cycle(same)]
fn same_branch(
    branch: &BranchKind<'_, ExpressionMetadata>,
    other: &BranchKind<'_, ExpressionMetadata>,
) -> bool
    ensures { (span : ℕ × ℕ) → IsTrue result ↔ (branch_tree branch.now span ≡ branch_tree other.now span) }
{
    match branch {
        BranchKind::Alternation(a) => match other {
            BranchKind::Alternation(b) => same_each(a.tokens.as_slice(), b.tokens.as_slice()),
            _ => false,
        },
        BranchKind::Concatenation(a) => match other {
            BranchKind::Concatenation(b) => same_each(a.tokens.as_slice(), b.tokens.as_slice()),
            _ => false,
        },
        BranchKind::Repetition(a) => match other {
            BranchKind::Repetition(b) => {
                a.lower == b.lower && a.upper == b.upper && same(&a.token, &b.token)
            }
            _ => false,
        },
    }
}

#[cycle(same)]
#[tactic(auto, using(crate::proofs::Sizes::element_size))]
fn same_each(
    tokens: &[Token<'_, ExpressionMetadata>],
    others: &[Token<'_, ExpressionMetadata>],
) -> bool
    ensures { IsTrue result ↔ (tokens.now ≡ others.now) }
{
    if tokens.len() != others.len() {
        return false;
    }
    for index in 0..tokens.len() {
        if !same(&tokens[index], &others[index]) {
            return false;
        }
    }
    true
}

fn same_leaf(leaf: &LeafKind<'_>, other: &LeafKind<'_>) -> bool
    ensures { IsTrue result ↔ (leaf_of leaf.now ≡ leaf_of other.now) }
{
    match leaf {
        LeafKind::Class(a) => match other {
            LeafKind::Class(b) => {
                a.is_negated == b.is_negated && same_archetypes(a.archetypes(), b.archetypes())
            }
            _ => false,
        },
        LeafKind::Literal(a) => match other {
            LeafKind::Literal(b) => {
                a.is_case_insensitive == b.is_case_insensitive && a.text.as_str() == b.text.as_str()
            }
            _ => false,
        },
        LeafKind::Separator(_) => match other {
            LeafKind::Separator(_) => true,
            _ => false,
        },
        LeafKind::Wildcard(a) => match other {
            LeafKind::Wildcard(b) => same_wildcard(*a, *b),
            _ => false,
        },
    }
}

fn same_wildcard(wildcard: Wildcard, other: Wildcard) -> bool
    ensures { IsTrue result ↔ (wildcard_leaf wildcard ≡ wildcard_leaf other) }
{
    match (wildcard, other) {
        (Wildcard::One, Wildcard::One) => true,
        (Wildcard::ZeroOrMore(Evaluation::Eager), Wildcard::ZeroOrMore(Evaluation::Eager)) => true,
        (Wildcard::ZeroOrMore(Evaluation::Lazy), Wildcard::ZeroOrMore(Evaluation::Lazy)) => true,
        (Wildcard::Tree { has_root: a }, Wildcard::Tree { has_root: b }) => a == b,
        _ => false,
    }
}

fn same_archetypes(archetypes: &[Archetype], others: &[Archetype]) -> bool
    ensures { IsTrue result ↔ (archetypes.now ≡ others.now) }
{
    if archetypes.len() != others.len() {
        return false;
    }
    for index in 0..archetypes.len() {
        if !same_archetype(archetypes[index], others[index]) {
            return false;
        }
    }
    true
}

fn same_archetype(archetype: Archetype, other: Archetype) -> bool
    ensures { IsTrue result ↔ (archetype ≡ other) }
{
    match (archetype, other) {
        (Archetype::Character(a), Archetype::Character(b)) => a == b,
        (Archetype::Range(a, b), Archetype::Range(c, d)) => a == c && b == d,
        _ => false,
    }
}
