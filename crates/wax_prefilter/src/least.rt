//! The least length of matching texts.
ghost use Rattle.std.specs.Prelude.{◌≡◌};
ghost use Rattle.wax_token.specs.{Meaning.{LeafMeans, Means, MeansEach, MeansSome}, View.leaf_of};
ghost use Rattle.wax_token.specs.Words.{trees};
ghost use Rattle.wax_prefilter.specs.Known.{IsLeastLength};

use wax_token::token::{BranchKind, ExpressionMetadata, LeafKind, Token, Topology, Wildcard};

/// Returns a number of characters that every text has at least that the tokens match, one after
/// another.
#[cycle(least_of)]
#[tactic(auto, using(wax_token::proofs::Sizes::element_size))]
pub fn least_of_each<'t>(tokens: &[Token<'t, ExpressionMetadata>]) -> usize
    ensures { IsLeastLength result (MeansEach (trees tokens.now)) }
{
    let mut sum: usize = 0;
    for token in tokens {
        sum = sum.saturating_add(least_of(token));
    }
    sum
}

#[cycle(least_of)]
fn least_of<'t>(token: &Token<'t, ExpressionMetadata>) -> usize
    ensures { IsLeastLength result (Means token.now) }
{
    match token.topology() {
        Topology::Branch(branch) => match branch {
            BranchKind::Alternation(a) => least_of_some(a.tokens.as_slice()),
            BranchKind::Concatenation(c) => least_of_each(c.tokens.as_slice()),
            BranchKind::Repetition(r) => least_of(&r.token).saturating_mul(r.lower),
        },
        Topology::Leaf(leaf) => least_of_leaf(leaf),
    }
}

#[cycle(least_of)]
#[tactic(auto, using(wax_token::proofs::Sizes::element_size))]
fn least_of_some<'t>(tokens: &[Token<'t, ExpressionMetadata>]) -> usize
    ensures { IsLeastLength result (MeansSome (trees tokens.now)) }
{
    let mut least = usize::MAX;
    for token in tokens {
        least = least.min(least_of(token));
    }
    least
}

fn least_of_leaf(leaf: &LeafKind<'_>) -> usize
    ensures { IsLeastLength result (LeafMeans (leaf_of leaf.now)) }
{
    match leaf {
        LeafKind::Literal(literal) => literal.text().chars().count(),
        LeafKind::Class(_) => 1,
        LeafKind::Separator(_) => 1,
        LeafKind::Wildcard(wildcard) => match wildcard {
            Wildcard::One => 1,
            _ => 0,
        },
    }
}
