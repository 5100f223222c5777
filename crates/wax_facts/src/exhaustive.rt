//! Exhaustiveness: whether everything below a match matches, too.
ghost use Rattle.std.specs.Prelude.{◌≡◌, ◌++◌, ◌∷◌, List, ℕ, false};
ghost use Rattle.wax_token.specs.{Meaning.Means, View.leaf_of, Words.trees};
ghost use Rattle.wax_facts.specs.Exhaustive.{leaf_exhaustive, exhaustive, exhaustive_some, exhaustive_last};
ghost use Rattle.wax_query.specs.declared.query.when.When.TheVariants.{Always};

use crate::optional::optional;
use wax_query::query::When;
use wax_token::token::{BranchKind, LeafKind, Token, Topology, Wildcard};

fn leaf_exhaustive(leaf: &LeafKind<'_>) -> When
    ensures { result ≡ leaf_exhaustive (leaf_of leaf.now) }
{
    match leaf {
        LeafKind::Wildcard(wildcard) => match wildcard {
            Wildcard::Tree { has_root: _ } => When::Always,
            _ => When::Never,
        },
        _ => When::Never,
    }
}

/// Returns `Always` if the token matches everything below its matches, too: any match, followed by
/// a `/` and any text. Only the last tokens are looked at, and nothing is promised for `Sometimes`
/// and `Never`.
pub fn is_exhaustive<'t, A>(token: &Token<'t, A>) -> When
    ensures value { result ≡ exhaustive token.now }
    ensures always { result ≡ Always → (s r : List ℕ) → Means token.now false false s
        → Means token.now false false (s ++ 47 ∷ r) }
{
    exhaustive_of(token)
}

#[cycle(end)]
fn exhaustive_of<'t, A>(token: &Token<'t, A>) -> When
    ensures { result ≡ exhaustive token.now }
{
    match token.topology() {
        Topology::Branch(branch) => match branch {
            BranchKind::Alternation(a) => exhaustive_of_branches(a.tokens.as_slice()),
            BranchKind::Concatenation(c) => exhaustive_of_last(c.tokens.as_slice()),
            BranchKind::Repetition(r) => optional(r.lower, exhaustive_of(&r.token)),
        },
        Topology::Leaf(leaf) => leaf_exhaustive(leaf),
    }
}

#[cycle(end)]
#[tactic(auto, using(crate::proofs::Sizes::element_size, crate::proofs::Commons::last_is))]
fn exhaustive_of_last<'t, A>(tokens: &[Token<'t, A>]) -> When
    ensures { result ≡ exhaustive_last (trees tokens.now) }
{
    if tokens.is_empty() {
        return When::Never;
    }
    exhaustive_of(&tokens[tokens.len() - 1])
}

#[cycle(end)]
#[tactic(auto, using(crate::proofs::Sizes::element_size))]
fn exhaustive_of_branches<'t, A>(tokens: &[Token<'t, A>]) -> When
    ensures { result ≡ exhaustive_some (trees tokens.now) }
{
    let mut index = tokens.len();
    if index == 0 {
        return When::Never;
    }
    index -= 1;
    let mut common = exhaustive_of(&tokens[index]);
    while index > 0 {
        index -= 1;
        common = exhaustive_of(&tokens[index]).certainty(common);
    }
    common
}
