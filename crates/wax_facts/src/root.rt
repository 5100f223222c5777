//! Roots: whether all matches begin with `/`.
ghost use Rattle.std.specs.Prelude.{◌≡◌, ◌++◌, ◌∷◌, List, ℕ, false};
ghost use Rattle.wax_query.specs.{Components.BeginsWithSlash, declared.query.when.When.TheVariants.Always};
ghost use Rattle.wax_token.specs.{Meaning.Means, View.leaf_of, Words.trees};
ghost use Rattle.wax_facts.specs.Root.{leaf_root, root, root_some, root_first};

use crate::optional::optional;
use wax_query::query::When;
use wax_token::token::{BranchKind, LeafKind, Token, Topology, Wildcard};

fn leaf_root(leaf: &LeafKind<'_>) -> When
    ensures { result ≡ leaf_root (leaf_of leaf.now) }
{
    match leaf {
        LeafKind::Separator(_) => When::Always,
        LeafKind::Wildcard(wildcard) => match wildcard {
            Wildcard::Tree { has_root } => When::from(*has_root),
            _ => When::Never,
        },
        _ => When::Never,
    }
}

/// Returns `Always` if every path that the token matches begins with `/`. Only the first tokens are
/// looked at, and nothing is promised for `Sometimes` and `Never`: `**` has `Never`, and matches
/// `/a`.
pub fn has_root<'t, A>(token: &Token<'t, A>) -> When
    ensures value { result ≡ root token.now }
    ensures always { result ≡ Always → (s : List ℕ) → Means token.now false false s → BeginsWithSlash s }
{
    root_of(token)
}

#[cycle(find)]
fn root_of<'t, A>(token: &Token<'t, A>) -> When
    ensures { result ≡ root token.now }
{
    match token.topology() {
        Topology::Branch(branch) => match branch {
            BranchKind::Alternation(a) => root_of_branches(a.tokens.as_slice()),
            BranchKind::Concatenation(c) => root_of_first(c.tokens.as_slice()),
            BranchKind::Repetition(r) => optional(r.lower, root_of(&r.token)),
        },
        Topology::Leaf(leaf) => leaf_root(leaf),
    }
}

#[cycle(find)]
#[tactic(auto, using(crate::proofs::Sizes::element_size))]
fn root_of_first<'t, A>(tokens: &[Token<'t, A>]) -> When
    ensures { result ≡ root_first (trees tokens.now) }
{
    if tokens.is_empty() {
        return When::Never;
    }
    root_of(&tokens[0])
}

#[cycle(find)]
#[tactic(auto, using(crate::proofs::Sizes::element_size))]
fn root_of_branches<'t, A>(tokens: &[Token<'t, A>]) -> When
    ensures { result ≡ root_some (trees tokens.now) }
{
    let mut index = tokens.len();
    if index == 0 {
        return When::Never;
    }
    index -= 1;
    let mut common = root_of(&tokens[index]);
    while index > 0 {
        index -= 1;
        common = root_of(&tokens[index]).certainty(common);
    }
    common
}
