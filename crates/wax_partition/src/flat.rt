//! The test for flat trees, as `parse` builds them: no token of a concatenation is a concatenation.
ghost use Rattle.std.specs.Prelude.{◌≡◌};
ghost use Rattle.wax_facts.specs.Orderly.{is_token};
ghost use Rattle.wax_partition.specs.inner.Flatness.{branches_are_flat, is_flat, members_are_flat};
ghost use Rattle.wax_token.specs.Words.{trees};

use wax_token::token::{BranchKind, Token, Topology};

/// Returns whether no token of a concatenation is a concatenation, at any depth.
#[cycle(flat)]
pub fn is_flat<'t, A>(token: &Token<'t, A>) -> bool
    ensures { result ≡ is_flat token.now }
{
    match token.topology() {
        Topology::Branch(branch) => match branch {
            BranchKind::Alternation(a) => branches_are_flat(a.tokens.as_slice()),
            BranchKind::Concatenation(c) => members_are_flat(c.tokens.as_slice()),
            BranchKind::Repetition(r) => is_flat(&r.token),
        },
        Topology::Leaf(_) => true,
    }
}

#[cycle(flat)]
#[tactic(auto, using(wax_token::proofs::Sizes::element_size))]
fn branches_are_flat<'t, A>(tokens: &[Token<'t, A>]) -> bool
    ensures { result ≡ branches_are_flat (trees tokens.now) }
{
    for token in tokens {
        if !is_flat(token) {
            return false;
        }
    }
    true
}

#[cycle(flat)]
#[tactic(auto, using(wax_token::proofs::Sizes::element_size))]
fn members_are_flat<'t, A>(tokens: &[Token<'t, A>]) -> bool
    ensures { result ≡ members_are_flat (trees tokens.now) }
{
    for token in tokens {
        if !is_token(token) || !is_flat(token) {
            return false;
        }
    }
    true
}

// Returns whether the token isn't a concatenation.
fn is_token<'t, A>(token: &Token<'t, A>) -> bool
    ensures { result ≡ is_token token.now }
{
    match token.topology() {
        Topology::Branch(branch) => !matches!(branch, BranchKind::Concatenation(_)),
        Topology::Leaf(_) => true,
    }
}
