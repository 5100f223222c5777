//! Boundaries: the tokens between the components of a path.
ghost use Rattle.std.specs.Prelude.{◌≡◌};
ghost use Rattle.wax_token.specs.Kinds.{leaf_boundary, boundary_of, has_boundary, is_boundary};
ghost use Rattle.wax_token.specs.{Kinds.some_has_boundary, View.leaf_of, Words.trees};

use super::{BranchKind, LeafKind, Token, Topology, Wildcard};

/// A token at which components end: `**`, which is a component itself, or `/`.
#[derive(Clone, Copy, Debug, PartialEq, Eq, Hash)]
pub enum Boundary {
    /// `**`.
    Component,
    /// `/`.
    Separator,
}

impl<'t> LeafKind<'t> {
    /// Returns which boundary the leaf is, or `None` if it is none.
    pub fn boundary(&self) -> Option<Boundary>
        ensures { result ≡ leaf_boundary (leaf_of self.now) }
    {
        match self {
            LeafKind::Separator(_) => Some(Boundary::Separator),
            LeafKind::Wildcard(Wildcard::Tree { has_root: _ }) => Some(Boundary::Component),
            _ => None,
        }
    }
}

impl<'t, A> Token<'t, A> {
    /// Returns which boundary the token is, or `None` if it is none.
    pub fn boundary(&self) -> Option<Boundary>
        ensures { result ≡ boundary_of self.now }
    {
        self.as_leaf()?.boundary()
    }

    /// Returns whether the token is `/` or `**`.
    pub fn is_boundary(&self) -> bool
        ensures { result ≡ is_boundary self.now }
    {
        self.is_separator() || self.is_tree_wildcard()
    }

    /// Returns whether the token is `/` or `**`, or contains one at any depth. Takes time linear in
    /// the number of tokens.
    pub fn has_boundary(&self) -> bool
        ensures { result ≡ has_boundary self.now }
    {
        has_boundary(self)
    }
}

#[cycle(has_boundary)]
fn has_boundary<'t, A>(token: &Token<'t, A>) -> bool
    ensures { result ≡ has_boundary token.now }
{
    match &token.topology {
        Topology::Branch(branch) => match branch {
            BranchKind::Alternation(a) => some_has_boundary(a.tokens.as_slice()),
            BranchKind::Concatenation(c) => some_has_boundary(c.tokens.as_slice()),
            BranchKind::Repetition(r) => has_boundary(&r.token),
        },
        Topology::Leaf(leaf) => leaf.is_boundary(),
    }
}

#[cycle(has_boundary)]
#[tactic(auto, using(crate::proofs::Sizes::element_size))]
fn some_has_boundary<'t, A>(tokens: &[Token<'t, A>]) -> bool
    ensures { result ≡ some_has_boundary (trees tokens.now) }
{
    for token in tokens {
        if has_boundary(token) {
            return true;
        }
    }
    false
}
