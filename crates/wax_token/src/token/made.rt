//! Building tokens, and taking them apart.
ghost use Rattle.std.specs.Prelude.{◌≡◌, false, []};
ghost use Rattle.wax_token.specs.{Syntax.{leaf, literal}, View.{leaf_of, branch_tree, topology_tree}};

use super::{BranchKind, LeafKind, Literal, Token, TokenTopology, Topology};
use std::borrow::CowStr;

impl<'t, A> Token<'t, A> {
    /// Creates the token of the empty expression: a case-sensitive literal without characters.
    pub fn empty(annotation: A) -> Self
        ensures { result ≡ leaf annotation (literal false []) }
    {
        new_leaf(
            LeafKind::Literal(Literal::new(CowStr::Borrowed(""), false)),
            annotation,
        )
    }

    /// Splits the token into its shape and its annotation.
    pub fn into_parts(self) -> (TokenTopology<'t, A>, A)
        ensures { topology_tree result.0 result.1 ≡ self.entry }
    {
        let Token {
            topology,
            annotation,
        } = self;
        (topology, annotation)
    }
}

/// The token's annotation is the default one.
impl<'t, A: Default> From<TokenTopology<'t, A>> for Token<'t, A> {
    ghost from_gives = { λ x r. (a : A) × A.is_default a × (r ≡ topology_tree x a) };

    fn from(topology: TokenTopology<'t, A>) -> Self {
        let annotation = A::default();
        Token {
            topology,
            annotation,
        }
    }
}

/// Builds a token from a leaf and an annotation.
pub fn new_leaf<'t, A>(kind: LeafKind<'t>, annotation: A) -> Token<'t, A>
    ensures { result ≡ leaf annotation (leaf_of kind.entry) }
{
    Token {
        topology: Topology::Leaf(kind),
        annotation,
    }
}

/// Builds a token from a branch and an annotation.
pub fn new_branch<'t, A>(kind: BranchKind<'t, A>, annotation: A) -> Token<'t, A>
    ensures { result ≡ branch_tree kind.entry annotation }
{
    Token {
        topology: Topology::Branch(kind),
        annotation,
    }
}
