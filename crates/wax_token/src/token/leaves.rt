//! Which kind of leaf a leaf is.
ghost use Rattle.std.specs.Prelude.{◌≡◌};
ghost use Rattle.wax_token.specs.Kinds.{is_boundary_leaf, is_capturing_leaf, is_literal_leaf};
ghost use Rattle.wax_token.specs.Kinds.{is_rooting_leaf, is_separator_leaf, is_tree_leaf};
ghost use Rattle.wax_token.specs.{Kinds.is_zero_or_more_leaf, View.leaf_of};

use super::{LeafKind, Wildcard};

impl<'t> LeafKind<'t> {
    pub fn is_literal(&self) -> bool
        ensures { result ≡ is_literal_leaf (leaf_of self.now) }
    {
        matches!(self, LeafKind::Literal(_))
    }

    /// Returns whether the leaf is `/`.
    pub fn is_separator(&self) -> bool
        ensures { result ≡ is_separator_leaf (leaf_of self.now) }
    {
        matches!(self, LeafKind::Separator(_))
    }

    /// Returns whether the leaf is `*` or `$`.
    pub fn is_zero_or_more(&self) -> bool
        ensures { result ≡ is_zero_or_more_leaf (leaf_of self.now) }
    {
        matches!(self, LeafKind::Wildcard(Wildcard::ZeroOrMore(_)))
    }

    /// Returns whether the leaf is `**`.
    pub fn is_tree_wildcard(&self) -> bool
        ensures { result ≡ is_tree_leaf (leaf_of self.now) }
    {
        matches!(self, LeafKind::Wildcard(Wildcard::Tree { has_root: _ }))
    }

    /// Returns whether the leaf is `/` or `**`.
    pub fn is_boundary(&self) -> bool
        ensures { result ≡ is_boundary_leaf (leaf_of self.now) }
    {
        self.is_separator() || self.is_tree_wildcard()
    }

    /// Returns whether the leaf, as the first of a glob, roots it: the leaf is `/`, or a `**` with
    /// a `/` before it.
    pub fn is_rooting(&self) -> bool
        ensures { result ≡ is_rooting_leaf (leaf_of self.now) }
    {
        match self {
            LeafKind::Separator(_) => true,
            LeafKind::Wildcard(Wildcard::Tree { has_root }) => *has_root,
            _ => false,
        }
    }

    /// Returns whether a match captures the leaf's piece, as for a class and a wildcard.
    pub fn is_capturing(&self) -> bool
        ensures { result ≡ is_capturing_leaf (leaf_of self.now) }
    {
        matches!(self, LeafKind::Class(_) | LeafKind::Wildcard(_))
    }
}
