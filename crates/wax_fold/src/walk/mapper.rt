//! The trait of maps from trees to trees.
ghost use Rattle.std.specs.Prelude.{◌≡◌, IfOk};
ghost use Rattle.wax_token.specs.View.{leaf_of};
ghost use Rattle.wax_fold.specs.Mapped.{Mapping};

use crate::walk::branch::BranchFold;
use std::alloc::Global;
use wax_query::diagnostics::NoMemory;
use wax_token::token::LeafKind;

/// A map from a token tree to a new one, from the leaves up.
///
/// Law: the result of a call depends only on the folder and the arguments, and no call changes the
/// results of later ones. An `impl` states this for its own `fold` in two clauses, since the
/// checker can't pass on those of a method that takes a list by value.
pub trait FoldMap<'t, A>: Drop {
    /// The type of new tokens.
    type Token: Drop;

    /// The results of all calls, as functions of the arguments.
    ghost answers: { Self → Mapping A Self.Token };

    /// Builds the new token of a branch from the new tokens in it, or returns `None` to remove the
    /// branch.
    fn fold(
        &mut self,
        alloc: Global,
        annotation: A,
        branch: BranchFold,
        tokens: Vec<Self::Token>,
    ) -> Result<Option<Self::Token>, NoMemory>
        ensures answer { IfOk result (λ r. r ≡ (answers self.old).fold annotation branch tokens.items) }
        ensures same { answers self.new ≡ answers self.old };

    /// Builds the new token of a leaf.
    fn map(
        &mut self,
        alloc: Global,
        annotation: A,
        leaf: LeafKind<'t>,
    ) -> Result<Self::Token, NoMemory>
        ensures answer { IfOk result (λ r. r ≡ (answers self.old).map annotation (leaf_of leaf.entry)) }
        ensures same { answers self.new ≡ answers self.old };
}
