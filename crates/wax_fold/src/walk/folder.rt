//! The trait of folds.
ghost use Rattle.std.specs.Prelude.{◌≡◌, IfOk};
ghost use Rattle.wax_token.specs.View.{leaf_of};
ghost use Rattle.wax_fold.specs.{Branches.branch_of, Folded.Folding};

use crate::walk::sequence::Sequencer;
use std::alloc::Global;
use wax_query::diagnostics::NoMemory;
use wax_token::token::{BranchKind, LeafKind};

/// A computation over a token tree, from the leaves up. Each leaf has a value, its *term*, and the
/// term of a branch is computed from those of its tokens.
///
/// Law: the result of a call depends only on the folder and the arguments, and no call changes the
/// results of later ones. An `impl` states this for its own `fold` in two clauses, since the
/// checker can't pass on those of a method that takes a list by value.
pub trait Fold<'t, A>: Drop {
    /// Which tokens of a branch the fold visits, and in which order.
    type Sequencer: Sequencer;

    /// The value of a token.
    type Term: Drop;

    /// The results of all calls, as functions of the arguments.
    ghost answers: { Self → Folding A Self.Term };

    /// Returns the sequencer of the fold.
    fn sequencer() -> Self::Sequencer;

    /// Returns one more term for a branch, which follows those of its tokens, or `None`.
    fn initialize(
        &mut self,
        alloc: Global,
        branch: &BranchKind<'t, A>,
    ) -> Result<Option<Self::Term>, NoMemory>
        ensures answer { IfOk result (λ r. r ≡ (answers self.old).initialize (branch_of branch.now)) }
        ensures same { answers self.new ≡ answers self.old };

    /// Combines the terms of a branch's tokens into one, or returns `None` if the branch has none.
    fn fold(
        &mut self,
        alloc: Global,
        branch: &BranchKind<'t, A>,
        terms: Vec<Self::Term>,
    ) -> Result<Option<Self::Term>, NoMemory>
        ensures answer { IfOk result (λ r. r ≡ (answers self.old).fold (branch_of branch.now) terms.items) }
        ensures same { answers self.new ≡ answers self.old };

    /// Converts what `fold` returned into the term of the branch.
    fn finalize(
        &mut self,
        alloc: Global,
        branch: &BranchKind<'t, A>,
        term: Self::Term,
    ) -> Result<Self::Term, NoMemory>
        ensures answer { IfOk result (λ r. r ≡ (answers self.old).finalize (branch_of branch.now) term) }
        ensures same { answers self.new ≡ answers self.old };

    /// Returns the term of a leaf.
    fn term(&mut self, alloc: Global, leaf: &LeafKind<'t>) -> Result<Self::Term, NoMemory>
        ensures answer { IfOk result (λ r. r ≡ (answers self.old).term (leaf_of leaf.now)) }
        ensures same { answers self.new ≡ answers self.old };
}

impl<'f, 't, A, F: Fold<'t, A>> Fold<'t, A> for &'f mut F {
    type Sequencer = F::Sequencer;

    type Term = F::Term;

    ghost answers = { λ f. F.answers f.now };

    fn sequencer() -> F::Sequencer {
        F::sequencer()
    }

    fn initialize(
        &mut self,
        alloc: Global,
        branch: &BranchKind<'t, A>,
    ) -> Result<Option<F::Term>, NoMemory> {
        F::initialize(self, alloc, branch)
    }

    fn fold(
        &mut self,
        alloc: Global,
        branch: &BranchKind<'t, A>,
        terms: Vec<F::Term>,
    ) -> Result<Option<F::Term>, NoMemory>
        ensures answer { IfOk result (λ r.
            r ≡ (F.answers self.old.now).fold (branch_of branch.now) terms.items) }
        ensures same { F.answers self.new.now ≡ F.answers self.old.now }
    {
        F::fold(self, alloc, branch, terms)
    }

    fn finalize(
        &mut self,
        alloc: Global,
        branch: &BranchKind<'t, A>,
        term: F::Term,
    ) -> Result<F::Term, NoMemory> {
        F::finalize(self, alloc, branch, term)
    }

    fn term(&mut self, alloc: Global, leaf: &LeafKind<'t>) -> Result<F::Term, NoMemory> {
        F::term(self, alloc, leaf)
    }
}
