//! Which tokens of a branch are visited, and in which order.
ghost use Rattle.std.specs.{Prelude.{◌≡◌, ◌∷◌, [], ℕ, List, IfOk, map}, Option.option_map};
ghost use Rattle.wax_fold.specs.Folded.{listed_term};
ghost use Rattle.wax_fold.specs.Branches.{Branch, branch_of, first_picked, last_picked, picked, tokens_in};

use std::alloc::{AllocError, Global};
use std::marker::Model;
use wax_query::diagnostics::NoMemory;
use wax_token::token::{BranchKind, Token};

/// A branch, as a sequencer gets it. Contracts see its content.
#[derive(Debug, Drop)]
pub struct Parent<T>(T);

impl<T> Model for Parent<T> {
    ghost use Rattle.std.specs.Prelude.{ℕ};

    ghost Value = { T };

    ghost view = { λ p. p.0 };
}

/// A branch whose tokens are to be chosen.
pub type ParentToken<'i, 't, A> = Parent<&'i BranchKind<'t, A>>;

/// A token of a branch, as a sequencer returns it. Only a `Parent` makes them, so a sequencer can't
/// choose tokens of other branches. Contracts see its content.
#[derive(Debug, Drop)]
pub struct Child<T>(T);

impl<T> Model for Child<T> {
    ghost use Rattle.std.specs.Prelude.{ℕ};

    ghost Value = { T };

    ghost view = { λ c. c.0 };
}

/// A token of a branch that can be chosen.
pub type ChildToken<'i, 't, A> = Child<&'i Token<'t, A>>;

impl<T> Parent<T> {
    /// Wraps a branch.
    pub(super) fn new(branch: T) -> Self
        ensures { result ≡ branch }
    {
        Parent(branch)
    }
}

impl<T> AsRef<T> for Parent<T> {
    /// Returns the branch.
    fn as_ref(&self) -> &T
        ensures { result.now ≡ self.now }
    {
        &self.0
    }
}

impl<T> AsRef<T> for Child<T> {
    /// Returns the token.
    fn as_ref(&self) -> &T
        ensures { result.now ≡ self.now }
    {
        &self.0
    }
}

impl<'i, 't, A> Parent<&'i BranchKind<'t, A>> {
    /// Returns all tokens of the branch, in order. Allocates the list.
    pub fn into_tokens(self, alloc: Global) -> Result<Vec<ChildToken<'i, 't, A>>, NoMemory>
        ensures { IfOk result (λ cs. map (λ c. c.now) cs.items ≡ tokens_in (branch_of self.entry.now)) }
    {
        Ok(self.children(alloc)?)
    }

    /// Returns a list of the first token of the branch, if it has one.
    #[tactic(auto, using(crate::proofs::Picking::got))]
    pub(super) fn into_first_token(
        self,
        alloc: Global,
    ) -> Result<Vec<ChildToken<'i, 't, A>>, AllocError>
        ensures { IfOk result (λ cs. map (λ c. c.now) cs.items
            ≡ first_picked (tokens_in (branch_of self.entry.now))) }
    {
        match self.0 {
            BranchKind::Alternation(alternation) => some(alloc, alternation.tokens().first()),
            BranchKind::Concatenation(concatenation) => some(alloc, concatenation.tokens().first()),
            BranchKind::Repetition(repetition) => one(alloc, repetition.token()),
        }
    }

    /// Returns a list of the last token of the branch, if it has one.
    #[tactic(auto, using(crate::proofs::Picking::got))]
    pub(super) fn into_last_token(
        self,
        alloc: Global,
    ) -> Result<Vec<ChildToken<'i, 't, A>>, AllocError>
        ensures { IfOk result (λ cs. map (λ c. c.now) cs.items
            ≡ last_picked (tokens_in (branch_of self.entry.now))) }
    {
        match self.0 {
            BranchKind::Alternation(alternation) => some(alloc, alternation.tokens().last()),
            BranchKind::Concatenation(concatenation) => some(alloc, concatenation.tokens().last()),
            BranchKind::Repetition(repetition) => one(alloc, repetition.token()),
        }
    }

    fn children(self, alloc: Global) -> Result<Vec<ChildToken<'i, 't, A>>, AllocError>
        ensures { IfOk result (λ cs. map (λ c. c.now) cs.items ≡ tokens_in (branch_of self.entry.now)) }
    {
        match self.0 {
            BranchKind::Alternation(alternation) => each(alloc, alternation.tokens()),
            BranchKind::Concatenation(concatenation) => each(alloc, concatenation.tokens()),
            BranchKind::Repetition(repetition) => one(alloc, repetition.token()),
        }
    }
}

fn each<'i, 't, A>(
    alloc: Global,
    tokens: &'i [Token<'t, A>],
) -> Result<Vec<ChildToken<'i, 't, A>>, AllocError>
    ensures { IfOk result (λ cs. map (λ c. c.now) cs.items ≡ tokens.now) }
{
    let mut children = Vec::new(alloc);
    for token in tokens {
        children.push(Child(token))?;
    }
    Ok(children)
}

fn one<'i, 't, A>(
    alloc: Global,
    token: &'i Token<'t, A>,
) -> Result<Vec<ChildToken<'i, 't, A>>, AllocError>
    ensures { IfOk result (λ cs. map (λ c. c.now) cs.items ≡ token.now ∷ []) }
{
    let mut children = Vec::new(alloc);
    children.push(Child(token))?;
    Ok(children)
}

fn some<'i, 't, A>(
    alloc: Global,
    token: Option<&'i Token<'t, A>>,
) -> Result<Vec<ChildToken<'i, 't, A>>, AllocError>
    ensures { IfOk result (λ cs. map (λ c. c.now) cs.items
        ≡ listed_term (option_map (λ t. t.now) token.entry)) }
{
    match token {
        Some(token) => one(alloc, token),
        None => Ok(Vec::new(alloc)),
    }
}

/// A choice of which tokens of a branch are visited, and in which order.
///
/// Law: the choice depends only on the branch.
pub trait Sequencer: Drop {
    /// The indices of the chosen tokens, in order. An index past the last token chooses none.
    ghost chosen: { (A : Type 0) → Branch A → List ℕ };

    /// Returns the chosen tokens, in that order. Allocates the list.
    fn enqueue<'i, 't, A>(
        &mut self,
        alloc: Global,
        parent: ParentToken<'i, 't, A>,
    ) -> Result<Vec<ChildToken<'i, 't, A>>, NoMemory>
        ensures { IfOk result (λ cs. map (λ c. c.now) cs.items
            ≡ picked (chosen A (branch_of parent.entry.now)) (tokens_in (branch_of parent.entry.now))) };
}
