//! Folding a token tree. A list of open branches replaces recursion.
ghost use Rattle.std.specs.Prelude.{◌≡◌, ◌++◌, ◌∷◌, [], IfOk, Some, None, Option};
ghost use Rattle.wax_fold.specs.{Branches.{branch_of, picked, tokens_in}, Folded.folded};
ghost use Rattle.wax_fold.specs.inner.BranchFolded.{branch_folded};
ghost use Rattle.wax_fold.specs.inner.OpenBranches.{NextChild, closing, open_branch, with_term};

use crate::walk::folder::Fold;
use crate::walk::sequence::{ChildToken, Parent, Sequencer};
use std::alloc::Global;
use wax_query::diagnostics::NoMemory;
use wax_token::token::{BranchKind, Token, Topology};

/// A branch that is being folded: its chosen tokens, how many of them were visited, and their
/// terms.
#[derive(Drop)]
struct OpenBranch<'i, 't, A, T> {
    branch: &'i BranchKind<'t, A>,
    children: Vec<ChildToken<'i, 't, A>>,
    given: usize,
    terms: Vec<T>,
}

/// Folds a token tree, from the leaves up, and returns the term of its root.
///
/// The term of a leaf is that of `Fold::term`. For a branch, the terms of the tokens that the
/// sequencer chooses are listed in its order, without tokens that have no term, and what
/// `Fold::initialize` returns comes last. `Fold::fold` combines this list, and `Fold::finalize`
/// converts the outcome. If `Fold::fold` returns `None`, the branch has no term.
///
/// Allocates for the terms of a branch and of those around it. Recursion isn't used.
///
/// # Errors
///
/// Returns `NoMemory` if allocation fails, here or in the folder.
#[tactic(auto, using(crate::proofs::Folds::folded_branch))]
pub fn fold<'t, A, F: Fold<'t, A>>(
    alloc: Global,
    token: &Token<'t, A>,
    folder: &mut F,
) -> Result<Option<F::Term>, NoMemory>
    ensures term { IfOk result (λ t. t ≡ folded (F.Sequencer.chosen A) (F.answers folder.old) token.now) }
    ensures same { F.answers folder.new ≡ F.answers folder.old }
{
    match token.topology() {
        Topology::Branch(branch) => fold_branch(alloc, branch, folder),
        Topology::Leaf(leaf) => Ok(Some(folder.term(alloc, leaf)?)),
    }
}

/// Returns the term of a branch.
fn fold_branch<'t, A, F: Fold<'t, A>>(
    alloc: Global,
    branch: &BranchKind<'t, A>,
    folder: &mut F,
) -> Result<Option<F::Term>, NoMemory>
    ensures term { IfOk result (λ t.
        t ≡ branch_folded (F.Sequencer.chosen A) (F.answers folder.old) (branch_of branch.now)) }
    ensures same { F.answers folder.new ≡ F.answers folder.old }
{
    let mut sequencer = F::sequencer();
    let mut outer = Vec::new(alloc);
    let mut current = open(alloc, branch, &mut sequencer)?;
    loop {
        match next_child(&mut current) {
            Some(token) => match token.topology() {
                Topology::Branch(branch) => {
                    let inner = open(alloc, branch, &mut sequencer)?;
                    outer.push(current)?;
                    current = inner;
                }
                Topology::Leaf(leaf) => current.terms.push(folder.term(alloc, leaf)?)?,
            },
            None => {
                let term = close(alloc, current, folder)?;
                match outer.pop() {
                    Some(around) => current = with_term(around, term)?,
                    None => return Ok(term),
                }
            }
        }
    }
}

/// Begins a branch: chooses its tokens, of which none was visited yet.
fn open<'i, 't, A, T, S: Sequencer>(
    alloc: Global,
    branch: &'i BranchKind<'t, A>,
    sequencer: &mut S,
) -> Result<OpenBranch<'i, 't, A, T>, NoMemory>
    ensures { IfOk result (λ o. open_branch o ≡ record {
      branch = branch_of branch.now;
      rest = picked (S.chosen A (branch_of branch.now)) (tokens_in (branch_of branch.now));
      terms = [];
    }) }
{
    let children = sequencer.enqueue(alloc, Parent::new(branch))?;
    Ok(OpenBranch {
        branch,
        children,
        given: 0,
        terms: Vec::new(alloc),
    })
}

/// Returns the next of the branch's tokens.
#[tactic(auto, using(crate::proofs::Picking::next_given))]
fn next_child<'i, 't, A, T>(of: &mut OpenBranch<'i, 't, A, T>) -> Option<&'i Token<'t, A>>
    ensures { NextChild (open_branch of.old) result (open_branch of.new) }
{
    let child = of.children.get(of.given)?;
    of.given += 1;
    Some(*child.as_ref())
}

/// Appends the term of one of the branch's tokens, if that has one.
fn with_term<'i, 't, A, T: Drop>(
    mut of: OpenBranch<'i, 't, A, T>,
    term: Option<T>,
) -> Result<OpenBranch<'i, 't, A, T>, NoMemory>
    ensures { IfOk result (λ o. open_branch o ≡ with_term (open_branch of.entry) term) }
{
    if let Some(term) = term {
        of.terms.push(term)?;
    }
    Ok(of)
}

/// Returns the term of a branch whose tokens were all visited.
fn close<'t, A, F: Fold<'t, A>>(
    alloc: Global,
    of: OpenBranch<'_, 't, A, F::Term>,
    folder: &mut F,
) -> Result<Option<F::Term>, NoMemory>
    ensures term { IfOk result (λ t.
        t ≡ closing (F.answers folder.old) (branch_of of.entry.branch.now) of.entry.terms.items) }
    ensures same { F.answers folder.new ≡ F.answers folder.old }
{
    let OpenBranch {
        branch,
        mut terms,
        ..
    } = of;
    if let Some(term) = folder.initialize(alloc, branch)? {
        terms.push(term)?;
    }
    match folder.fold(alloc, branch, terms)? {
        Some(term) => Ok(Some(folder.finalize(alloc, branch, term)?)),
        None => Ok(None),
    }
}
