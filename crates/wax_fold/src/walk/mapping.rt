//! Mapping a token tree to a new one. A list of open branches replaces recursion.
ghost use Rattle.std.specs.Prelude.{◌≡◌, ◌++◌, ◌∷◌, [], IfOk, Option, Some, None};
ghost use Rattle.wax_token.specs.View.{branch_tree};
ghost use Rattle.wax_fold.specs.{Branches.{branch_of, tokens_in}, Mapped.mapped};
ghost use Rattle.wax_fold.specs.inner.OpenTokens.{NextToken, open_token, with_token};

use crate::walk::branch::{BranchFold, decompose};
use crate::walk::mapper::FoldMap;
use std::alloc::Global;
use wax_query::diagnostics::NoMemory;
use wax_token::token::{BranchKind, Token, Topology};

/// A branch that is being mapped: its kind, its tokens that are still to be mapped, the last one
/// first, and the new tokens of the others.
#[derive(Drop)]
struct OpenToken<'t, A, X> {
    annotation: A,
    branch: BranchFold,
    rest: Vec<Token<'t, A>>,
    done: Vec<X>,
}

/// Maps a token tree to a new one, from the leaves up, and returns its root.
///
/// A leaf becomes what `FoldMap::map` returns, and a branch what `FoldMap::fold` returns for the
/// new tokens in it, in order, without those that were removed. Returns `None` if the root is
/// removed.
///
/// Allocates for the new tree. Recursion isn't used.
///
/// # Errors
///
/// Returns `NoMemory` if allocation fails, here or in the folder. The token is then dropped.
#[tactic(auto, using(crate::proofs::Maps::mapped_parts))]
pub fn fold_map<'t, A: Drop, F: FoldMap<'t, A>>(
    alloc: Global,
    token: Token<'t, A>,
    folder: &mut F,
) -> Result<Option<F::Token>, NoMemory>
    ensures token { IfOk result (λ r. r ≡ mapped (F.answers folder.old) token.entry) }
    ensures same { F.answers folder.new ≡ F.answers folder.old }
{
    let (topology, annotation) = token.into_parts();
    match topology {
        Topology::Branch(branch) => map_branch(alloc, annotation, branch, folder),
        Topology::Leaf(leaf) => Ok(Some(folder.map(alloc, annotation, leaf)?)),
    }
}

/// Returns the new token of a branch.
fn map_branch<'t, A: Drop, F: FoldMap<'t, A>>(
    alloc: Global,
    annotation: A,
    branch: BranchKind<'t, A>,
    folder: &mut F,
) -> Result<Option<F::Token>, NoMemory>
    ensures token { IfOk result (λ r.
        r ≡ mapped (F.answers folder.old) (branch_tree branch.entry annotation)) }
    ensures same { F.answers folder.new ≡ F.answers folder.old }
{
    let mut outer = Vec::new(alloc);
    let mut current = open(alloc, annotation, branch)?;
    loop {
        match next_token(&mut current) {
            Some(token) => {
                let (topology, annotation) = token.into_parts();
                match topology {
                    Topology::Branch(branch) => {
                        let inner = open(alloc, annotation, branch)?;
                        outer.push(current)?;
                        current = inner;
                    }
                    Topology::Leaf(leaf) => {
                        current.done.push(folder.map(alloc, annotation, leaf)?)?
                    }
                }
            }
            None => {
                let made = close(alloc, current, folder)?;
                match outer.pop() {
                    Some(around) => current = with_token(around, made)?,
                    None => return Ok(made),
                }
            }
        }
    }
}

/// Begins a branch, of whose tokens none was mapped yet.
fn open<'t, A: Drop, X>(
    alloc: Global,
    annotation: A,
    branch: BranchKind<'t, A>,
) -> Result<OpenToken<'t, A, X>, NoMemory>
    ensures { IfOk result (λ o. open_token o ≡ record {
      annotation = annotation;
      kind = (branch_of branch.entry).kind;
      rest = tokens_in (branch_of branch.entry);
      done = [];
    }) }
{
    let (branch, mut rest) = decompose(alloc, branch)?;
    rest.reverse();
    Ok(OpenToken {
        annotation,
        branch,
        rest,
        done: Vec::new(alloc),
    })
}

/// Returns the next of the branch's tokens.
#[tactic(auto, using(crate::proofs::Picking::last_first))]
fn next_token<'t, A: Drop, X: Drop>(of: &mut OpenToken<'t, A, X>) -> Option<Token<'t, A>>
    ensures { NextToken (open_token of.old) result (open_token of.new) }
{
    of.rest.pop()
}

/// Appends the new token of one of the branch's tokens, unless that was removed.
fn with_token<'t, A: Drop, X: Drop>(
    mut of: OpenToken<'t, A, X>,
    token: Option<X>,
) -> Result<OpenToken<'t, A, X>, NoMemory>
    ensures { IfOk result (λ o. open_token o ≡ with_token (open_token of.entry) token) }
{
    if let Some(token) = token {
        of.done.push(token)?;
    }
    Ok(of)
}

/// Returns the new token of a branch whose tokens were all mapped.
fn close<'t, A: Drop, F: FoldMap<'t, A>>(
    alloc: Global,
    of: OpenToken<'t, A, F::Token>,
    folder: &mut F,
) -> Result<Option<F::Token>, NoMemory>
    ensures token { IfOk result (λ r. r
        ≡ (F.answers folder.old).fold of.entry.annotation of.entry.branch of.entry.done.items) }
    ensures same { F.answers folder.new ≡ F.answers folder.old }
{
    let OpenToken {
        annotation,
        branch,
        done,
        ..
    } = of;
    folder.fold(alloc, annotation, branch, done)
}
