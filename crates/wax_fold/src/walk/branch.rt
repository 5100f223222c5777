//! Kinds of branches without their tokens.
ghost use Rattle.std.specs.{Prelude.{◌≡◌, ◌∷◌, [], IfOk}, Option.option_map};
ghost use Rattle.wax_token.specs.View.{branch_tree};
ghost use Rattle.wax_fold.specs.Branches.{branch_of, composed, repeated};

use std::alloc::{AllocError, Global};
use wax_query::diagnostics::NoMemory;
use wax_token::token::{Alternation, BranchKind, Concatenation, Repetition, Token};

/// The kind of a branch, without its tokens.
#[derive(Clone, Copy, Debug)]
pub enum BranchFold {
    Alternation,
    Concatenation,
    /// The least and the greatest number of copies. `None` is no limit.
    Repetition(usize, Option<usize>),
}

impl BranchFold {
    /// Builds the branch of this kind with these tokens. A repetition takes only the first of them,
    /// and is `None` if there is none. Allocates only for a repetition.
    pub fn fold<'t, A: Drop>(
        self,
        alloc: Global,
        tokens: Vec<Token<'t, A>>,
    ) -> Result<Option<BranchKind<'t, A>>, NoMemory>
        ensures { (a : A) → IfOk result (λ r.
            option_map (λ b. branch_tree b a) r ≡ composed self tokens.entry.items a) }
    {
        match self {
            BranchFold::Alternation => Ok(Some(BranchKind::Alternation(Alternation { tokens }))),
            BranchFold::Concatenation => {
                Ok(Some(BranchKind::Concatenation(Concatenation { tokens })))
            }
            BranchFold::Repetition(lower, upper) => Ok(repetition(alloc, lower, upper, tokens)?),
        }
    }
}

fn repetition<'t, A: Drop>(
    alloc: Global,
    lower: usize,
    upper: Option<usize>,
    tokens: Vec<Token<'t, A>>,
) -> Result<Option<BranchKind<'t, A>>, AllocError>
    ensures { (a : A) → IfOk result (λ r.
        option_map (λ b. branch_tree b a) r ≡ repeated lower upper tokens.entry.items a) }
{
    match tokens.into_iter().next() {
        Some(token) => Ok(Some(BranchKind::Repetition(Repetition {
            token: Box::new(alloc, token)?,
            lower,
            upper,
        }))),
        None => Ok(None),
    }
}

/// Splits a branch into its kind and its tokens.
pub(super) fn decompose<'t, A: Drop>(
    alloc: Global,
    branch: BranchKind<'t, A>,
) -> Result<(BranchFold, Vec<Token<'t, A>>), AllocError>
    ensures { IfOk result (λ r. record { kind = r.0; tokens = r.1.items } ≡ branch_of branch.entry) }
{
    match branch {
        BranchKind::Alternation(alternation) => Ok((BranchFold::Alternation, alternation.tokens)),
        BranchKind::Concatenation(concatenation) => {
            Ok((BranchFold::Concatenation, concatenation.tokens))
        }
        BranchKind::Repetition(repetition) => {
            let mut tokens = Vec::new(alloc);
            tokens.push(Box::into_inner(repetition.token))?;
            Ok((
                BranchFold::Repetition(repetition.lower, repetition.upper),
                tokens,
            ))
        }
    }
}
