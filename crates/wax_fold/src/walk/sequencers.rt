//! The three sequencers: all tokens, and those with which matches can begin or end.
ghost use Rattle.wax_fold.specs.Sequences.{forward_chosen, starting_chosen, ending_chosen};

use crate::walk::sequence::{ChildToken, ParentToken, Sequencer};
use std::alloc::Global;
use wax_query::diagnostics::NoMemory;
use wax_token::token::BranchKind;

/// Chooses all tokens of each branch, from left to right.
#[derive(Clone, Copy, Debug, Default)]
pub struct Forward;

impl Sequencer for Forward {
    ghost chosen = { λ A. forward_chosen };

    #[tactic(auto, using(crate::proofs::Picking::all_picked))]
    fn enqueue<'i, 't, A>(
        &mut self,
        alloc: Global,
        parent: ParentToken<'i, 't, A>,
    ) -> Result<Vec<ChildToken<'i, 't, A>>, NoMemory> {
        parent.into_tokens(alloc)
    }
}

/// Chooses the first token of each concatenation, all branches of alternations, and the bodies of
/// repetitions.
#[derive(Clone, Copy, Debug, Default)]
pub struct Starting;

impl Sequencer for Starting {
    ghost chosen = { λ A. starting_chosen };

    #[tactic(auto, using(crate::proofs::Picking::all_picked))]
    fn enqueue<'i, 't, A>(
        &mut self,
        alloc: Global,
        parent: ParentToken<'i, 't, A>,
    ) -> Result<Vec<ChildToken<'i, 't, A>>, NoMemory> {
        match **parent.as_ref() {
            BranchKind::Alternation(_) => parent.into_tokens(alloc),
            BranchKind::Concatenation(_) | BranchKind::Repetition(_) => {
                Ok(parent.into_first_token(alloc)?)
            }
        }
    }
}

/// Chooses the last token of each concatenation, all branches of alternations, and the bodies of
/// repetitions.
#[derive(Clone, Copy, Debug, Default)]
pub struct Ending;

impl Sequencer for Ending {
    ghost chosen = { λ A. ending_chosen };

    #[tactic(auto, using(crate::proofs::Picking::all_picked))]
    fn enqueue<'i, 't, A>(
        &mut self,
        alloc: Global,
        parent: ParentToken<'i, 't, A>,
    ) -> Result<Vec<ChildToken<'i, 't, A>>, NoMemory> {
        match **parent.as_ref() {
            BranchKind::Alternation(_) => parent.into_tokens(alloc),
            BranchKind::Concatenation(_) | BranchKind::Repetition(_) => {
                Ok(parent.into_last_token(alloc)?)
            }
        }
    }
}
