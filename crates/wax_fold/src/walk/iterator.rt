//! Walks: iterators over the tokens of a tree, breadth first.
ghost use Rattle.std.specs.Prelude.{◌≡◌, ◌++◌, ◌∷◌, ◌<◌, [], ℕ, MatchResult, OnOk, Option, Some, None, map};
ghost use Rattle.std.specs.{Iterator.at_most, List.Sorted.IsPermutation};
ghost use Rattle.wax_token.specs.Syntax.{tree_size};
ghost use Rattle.wax_fold.specs.Order.{disjuncts, children, conjuncts, level, placed, root_entry, tree_order};
ghost use Rattle.wax_fold.specs.Branches.{branch_of};
ghost use Rattle.wax_fold.specs.Sequences.{forward_chosen, starting_chosen, ending_chosen};
ghost use Rattle.wax_fold.specs.Subtrees.{subtrees};
ghost use Rattle.wax_fold.specs.inner.WalkSteps.{StepsToEnd, GivesEntry, TakesFirst, gone_below};
ghost use Rattle.wax_fold.specs.Walking.{Nexts, walk_begun, below, cancelled, walk_entry, items_left};
ghost use Rattle.wax_fold.specs.Walking.{to_come, walking};

use crate::walk::entry::{Depth, Position, TokenEntry, WalkEntry};
use crate::walk::sequence::{ChildToken, Parent, Sequencer};
use crate::walk::sequencers::{Ending, Forward, Starting};
use std::alloc::{AllocError, Global};
use std::collections::VecDeque;
use wax_query::diagnostics::NoMemory;
use wax_token::token::{BranchKind, Token, TokenTree, Topology};

/// An iterator over the tokens of a tree, breadth first: it yields all tokens of a level before
/// those of the next level. The sequencer chooses which tokens of a branch it visits. If allocation
/// fails, it yields one `NoMemory` and then ends.
#[derive(Drop)]
pub struct Walk<'i, 't, A, S> {
    alloc: Global,
    sequencer: S,
    first: Option<TokenEntry<'i, 't, A>>,
    queue: VecDeque<TokenEntry<'i, 't, A>>,
    current: Option<TokenEntry<'i, 't, A>>,
}

impl<'i, 't, A, S: Sequencer> Walk<'i, 't, A, S> {
    /// Skips the tokens inside the one that was yielded last, and no others.
    pub fn cancel_walk_tree(&mut self)
        ensures rest { walking self.new ≡ cancelled (walking self.old) }
        ensures left_out { IsPermutation (to_come (S.chosen A) (walking self.old))
            (to_come (S.chosen A) (walking self.new) ++ below (S.chosen A) (walking self.old)) }
    {
        self.current = None;
    }
}

impl<'i, 't, A, S: Sequencer> Iterator for Walk<'i, 't, A, S> {
    type Item = Result<TokenEntry<'i, 't, A>, NoMemory>;

    ghost next_gives = { λ s r t. Nexts (S.chosen A) (walking s) r (walking t) };

    ghost remaining = { λ s. at_most (items_left (S.chosen A) (walking s)) };

    fn next(&mut self) -> Option<Result<TokenEntry<'i, 't, A>, NoMemory>> {
        match self.go_below() {
            Ok(()) => Some(Ok(self.give()?)),
            Err(NoMemory) => Some(Err(NoMemory)),
        }
    }
}

impl<'i, 't, A, S: Sequencer> Walk<'i, 't, A, S> {
    /// Appends the tokens inside the current one to the queue. This happens only when the next
    /// token is requested, so that a caller can cancel it before.
    fn go_below(&mut self) -> Result<(), NoMemory>
        ensures { MatchResult result (λ _. walking self.new ≡ gone_below (S.chosen A) (walking self.old))
            (λ _. StepsToEnd (walking self.old) (walking self.new)) }
    {
        let Some(current) = self.current.take() else {
            return Ok(());
        };
        match push_children(self.alloc, &mut self.queue, &current, &mut self.sequencer) {
            Ok(()) => Ok(()),
            Err(NoMemory) => {
                self.first = None;
                self.queue.clear();
                Err(NoMemory)
            }
        }
    }
}

impl<'i, 't, A, S> Walk<'i, 't, A, S> {
    /// Takes the next token, which becomes the current one.
    fn give(&mut self) -> Option<TokenEntry<'i, 't, A>>
        ensures { GivesEntry (walking self.old) result (walking self.new) }
    {
        let entry = self.take_first()?;
        self.current = Some(WalkEntry {
            position: entry.position,
            token: entry.token,
        });
        Some(entry)
    }

    fn take_first(&mut self) -> Option<TokenEntry<'i, 't, A>>
        ensures { TakesFirst (walking self.old) result (walking self.new) }
    {
        match self.first.take() {
            Some(first) => Some(first),
            None => self.queue.pop_front(),
        }
    }
}

/// Appends the tokens in a token that the sequencer chooses.
#[tactic(auto, using(crate::proofs::Levels::children_of_branch))]
fn push_children<'i, 't, A, S: Sequencer>(
    alloc: Global,
    queue: &mut VecDeque<TokenEntry<'i, 't, A>>,
    entry: &TokenEntry<'i, 't, A>,
    sequencer: &mut S,
) -> Result<(), NoMemory>
    ensures { OnOk result (map walk_entry queue.new.items
        ≡ map walk_entry queue.old.items ++ children (S.chosen A) (walk_entry entry.now)) }
{
    let token: &'i Token<'t, A> = entry.token;
    match token.topology() {
        Topology::Branch(branch) => {
            let chosen = sequencer.enqueue(alloc, Parent::new(branch))?;
            Ok(push_chosen(queue, branch, entry.position, chosen.as_slice())?)
        }
        Topology::Leaf(_) => Ok(()),
    }
}

/// Appends tokens of a branch at the position.
fn push_chosen<'i, 't, A>(
    queue: &mut VecDeque<TokenEntry<'i, 't, A>>,
    branch: &BranchKind<'t, A>,
    position: Position,
    chosen: &[ChildToken<'i, 't, A>],
) -> Result<(), AllocError>
    ensures { OnOk result (map walk_entry queue.new.items ≡ map walk_entry queue.old.items
        ++ placed (branch_of branch.now).kind position (map (λ c. c.now) chosen.now)) }
{
    match branch {
        BranchKind::Alternation(_) => push_alternatives(queue, position, chosen),
        BranchKind::Concatenation(_) => push_conjuncts(queue, position, chosen),
        BranchKind::Repetition(_) => push_conjuncts(queue, position, chosen),
    }
}

fn push_alternatives<'i, 't, A>(
    queue: &mut VecDeque<TokenEntry<'i, 't, A>>,
    position: Position,
    chosen: &[ChildToken<'i, 't, A>],
) -> Result<(), AllocError>
    ensures { OnOk result (map walk_entry queue.new.items ≡ map walk_entry queue.old.items
        ++ disjuncts position 0 (map (λ c. c.now) chosen.now)) }
{
    for (branch, child) in chosen.iter().enumerate() {
        queue.push_back(WalkEntry {
            position: position.disjunction(branch),
            token: *child.as_ref(),
        })?;
    }
    Ok(())
}

fn push_conjuncts<'i, 't, A>(
    queue: &mut VecDeque<TokenEntry<'i, 't, A>>,
    position: Position,
    chosen: &[ChildToken<'i, 't, A>],
) -> Result<(), AllocError>
    ensures { OnOk result (map walk_entry queue.new.items ≡ map walk_entry queue.old.items
        ++ conjuncts position (map (λ c. c.now) chosen.now)) }
{
    for child in chosen {
        queue.push_back(WalkEntry {
            position: position.conjunction(),
            token: *child.as_ref(),
        })?;
    }
    Ok(())
}

/// Walks through the tokens that a sequencer chooses, breadth first. The root of the tree comes
/// first. Doesn't allocate before the second call of `next`.
#[tactic(auto, using(crate::proofs::Levels::no_deeper))]
pub fn with_sequence<'i, 't, T: TokenTree<'t>, S: Sequencer>(
    alloc: Global,
    tree: &'i T,
    sequencer: S,
) -> Walk<'i, 't, T::Annotation, S>
    ensures all { to_come (S.chosen T.Annotation) (walking result)
        ≡ tree_order (S.chosen T.Annotation) (T.token tree.now) }
    ensures start { walking result ≡ walk_begun (T.token tree.now) }
    // no level is missing
    ensures deepest { (n : ℕ) → tree_size (T.token tree.now) < n
        → level (S.chosen T.Annotation) n (root_entry (T.token tree.now) ∷ []) ≡ [] }
{
    Walk {
        alloc,
        sequencer,
        first: Some(WalkEntry {
            position: Position {
                depth: Depth {
                    conjunctive: 0,
                    disjunctive: 0,
                },
                branch: 0,
            },
            token: tree.as_token(),
        }),
        queue: VecDeque::new(alloc),
        current: None,
    }
}

/// Walks through all tokens of the tree, each once, breadth first.
#[tactic(auto, using(crate::proofs::Whole::each_once))]
pub fn forward<'i, 't, T: TokenTree<'t>>(
    alloc: Global,
    tree: &'i T,
) -> Walk<'i, 't, T::Annotation, Forward>
    ensures all { to_come forward_chosen (walking result) ≡ tree_order forward_chosen (T.token tree.now) }
    ensures start { walking result ≡ walk_begun (T.token tree.now) }
    ensures each_once { IsPermutation (subtrees (T.token tree.now))
        (map (λ e. e.token) (tree_order forward_chosen (T.token tree.now))) }
{
    with_sequence(alloc, tree, Forward)
}

/// Walks through the tokens with which matches can begin, breadth first: the root of the tree, and
/// of each token that is yielded the first token of a concatenation, all branches of an
/// alternation, or the body of a repetition.
pub fn starting<'i, 't, T: TokenTree<'t>>(
    alloc: Global,
    tree: &'i T,
) -> Walk<'i, 't, T::Annotation, Starting>
    ensures all { to_come starting_chosen (walking result) ≡ tree_order starting_chosen (T.token tree.now) }
    ensures start { walking result ≡ walk_begun (T.token tree.now) }
{
    with_sequence(alloc, tree, Starting)
}

/// Walks through the tokens with which matches can end, breadth first: the root of the tree, and of
/// each token that is yielded the last token of a concatenation, all branches of an alternation, or
/// the body of a repetition.
pub fn ending<'i, 't, T: TokenTree<'t>>(
    alloc: Global,
    tree: &'i T,
) -> Walk<'i, 't, T::Annotation, Ending>
    ensures all { to_come ending_chosen (walking result) ≡ tree_order ending_chosen (T.token tree.now) }
    ensures start { walking result ≡ walk_begun (T.token tree.now) }
{
    with_sequence(alloc, tree, Ending)
}
