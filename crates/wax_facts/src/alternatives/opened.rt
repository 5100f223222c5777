//! Replacing branches by the only token in them.
ghost use Rattle.std.specs.Prelude.{◌≡◌, ◌≢◌, ◌+◌, ◌<◌, ◌≤◌, ◌∷◌, [], MatchResult, length};
ghost use Rattle.wax_token.specs.{Syntax.{tree_size, trees_size}, View.branch_tree, Words.trees};
ghost use Rattle.wax_facts.specs.{Alternatives.{levels, levels_each}, inner.Opened.own_levels};

use wax_token::token::{
    Alternation, BranchKind, Concatenation, Token, Topology, new_branch, new_leaf,
};

/// Replaces a branch by the only token in it, as long as it contains just one and takes it exactly
/// once. Returns any other token as it is.
pub fn opened<'t, A: Drop>(token: Token<'t, A>) -> Token<'t, A>
    ensures levels { own_levels result ≡ levels token.entry }
    ensures size { tree_size result ≤ tree_size token.entry }
{
    let mut token = token;
    loop {
        match inner(token) {
            Ok(only) => token = only,
            Err(whole) => return whole,
        }
    }
}

// Replaces a branch once. Returns a token that isn't such a branch as an `Err`.
fn inner<'t, A: Drop>(token: Token<'t, A>) -> Result<Token<'t, A>, Token<'t, A>>
    ensures levels { MatchResult result (λ t. levels t ≡ levels token.entry)
        (λ t. own_levels t ≡ levels token.entry) }
    ensures size { MatchResult result (λ t. tree_size t < tree_size token.entry)
        (λ t. tree_size t ≤ tree_size token.entry) }
{
    let (topology, annotation) = token.into_parts();
    match topology {
        Topology::Branch(branch) => match inner_of_branch(branch) {
            Ok(token) => Ok(token),
            Err(branch) => Err(new_branch(branch, annotation)),
        },
        Topology::Leaf(leaf) => Err(new_leaf(leaf, annotation)),
    }
}

// Apart from `inner`, which takes the annotation off and puts it back.
#[tactic(auto, using(crate::proofs::Opens::own_alternation, crate::proofs::Opens::own_concatenation))]
fn inner_of_branch<'t, A: Drop>(
    branch: BranchKind<'t, A>,
) -> Result<Token<'t, A>, BranchKind<'t, A>>
    ensures levels { (a : A) → MatchResult result (λ t. levels t ≡ levels (branch_tree branch.entry a))
        (λ b. own_levels (branch_tree b a) ≡ levels (branch_tree branch.entry a)) }
    ensures size { (a : A) → MatchResult result (λ t. tree_size t < tree_size (branch_tree branch.entry a))
        (λ b. branch_tree b a ≡ branch_tree branch.entry a) }
{
    match branch {
        BranchKind::Alternation(a) => match only(a.tokens) {
            Ok(token) => Ok(token),
            Err(tokens) => Err(BranchKind::Alternation(Alternation { tokens })),
        },
        BranchKind::Concatenation(c) => match only(c.tokens) {
            Ok(token) => Ok(token),
            Err(tokens) => Err(BranchKind::Concatenation(Concatenation { tokens })),
        },
        BranchKind::Repetition(r) => {
            if r.lower == 1 && r.upper == Some(1) {
                Ok(Box::into_inner(r.token))
            } else {
                Err(BranchKind::Repetition(r))
            }
        }
    }
}

// Returns the only item of the list, or otherwise the list.
fn only<T: Drop>(mut items: Vec<T>) -> Result<T, Vec<T>>
    ensures { MatchResult result (λ item. items.items ≡ item ∷ [])
        (λ all. (all.items ≡ items.items) × (length all.items ≢ 1)) }
{
    if items.len() != 1 {
        return Err(items);
    }
    match items.pop() {
        Some(item) => Ok(item),
        None => Err(items),
    }
}

/// Returns the branches of an alternation.
///
/// # Errors
///
/// Returns the token itself if it isn't an alternation.
pub fn taken_apart<'t, A: Drop>(token: Token<'t, A>) -> Result<Vec<Token<'t, A>>, Token<'t, A>>
    ensures levels { MatchResult result (λ ts. own_levels token.entry ≡ [] ∷ levels_each (trees ts.items))
        (λ t. own_levels token.entry ≡ (t ∷ []) ∷ []) }
    ensures size { MatchResult result (λ ts. tree_size token.entry ≡ trees_size (trees ts.items) + 1)
        (λ t. t ≡ token.entry) }
{
    let (topology, annotation) = token.into_parts();
    match topology {
        Topology::Branch(branch) => match branch {
            BranchKind::Alternation(a) => Ok(a.tokens),
            other => Err(new_branch(other, annotation)),
        },
        Topology::Leaf(leaf) => Err(new_leaf(leaf, annotation)),
    }
}
