//! Listing the alternatives of a token by reference.
ghost use Rattle.std.specs.Prelude.{◌≡◌, ◌≢◌, ◌+◌, ◌<◌, ◌≤◌, ◌++◌, ◌∷◌, [], IfOk, IfSome, MatchOption, OnOk};
ghost use Rattle.std.specs.Prelude.{length};
ghost use Rattle.wax_token.specs.{Syntax.{tree_size, trees_size}, Words.trees};
ghost use Rattle.wax_facts.specs.Alternatives.{MeansOneOf, alternatives, joined, levels, levels_each};
ghost use Rattle.wax_facts.specs.inner.Opened.{own_levels};

use std::alloc::{AllocError, Global};
use std::marker::Model;
use wax_query::diagnostics::NoMemory;
use wax_token::token::{BranchKind, Token, Topology};

/// An alternative of a token, by reference. Contracts see its tree.
#[derive(Drop)]
pub struct Alternative<'a, 't, A> {
    token: &'a Token<'t, A>,
}

impl<'a, 't, A> Model for Alternative<'a, 't, A> {
    ghost use Rattle.wax_token.specs.{Syntax.Tree, TreeCode.tree_code};

    ghost Value = { Tree A };

    ghost coded = { tree_code A.code };

    ghost view = { λ a. a.token.now };
}

impl<'a, 't, A> Alternative<'a, 't, A> {
    /// Returns the token that is the alternative.
    pub fn token(&self) -> &'a Token<'t, A>
        ensures { result.now ≡ self.now }
    {
        self.token
    }
}

/// Lists the alternatives of a token by reference, in the order of `into_alternatives`.
///
/// Takes time and memory linear in the tokens.
#[tactic(auto, using(crate::proofs::Means::means_one_of))]
pub fn list_alternatives<'a, 't, A>(
    alloc: Global,
    token: &'a Token<'t, A>,
) -> Result<Vec<Alternative<'a, 't, A>>, NoMemory>
    ensures all { IfOk result (λ ts. ts.items ≡ alternatives token.now) }
    ensures means { IfOk result (λ ts. MeansOneOf token.now ts.items) }
{
    Ok(by_level(alloc, token)?)
}

#[tactic(auto, using(crate::proofs::Levels::beside_nil))]
fn by_level<'a, 't, A>(
    alloc: Global,
    token: &'a Token<'t, A>,
) -> Result<Vec<Alternative<'a, 't, A>>, AllocError>
    ensures { IfOk result (λ ts. ts.items ≡ alternatives token.now) }
{
    let mut found = Vec::new(alloc);
    let mut level = Vec::new(alloc);
    push(&mut level, token)?;
    while !level.is_empty() {
        level = next_level(alloc, level.as_slice(), &mut found)?;
    }
    Ok(found)
}

// Appends the tokens of a level that aren't alternations to `found`. Returns the branches of the
// others.
#[tactic(auto, using(crate::proofs::Levels::still_first))]
fn next_level<'a, 't, A>(
    alloc: Global,
    level: &[Alternative<'a, 't, A>],
    found: &mut Vec<Alternative<'a, 't, A>>,
) -> Result<Vec<Alternative<'a, 't, A>>, AllocError>
    ensures all { IfOk result (λ below.
        found.new.items ++ joined (levels_each (trees below.items))
        ≡ found.old.items ++ joined (levels_each (trees level.now))) }
    ensures less { IfOk result (λ below.
        trees_size (trees below.items) + length level.now ≤ trees_size (trees level.now)) }
{
    let mut below = Vec::new(alloc);
    for alternative in level {
        let token = opened(alternative.token);
        match token.as_alternation() {
            Some(alternation) => push_each(&mut below, alternation.tokens())?,
            None => push(found, token)?,
        }
    }
    Ok(below)
}

fn push<'a, 't, A>(
    list: &mut Vec<Alternative<'a, 't, A>>,
    token: &'a Token<'t, A>,
) -> Result<(), AllocError>
    ensures { OnOk result (list.new.items ≡ list.old.items ++ token.now ∷ []) }
{
    list.push(Alternative { token })?;
    Ok(())
}

fn push_each<'a, 't, A>(
    list: &mut Vec<Alternative<'a, 't, A>>,
    tokens: &'a [Token<'t, A>],
) -> Result<(), AllocError>
    ensures { OnOk result (list.new.items ≡ list.old.items ++ tokens.now) }
{
    for token in tokens {
        push(list, token)?;
    }
    Ok(())
}

// Returns the token to which a branch opens: the only token in it, as long as it contains just one
// and takes it exactly once. Returns any other token as it is.
fn opened<'a, 't, A>(token: &'a Token<'t, A>) -> &'a Token<'t, A>
    ensures levels { own_levels result.now ≡ levels token.now }
    ensures size { tree_size result.now ≤ tree_size token.now }
{
    if let Some(only) = only_token(token) {
        return opened(only);
    }
    token
}

// Returns the only token in a branch that takes it exactly once.
#[tactic(auto, using(crate::proofs::Opens::own_alternation, crate::proofs::Opens::own_concatenation))]
fn only_token<'a, 't, A>(token: &'a Token<'t, A>) -> Option<&'a Token<'t, A>>
    ensures levels { MatchOption result (own_levels token.now ≡ levels token.now)
        (λ only. levels only.now ≡ levels token.now) }
    ensures size { IfSome result (λ only. tree_size only.now < tree_size token.now) }
{
    match token.topology() {
        Topology::Branch(branch) => match branch {
            BranchKind::Alternation(alternation) => only(alternation.tokens()),
            BranchKind::Concatenation(concatenation) => only(concatenation.tokens()),
            BranchKind::Repetition(repetition) => {
                if repetition.lower == 1 && repetition.upper == Some(1) {
                    Some(repetition.token())
                } else {
                    None
                }
            }
        },
        Topology::Leaf(_) => None,
    }
}

fn only<T>(items: &[T]) -> Option<&T>
    ensures { MatchOption result (length items.now ≢ 1) (λ item. items.now ≡ item.now ∷ []) }
{
    match items {
        [item] => Some(item),
        _ => None,
    }
}
