//! Combining tokens into one.
ghost use Rattle.std.specs.Prelude.{◌≡◌, ◌↔◌, ℕ, Bool, IfOk, List, map, ⊤};
ghost use Rattle.wax_token.specs.{Meaning.{Means, MeansSome}, Syntax.{Tree, alternation}, View.leaf_of};
ghost use Rattle.wax_token.specs.Words.{trees};
ghost use Rattle.wax_fold.specs.{Bare.{bare, baring}, Branches.composed, Mapped.Mapping};

use crate::walk::{BranchFold, FoldMap, fold_map};
use std::alloc::Global;
use wax_query::diagnostics::NoMemory;
use wax_token::token::{Alternation, BranchKind, LeafKind, Token, TokenTree, new_branch, new_leaf};

/// Combines tokens into one alternation, which matches what at least one of them matches. Without
/// tokens it matches nothing. Annotations are dropped, and the rules aren't checked:
/// `wax::rule::Checked::any` combines tokens that keep them. Takes time and memory linear in the
/// tokens.
pub fn any<'t, T>(alloc: Global, all: Vec<T>) -> Result<Token<'t, ()>, NoMemory>
where
    T: TokenTree<'t> + Drop,
    T::Annotation: Drop,
    ensures token { IfOk result (λ any.
        any ≡ alternation tt (trees (map (λ t. bare (T.token t)) all.items))) }
    ensures means { IfOk result (λ any. (b a : Bool) (s : List ℕ)
        → Means any b a s ↔ MeansSome (trees (map T.token all.items)) b a s) }
{
    let mut tokens = Vec::with_capacity(alloc, all.len())?;
    for tree in all {
        tokens.push(without_annotations(alloc, tree.into_token())?)?;
    }
    let branch = BranchKind::Alternation(Alternation { tokens });
    Ok(new_branch(branch, ()))
}

#[tactic(auto, using(crate::proofs::Bares::mapped_bare))]
fn without_annotations<'t, A: Drop>(
    alloc: Global,
    token: Token<'t, A>,
) -> Result<Token<'t, ()>, NoMemory>
    ensures { IfOk result (λ t. t ≡ bare token.entry) }
{
    match fold_map(alloc, token, &mut Baring)? {
        Some(token) => Ok(token),
        None => unreachable!(),
    }
}

// A map that drops annotations.
#[derive(Drop)]
struct Baring;

impl<'t, A: Drop> FoldMap<'t, A> for Baring {
    type Token = Token<'t, ()>;

    ghost answers = { λ _. baring };

    fn fold(
        &mut self,
        alloc: Global,
        _annotation: A,
        branch: BranchFold,
        tokens: Vec<Token<'t, ()>>,
    ) -> Result<Option<Token<'t, ()>>, NoMemory>
        ensures answer { IfOk result (λ r. r ≡ composed branch tokens.entry.items tt) }
        ensures same { ◌≡◌ {A = Mapping A (Tree ⊤)} baring baring }
    {
        match branch.fold(alloc, tokens)? {
            Some(kind) => Ok(Some(new_branch(kind, ()))),
            None => Ok(None),
        }
    }

    fn map(
        &mut self,
        _alloc: Global,
        _annotation: A,
        leaf: LeafKind<'t>,
    ) -> Result<Token<'t, ()>, NoMemory> {
        Ok(new_leaf(leaf, ()))
    }
}
