//! Building the forms by which a token can take a piece.
ghost use Rattle.std.specs.Prelude.{◌≡◌, ◌+◌, ◌<◌, ◌≤◌, ◌↔◌, ◌∷◌, [], ◌++◌, ℕ, Bool, List, IfOk, IfSome};
ghost use Rattle.std.specs.Prelude.{OnOk, length, true};
ghost use Rattle.wax_query.specs.Outcome.{MatchBuild};
ghost use Rattle.wax_token.specs.{Cost.{branches_cost, cost}, Meaning.Means, Syntax.tree, Words.trees};
ghost use Rattle.wax_capture.specs.Captures.{LeafWay, MeansBranch, MeansByWay};
ghost use Rattle.wax_capture.specs.{Pieces.{WayIn, forms_of, size_of}, inner.Ways.is_single};
ghost use Rattle.wax_lengths.specs.Forms.{TakenBy, form_size};

use crate::leaves::{form_of_leaf, lone_leaf, test_of_leaf};
use crate::letters::linked;
use crate::piece::Ways;
use crate::tokens::tree_root;
use crate::uncaptured::nothing_captured;
use std::alloc::{AllocError, Global};
use wax_lengths::Form;
use wax_match::encode::{CompileError, compile_token};
use wax_query::diagnostics::Refusal;
use wax_token::token::{BranchKind, Sides, Token, Topology};

fn add_form(forms: &mut Vec<Form>, form: Form) -> Result<(), AllocError>
    ensures { OnOk result (forms.new.items ≡ forms.old.items ++ form ∷ []) }
{
    forms.push(form)?;
    Ok(())
}

/// Builds the form of a repeated class, `?` or `/`, or returns `None` for any other token.
fn form_of_run<'t, A>(alloc: Global, token: &Token<'t, A>) -> Result<Option<Form>, AllocError>
    ensures means { IfOk result (λ r. IfSome r (λ form. (before after : Bool) (x : List ℕ)
        → TakenBy form x ↔ Means token.now before after x)) }
    ensures few { IfOk result (λ r. IfSome r (λ form. form_size form ≤ cost token.now)) }
{
    let Topology::Branch(BranchKind::Repetition(repetition)) = token.topology() else {
        return Ok(None);
    };
    let Some(leaf) = lone_leaf(&repetition.token) else {
        return Ok(None);
    };
    let Some(test) = test_of_leaf(alloc, leaf)? else {
        return Ok(None);
    };
    Ok(Some(Form::Run {
        test: Box::new(alloc, test)?,
        low: repetition.lower,
        high: repetition.upper,
    }))
}

/// Builds the form of a token. Only branches need a program, except for a repeated class, `?` or
/// `/`.
fn form_of<'t, A>(
    alloc: Global,
    token: &Token<'t, A>,
    sides: Sides,
) -> Result<Form, Refusal<CompileError>>
    ensures means { IfOk result (λ form. (x : List ℕ)
        → TakenBy form x ↔ Means token.now sides.before sides.after x) }
    ensures few { MatchBuild result (λ form. form_size form ≤ cost token.now)
        (λ _. 1048576 < cost token.now + 1) }
{
    if let Some(leaf) = lone_leaf(token) {
        return Ok(form_of_leaf(alloc, leaf, sides)?);
    }
    if let Some(form) = form_of_run(alloc, token)? {
        return Ok(form);
    }
    match compile_token(alloc, token, sides) {
        Ok(program) => Ok(Form::Coded(program)),
        Err(refusal) => Err(refusal),
    }
}

/// Builds the forms of the branches of an alternation.
fn branch_ways<'t, A>(
    alloc: Global,
    branches: &[Token<'t, A>],
    sides: Sides,
) -> Result<Ways, Refusal<CompileError>>
    ensures ways { IfOk result (λ ways. (k : ℕ) (x : List ℕ)
        → MeansBranch (trees branches.now) k sides.before sides.after x ↔ WayIn (forms_of ways) k x) }
    ensures few { MatchBuild result (λ ways. size_of (forms_of ways) ≤ branches_cost (trees branches.now))
        (λ _. 1048576 < branches_cost (trees branches.now) + 1) }
{
    let mut forms = Vec::with_capacity(alloc, branches.len())?;
    for branch in branches {
        let form = match form_of(alloc, branch, sides) {
            Ok(form) => form,
            Err(refusal) => return Err(refusal),
        };
        add_form(&mut forms, form)?;
    }
    Ok(linked(alloc, forms)?)
}

/// Builds the only form of a token that is neither an alternation nor a `**`.
fn one_way<'t, A>(
    alloc: Global,
    token: &Token<'t, A>,
    sides: Sides,
) -> Result<Ways, Refusal<CompileError>>
    requires { is_single token.now ≡ true }
    ensures ways { IfOk result (λ ways. (k : ℕ) (x : List ℕ)
        → MeansByWay token.now k sides.before sides.after x ↔ WayIn (forms_of ways) k x) }
    ensures few { MatchBuild result (λ ways. size_of (forms_of ways) ≤ cost token.now)
        (λ _. 1048576 < cost token.now + 1) }
{
    match form_of(alloc, token, sides) {
        Ok(form) => Ok(Ways::Only(form)),
        Err(refusal) => Err(refusal),
    }
}

/// Builds the two forms of a `**`: pieces of which nothing is captured are preferred to all others.
fn tree_ways(alloc: Global, sides: Sides, has_root: bool) -> Result<Ways, AllocError>
    ensures ways { IfOk result (λ ways. (k : ℕ) (x : List ℕ)
        → LeafWay (tree has_root) k sides.before sides.after x ↔ WayIn (forms_of ways) k x) }
    ensures few { IfOk result (λ ways. size_of (forms_of ways) ≤ 3) }
{
    let mut forms = Vec::with_capacity(alloc, 2)?;
    add_form(&mut forms, nothing_captured(sides, has_root))?;
    add_form(&mut forms, Form::Tree { sides, has_root })?;
    Ok(Ways::Each(forms))
}

/// Builds the forms of a token, by what is around it.
///
/// # Errors
///
/// Returns `Refusal::Refused` only if the token's cost plus 1 exceeds 1,048,576 (error 9), and
/// `Refusal::Memory` if allocation fails.
pub fn ways_of<'t, A>(
    alloc: Global,
    token: &Token<'t, A>,
    sides: Sides,
) -> Result<Ways, Refusal<CompileError>>
    ensures ways { IfOk result (λ ways. (k : ℕ) (x : List ℕ)
        → MeansByWay token.now k sides.before sides.after x ↔ WayIn (forms_of ways) k x) }
    ensures few { MatchBuild result (λ ways. size_of (forms_of ways) ≤ cost token.now)
        (λ _. 1048576 < cost token.now + 1) }
{
    match token.topology() {
        Topology::Branch(branch) => match branch {
            BranchKind::Alternation(a) => branch_ways(alloc, a.tokens.as_slice(), sides),
            BranchKind::Concatenation(_) | BranchKind::Repetition(_) => {
                one_way(alloc, token, sides)
            }
        },
        Topology::Leaf(_) => match tree_root(token) {
            Some(has_root) => Ok(tree_ways(alloc, sides, has_root)?),
            None => one_way(alloc, token, sides),
        },
    }
}
