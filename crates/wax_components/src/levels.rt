//! The literals of a glob and all its sub-globs.
ghost use Rattle.std.specs.{Prelude.{◌≡◌, ◌++◌, ◌∷◌, ◌<◌, [], ℕ, IfOk, OnOk}, List.flat_map};
ghost use Rattle.wax_token.specs.Syntax.{tree_size};
ghost use Rattle.wax_components.specs.Levels.{globs_at, literals, literals_in, sub_globs, sub_globs_in};
ghost use Rattle.wax_components.specs.Warnings.{has_semantic_literals};

use crate::kinds;
use crate::parts::{Component, LiteralSequence, components_in};
use std::alloc::{AllocError, Global};
use std::marker::Model;
use wax_query::diagnostics::NoMemory;
use wax_token::token::{Annotation, BranchKind, Token, Topology};

/// A glob or a sub-glob. A type of its own, so that contracts see the tree and not the reference.
#[derive(Drop)]
struct Glob<'i, 't, A> {
    token: &'i Token<'t, A>,
}

impl<'i, 't, A> Model for Glob<'i, 't, A> {
    ghost use Rattle.wax_token.specs.{Syntax.Tree, TreeCode.tree_code};

    ghost Value = { Tree A };

    ghost coded = { tree_code A.code };

    ghost view = { λ g. g.token.now };
}

/// The globs of one level.
type Level<'i, 't, A> = Vec<Glob<'i, 't, A>>;

/// Appends the sub-globs in a top-level token.
#[tactic(auto, using(crate::proofs::TopLevels::listed_trees))]
fn push_sub_globs_in<'i, 't, A>(
    level: &mut Level<'i, 't, A>,
    token: &'i Token<'t, A>,
) -> Result<(), AllocError>
    ensures { OnOk result (level.new.items ≡ level.old.items ++ sub_globs_in token.now) }
{
    match token.topology() {
        Topology::Branch(branch) => match branch {
            BranchKind::Alternation(alternation) => push_each(level, alternation.tokens()),
            BranchKind::Concatenation(_) => push_glob(level, token),
            BranchKind::Repetition(repetition) => push_glob(level, repetition.token()),
        },
        Topology::Leaf(_) => Ok(()),
    }
}

// Appends a sub-glob.
fn push_glob<'i, 't, A>(
    level: &mut Level<'i, 't, A>,
    token: &'i Token<'t, A>,
) -> Result<(), AllocError>
    ensures { OnOk result (level.new.items ≡ level.old.items ++ token.now ∷ []) }
{
    level.push(Glob { token })?;
    Ok(())
}

// Appends each of the tokens as a sub-glob.
fn push_each<'i, 't, A>(
    level: &mut Level<'i, 't, A>,
    tokens: &'i [Token<'t, A>],
) -> Result<(), AllocError>
    ensures { OnOk result (level.new.items ≡ level.old.items ++ tokens.now) }
{
    for token in tokens {
        push_glob(level, token)?;
    }
    Ok(())
}

/// Appends the sub-globs of a glob.
fn push_sub_globs<'i, 't, A: Annotation>(
    level: &mut Level<'i, 't, A>,
    glob: &'i Token<'t, A>,
) -> Result<(), AllocError>
    ensures { OnOk result (level.new.items ≡ level.old.items ++ sub_globs glob.now) }
{
    for token in kinds::top_level(glob) {
        push_sub_globs_in(level, token)?;
    }
    Ok(())
}

/// Returns the sub-globs of all globs of a level.
fn next_level<'i, 't, A: Annotation>(
    alloc: Global,
    globs: &[Glob<'i, 't, A>],
) -> Result<Level<'i, 't, A>, AllocError>
    ensures { IfOk result (λ level. level.items ≡ flat_map sub_globs globs.now) }
{
    let mut level = Vec::new(alloc);
    for glob in globs {
        push_sub_globs(&mut level, glob.token)?;
    }
    Ok(level)
}

/// Components of only literals, with their text.
type Literals<'i, 't, A> = Vec<(Component<'i, 't, A>, LiteralSequence<'i, 't, A>)>;

/// Appends the components of a glob that are only literals.
fn push_literals<'i, 't, A: Annotation>(
    alloc: Global,
    found: &mut Literals<'i, 't, A>,
    glob: &'i Token<'t, A>,
) -> Result<(), AllocError>
    ensures { OnOk result (found.new.items ≡ found.old.items ++ literals_in glob.now) }
{
    let components = components_in(alloc, kinds::top_level(glob))?;
    for component in components.as_slice() {
        if let Some(literal) = component.literal() {
            found.push((Component::new(component.tokens()), literal))?;
        }
    }
    Ok(())
}

fn push_literals_of_level<'i, 't, A: Annotation>(
    alloc: Global,
    found: &mut Literals<'i, 't, A>,
    globs: &[Glob<'i, 't, A>],
) -> Result<(), AllocError>
    ensures { OnOk result (found.new.items ≡ found.old.items ++ flat_map literals_in globs.now) }
{
    for glob in globs {
        push_literals(alloc, found, glob.token)?;
    }
    Ok(())
}

fn literals_by_level<'i, 't, A: Annotation>(
    alloc: Global,
    token: &'i Token<'t, A>,
) -> Result<Literals<'i, 't, A>, AllocError>
    ensures { IfOk result (λ ls. ls.items ≡ literals token.now) }
{
    let mut found = Vec::new(alloc);
    let mut level = Vec::new(alloc);
    push_glob(&mut level, token)?;
    while !level.is_empty() {
        push_literals_of_level(alloc, &mut found, level.as_slice())?;
        level = next_level(alloc, level.as_slice())?;
    }
    Ok(found)
}

/// Returns the components of only literals, with their texts, of a glob and all its sub-globs:
/// level by level, and in each from left to right. For `a/{b,c*}` they are `a` and `b`.
///
/// Allocates the list and two levels of sub-globs. Takes time linear in the tokens.
#[tactic(auto, using(crate::proofs::Globs::no_deeper))]
pub fn literals<'i, 't, A: Annotation>(
    alloc: Global,
    token: &'i Token<'t, A>,
) -> Result<Vec<(Component<'i, 't, A>, LiteralSequence<'i, 't, A>)>, NoMemory>
    ensures all { IfOk result (λ ls. ls.items ≡ literals token.now) }
    // no sub-glob is missing
    ensures deepest { (n : ℕ) → tree_size token.now < n → globs_at n token.now ≡ [] }
{
    Ok(literals_by_level(alloc, token)?)
}

/// Returns whether a component of the glob or of one of its sub-globs is `.` or `..`. Takes the
/// time and memory of `literals`.
pub fn has_semantic_literals<'t, A: Annotation>(
    alloc: Global,
    token: &Token<'t, A>,
) -> Result<bool, NoMemory>
    ensures { IfOk result (λ b. b ≡ has_semantic_literals token.now) }
{
    let literals = literals(alloc, token)?;
    for (_, literal) in literals.as_slice() {
        if literal.is_semantic_literal() {
            return Ok(true);
        }
    }
    Ok(false)
}
