//! Building the forms of leaves.
ghost use Rattle.std.specs.Prelude.{◌≡◌, ◌↔◌, ◌≤◌, ℕ, Bool, true, List, IfOk, IfSome, chars, length, map};
ghost use Rattle.unicode.specs.CaseFolding.{simple_fold};
ghost use Rattle.wax_token.specs.{Cost.{cost, leaf_cost}, Meaning.{LeafMeans, Means, SameText, in_class}};
ghost use Rattle.wax_token.specs.View.{leaf_of, wildcard_leaf};
ghost use Rattle.wax_program.specs.Machine.{PassesTest};
ghost use Rattle.wax_lengths.specs.Forms.{TakenBy, form_size};
ghost use Rattle.wax_capture.specs.inner.Ways.{PassesOne};

use std::alloc::{AllocError, Global};
use unicode::case::simple_fold;
use wax_lengths::Form;
use wax_program::instruction::{BoxedClass, Test};
use wax_token::token::{BranchKind, Class, LeafKind, Literal, Sides, Token, Topology, Wildcard};

/// Returns the characters of a text as a list.
fn characters(alloc: Global, text: &str) -> Result<Vec<char>, AllocError>
    ensures { IfOk result (λ v. v.items ≡ chars text.now) }
{
    text.chars().collect(alloc)
}

/// Returns the simple case foldings of the characters.
fn folded(alloc: Global, characters: &[char]) -> Result<Vec<char>, AllocError>
    ensures { IfOk result (λ v. v.items ≡ map simple_fold characters.now) }
{
    let mut letters = Vec::with_capacity(alloc, characters.len())?;
    for c in characters {
        letters.push(simple_fold(*c))?;
    }
    Ok(letters)
}

fn form_of_literal(alloc: Global, literal: &Literal<'_>) -> Result<Form, AllocError>
    ensures means { IfOk result (λ form. (x : List ℕ)
        → TakenBy form x ↔ SameText literal.now.0 literal.now.1 x) }
    ensures few { IfOk result (λ form. form_size form ≤ length literal.now.1) }
{
    let letters = characters(alloc, literal.text())?;
    if literal.is_case_insensitive() {
        let foldings = folded(alloc, letters.as_slice())?;
        return Ok(Form::Text(foldings, true));
    }
    Ok(Form::Text(letters, false))
}

fn form_of_wildcard(wildcard: &Wildcard, sides: Sides) -> Form
    ensures means { (x : List ℕ)
        → TakenBy result x ↔ LeafMeans (wildcard_leaf wildcard.now) sides.before sides.after x }
    ensures few { form_size result ≤ leaf_cost (wildcard_leaf wildcard.now) }
{
    match wildcard {
        Wildcard::One => Form::One(Test::NotSlash),
        Wildcard::ZeroOrMore(_) => Form::Name,
        Wildcard::Tree { has_root } => Form::Tree {
            sides,
            has_root: *has_root,
        },
    }
}

fn test_of_class(alloc: Global, class: &Class) -> Result<Test, AllocError>
    ensures { IfOk result (λ test. (c : ℕ)
        → PassesTest test c ↔ (in_class class.now.0 class.now.1 c ≡ true)) }
{
    Ok(Test::Class(BoxedClass::copied(alloc, class)?))
}

/// Builds the test of a class, `?` or `/`, or returns `None` for any other leaf.
pub fn test_of_leaf(alloc: Global, leaf: &LeafKind<'_>) -> Result<Option<Test>, AllocError>
    ensures { IfOk result (λ r. IfSome r (λ test. (before after : Bool) (x : List ℕ)
        → PassesOne test x ↔ LeafMeans (leaf_of leaf.now) before after x)) }
{
    Ok(match leaf {
        LeafKind::Class(class) => Some(test_of_class(alloc, class)?),
        LeafKind::Separator(_) => Some(Test::Char('/')),
        LeafKind::Wildcard(Wildcard::One) => Some(Test::NotSlash),
        _ => None,
    })
}

/// Builds the form of a leaf, by what is around it.
pub fn form_of_leaf(alloc: Global, leaf: &LeafKind<'_>, sides: Sides) -> Result<Form, AllocError>
    ensures means { IfOk result (λ form. (x : List ℕ)
        → TakenBy form x ↔ LeafMeans (leaf_of leaf.now) sides.before sides.after x) }
    ensures few { IfOk result (λ form. form_size form ≤ leaf_cost (leaf_of leaf.now)) }
{
    Ok(match leaf {
        LeafKind::Class(class) => Form::One(test_of_class(alloc, class)?),
        LeafKind::Literal(literal) => form_of_literal(alloc, literal)?,
        LeafKind::Separator(_) => Form::One(Test::Char('/')),
        LeafKind::Wildcard(wildcard) => form_of_wildcard(wildcard, sides),
    })
}

/// Returns the leaf that a token consists of: the token itself, or the only token of a
/// concatenation.
pub fn lone_leaf<'i, 't, A>(token: &'i Token<'t, A>) -> Option<&'i LeafKind<'t>>
    ensures means { IfSome result (λ leaf. (before after : Bool) (x : List ℕ)
        → LeafMeans (leaf_of leaf.now) before after x ↔ Means token.now before after x) }
    ensures cheap { IfSome result (λ leaf. leaf_cost (leaf_of leaf.now) ≤ cost token.now) }
{
    match token.topology() {
        Topology::Leaf(leaf) => Some(leaf),
        Topology::Branch(branch) => match branch {
            BranchKind::Concatenation(c) => match c.tokens.as_slice() {
                [token] => token.as_leaf(),
                _ => None,
            },
            _ => None,
        },
    }
}
