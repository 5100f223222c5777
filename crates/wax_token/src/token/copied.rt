//! Owned copies of borrowed tokens.
ghost use Rattle.std.specs.{Prelude.{◌≡◌, IfOk}, Cow.cow_str_bytes};
ghost use Rattle.wax_token.specs.{View.leaf_of, Words.trees};

use super::{
    Alternation, BranchKind, Class, Concatenation, LeafKind, Literal, Repetition, Token, Tokenized,
    Topology, new_branch, new_leaf,
};
use std::alloc::{AllocError, Global};
use std::borrow::CowStr;
use wax_query::diagnostics::NoMemory;

impl<'t, A: Copy> Token<'t, A> {
    /// Copies the token and all texts in it. Takes time and memory linear in the tokens and their
    /// texts.
    pub fn to_owned(&self, alloc: Global) -> Result<Token<'static, A>, NoMemory>
        ensures { IfOk result (λ copy. copy ≡ self.now) }
    {
        Ok(copied(alloc, self)?)
    }
}

impl<'t, A: Copy> Tokenized<'t, A> {
    /// Copies the expression, the token and all texts in it. Takes time and memory linear in the
    /// expression, the tokens and their texts.
    pub fn to_owned(&self, alloc: Global) -> Result<Tokenized<'static, A>, NoMemory>
        ensures expression { IfOk result (λ copy.
            cow_str_bytes copy.expression ≡ cow_str_bytes self.now.expression) }
        ensures token { IfOk result (λ copy. copy.token ≡ self.now.token) }
    {
        let expression = CowStr::Owned(String::from_str(alloc, self.expression.as_str())?);
        let token = self.token.to_owned(alloc)?;
        Ok(Tokenized { expression, token })
    }
}

fn copied_leaf<'t>(alloc: Global, leaf: &LeafKind<'t>) -> Result<LeafKind<'static>, AllocError>
    ensures { IfOk result (λ copy. leaf_of copy ≡ leaf_of leaf.now) }
{
    match leaf {
        LeafKind::Class(class) => {
            let archetypes = class.archetypes().to_vec(alloc)?;
            Ok(LeafKind::Class(Class::new(class.is_negated(), archetypes)))
        }
        LeafKind::Literal(literal) => {
            let text = CowStr::Owned(String::from_str(alloc, literal.text.as_str())?);
            Ok(LeafKind::Literal(Literal::new(text, literal.is_case_insensitive)))
        }
        LeafKind::Separator(separator) => Ok(LeafKind::Separator(*separator)),
        LeafKind::Wildcard(wildcard) => Ok(LeafKind::Wildcard(*wildcard)),
    }
}

#[cycle(copied)]
fn copied<'t, A: Copy>(alloc: Global, token: &Token<'t, A>) -> Result<Token<'static, A>, AllocError>
    ensures { IfOk result (λ copy. copy ≡ token.now) }
{
    let annotation = token.annotation;
    match &token.topology {
        Topology::Branch(branch) => match branch {
            BranchKind::Alternation(a) => {
                let tokens = copied_each(alloc, a.tokens.as_slice())?;
                let branch = BranchKind::Alternation(Alternation { tokens });
                Ok(new_branch(branch, annotation))
            }
            BranchKind::Concatenation(c) => {
                let tokens = copied_each(alloc, c.tokens.as_slice())?;
                let branch = BranchKind::Concatenation(Concatenation { tokens });
                Ok(new_branch(branch, annotation))
            }
            BranchKind::Repetition(r) => {
                let token = copied(alloc, &r.token)?;
                let branch = BranchKind::Repetition(Repetition {
                    token: Box::new(alloc, token)?,
                    lower: r.lower,
                    upper: r.upper,
                });
                Ok(new_branch(branch, annotation))
            }
        },
        Topology::Leaf(leaf) => Ok(new_leaf(copied_leaf(alloc, leaf)?, annotation)),
    }
}

#[cycle(copied)]
#[tactic(auto, using(crate::proofs::Sizes::element_size))]
fn copied_each<'t, A: Copy>(
    alloc: Global,
    tokens: &[Token<'t, A>],
) -> Result<Vec<Token<'static, A>>, AllocError>
    ensures { IfOk result (λ copies. trees copies.items ≡ trees tokens.now) }
{
    let mut done = Vec::with_capacity(alloc, tokens.len())?;
    for token in tokens {
        done.push(copied(alloc, token)?)?;
    }
    Ok(done)
}
