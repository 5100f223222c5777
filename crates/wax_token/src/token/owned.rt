//! Conversion of tokens that borrow texts to tokens that own them.
ghost use Rattle.std.specs.{Prelude.{◌≡◌, IfOk}, Cow.cow_str_bytes};
ghost use Rattle.wax_token.specs.{View.leaf_of, Words.trees};

use super::{
    Alternation, BranchKind, Concatenation, LeafKind, Literal, Repetition, Token, Tokenized,
    Topology, new_branch, new_leaf,
};
use std::alloc::Global;
use std::borrow::CowStr;
use wax_query::diagnostics::NoMemory;

impl<'t> Literal<'t> {
    /// Converts the literal to one that owns its text. Copies the text only if it is borrowed.
    pub fn into_owned(self, alloc: Global) -> Result<Literal<'static>, NoMemory>
        ensures { IfOk result (λ l. l ≡ self.entry) }
    {
        let text = self.text.into_owned(alloc)?;
        Ok(Literal::new(CowStr::Owned(text), self.is_case_insensitive))
    }
}

impl<'t> LeafKind<'t> {
    /// Converts the leaf to one that owns its text. Only a literal has one.
    pub fn into_owned(self, alloc: Global) -> Result<LeafKind<'static>, NoMemory>
        ensures { IfOk result (λ l. leaf_of l ≡ leaf_of self.entry) }
    {
        match self {
            LeafKind::Class(class) => Ok(LeafKind::Class(class)),
            LeafKind::Literal(literal) => Ok(LeafKind::Literal(literal.into_owned(alloc)?)),
            LeafKind::Separator(separator) => Ok(LeafKind::Separator(separator)),
            LeafKind::Wildcard(wildcard) => Ok(LeafKind::Wildcard(wildcard)),
        }
    }
}

impl<'t, A: Drop> Token<'t, A> {
    /// Converts the token to one that owns all its texts. Takes time and memory linear in the
    /// tokens and their texts.
    pub fn into_owned(self, alloc: Global) -> Result<Token<'static, A>, NoMemory>
        ensures { IfOk result (λ t. t ≡ self.entry) }
    {
        owned(alloc, self)
    }
}

impl<'t, A: Drop> Tokenized<'t, A> {
    /// Converts the value to one that owns the expression and all texts of the token. Takes time
    /// and memory linear in the expression, the tokens and their texts.
    pub fn into_owned(self, alloc: Global) -> Result<Tokenized<'static, A>, NoMemory>
        ensures expression { IfOk result (λ u.
            cow_str_bytes u.expression ≡ cow_str_bytes self.entry.expression) }
        ensures token { IfOk result (λ u. u.token ≡ self.entry.token) }
    {
        let Tokenized { expression, token } = self;
        let expression = CowStr::Owned(expression.into_owned(alloc)?);
        let token = token.into_owned(alloc)?;
        Ok(Tokenized { expression, token })
    }
}

#[cycle(owned)]
fn owned<'t, A: Drop>(alloc: Global, token: Token<'t, A>) -> Result<Token<'static, A>, NoMemory>
    ensures { IfOk result (λ t. t ≡ token.entry) }
{
    let (topology, annotation) = token.into_parts();
    match topology {
        Topology::Branch(branch) => match branch {
            BranchKind::Alternation(a) => {
                let tokens = owned_each(alloc, a.tokens)?;
                let branch = BranchKind::Alternation(Alternation { tokens });
                Ok(new_branch(branch, annotation))
            }
            BranchKind::Concatenation(c) => {
                let tokens = owned_each(alloc, c.tokens)?;
                let branch = BranchKind::Concatenation(Concatenation { tokens });
                Ok(new_branch(branch, annotation))
            }
            BranchKind::Repetition(r) => {
                let token = owned(alloc, Box::into_inner(r.token))?;
                let branch = BranchKind::Repetition(Repetition {
                    token: Box::new(alloc, token)?,
                    lower: r.lower,
                    upper: r.upper,
                });
                Ok(new_branch(branch, annotation))
            }
        },
        Topology::Leaf(leaf) => Ok(new_leaf(leaf.into_owned(alloc)?, annotation)),
    }
}

#[cycle(owned)]
#[tactic(auto, using(crate::proofs::Sizes::among_size))]
fn owned_each<'t, A: Drop>(
    alloc: Global,
    tokens: Vec<Token<'t, A>>,
) -> Result<Vec<Token<'static, A>>, NoMemory>
    ensures { IfOk result (λ r. trees r.items ≡ trees tokens.entry.items) }
{
    let mut done = Vec::with_capacity(alloc, tokens.len())?;
    for token in tokens {
        done.push(owned(alloc, token)?)?;
    }
    Ok(done)
}
