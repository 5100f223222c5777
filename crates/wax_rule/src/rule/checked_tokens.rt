//! Borrowing, owning, splitting and combining checked tokens.
ghost use Rattle.std.specs.{Prelude.{◌≡◌, IfOk, map}, Cow.cow_str_bytes, List.Contains};
ghost use Rattle.wax_token.specs.{Reads.Span, Syntax.{Tree, alternation}, Words.trees};
ghost use Rattle.wax_facts.specs.Alternatives.{MeansOneOf, alternatives};
ghost use Rattle.wax_rule.specs.Keeping.{KeepsRules};

use crate::rule::{Checked, Ruled};
use std::alloc::{AllocError, Global};
use wax_facts::into_alternatives;
use wax_query::diagnostics::NoMemory;
use wax_token::token::{
    Alternation, BranchKind, ExpressionMetadata, Token, TokenTree, Tokenized, new_branch,
};

/// A type that contains a token, which keeps the rules if the value does.
pub trait RuledTree<'t>: TokenTree<'t, Annotation = ExpressionMetadata> + Ruled {
    ghost token_keeps_rules: { (value : Self) → Self.keeps_rules value → KeepsRules (Self.token value) };
}

impl<'t> RuledTree<'t> for Token<'t, ExpressionMetadata> {
    ghost token_keeps_rules = { λ token kept. kept };
}

impl<'t> RuledTree<'t> for Tokenized<'t, ExpressionMetadata> {
    ghost token_keeps_rules = { λ tokenized kept. kept };
}

impl<T: Ruled> Checked<T> {
    /// Returns a reference to what was checked.
    pub fn as_ref(&self) -> &T
        ensures same { result.now ≡ self.now }
        ensures rules { T.keeps_rules result.now }
    {
        &self.inner
    }
}

impl<'t, T: RuledTree<'t>> Checked<T> {
    /// Returns the checked token, and drops its expression.
    pub fn into_token(self) -> Checked<Token<'t, ExpressionMetadata>>
        ensures { result ≡ T.token self }
    {
        Checked {
            inner: self.inner.into_token(),
        }
    }

    /// Splits the token into its alternatives, as `wax::token::into_alternatives` does: the token
    /// matches a path exactly if one of them does. Takes time and memory linear in the tokens.
    pub fn into_alternatives(
        self,
        alloc: Global,
    ) -> Result<Vec<Checked<Token<'t, ExpressionMetadata>>>, NoMemory>
        ensures all { IfOk result (λ ts. ts.items ≡ alternatives (T.token self)) }
        ensures means { IfOk result (λ ts. MeansOneOf (T.token self) ts.items) }
    {
        let tokens = into_alternatives(alloc, self.inner.into_token())?;
        Ok(checked_each(alloc, tokens)?)
    }
}

impl<'t> Checked<Tokenized<'t, ExpressionMetadata>> {
    /// Converts the value to one that owns the expression and all texts of the token. Takes time
    /// and memory linear in the expression, the tokens and their texts.
    pub fn into_owned(
        self,
        alloc: Global,
    ) -> Result<Checked<Tokenized<'static, ExpressionMetadata>>, NoMemory>
        ensures expression { IfOk result (λ u.
            cow_str_bytes u.expression ≡ cow_str_bytes self.entry.expression) }
        ensures token { IfOk result (λ u. u.token ≡ self.entry.token) }
    {
        Ok(Checked {
            inner: self.inner.into_owned(alloc)?,
        })
    }

    /// Copies the value to one that owns the expression and all texts of the token. Takes time and
    /// memory linear in the expression, the tokens and their texts.
    pub fn to_owned(
        &self,
        alloc: Global,
    ) -> Result<Checked<Tokenized<'static, ExpressionMetadata>>, NoMemory>
        ensures expression { IfOk result (λ u.
            cow_str_bytes u.expression ≡ cow_str_bytes self.now.expression) }
        ensures token { IfOk result (λ u. u.token ≡ self.now.token) }
    {
        Ok(Checked {
            inner: self.inner.to_owned(alloc)?,
        })
    }
}

impl<'t> Checked<Token<'t, ExpressionMetadata>> {
    /// Converts the token to one that owns all its texts. Takes time and memory linear in the
    /// tokens and their texts.
    pub fn into_owned(
        self,
        alloc: Global,
    ) -> Result<Checked<Token<'static, ExpressionMetadata>>, NoMemory>
        ensures { IfOk result (λ t. t ≡ self.entry) }
    {
        Ok(Checked {
            inner: self.inner.into_owned(alloc)?,
        })
    }

    /// Combines tokens into one alternation, which matches what at least one of them matches.
    /// Without tokens it matches nothing.
    ///
    /// The rules are not checked for the alternation itself. Its span is (0, 0), and each token in
    /// it keeps the spans of its own expression.
    pub fn any<T>(alloc: Global, all: Vec<Checked<T>>) -> Result<Self, NoMemory>
    where
        T: RuledTree<'t> + Drop,
        ensures { IfOk result (λ any. any ≡ alternation (0, 0) (trees (map T.token all.items))) }
    {
        let branch = BranchKind::Alternation(Alternation {
            tokens: tokens_of(alloc, all)?,
        });
        Ok(Checked {
            inner: new_branch(branch, ExpressionMetadata::new((0, 0))),
        })
    }
}

/// Wraps a value that keeps the rules, without checking it again.
pub fn already_checked<T: Ruled>(inner: T) -> Checked<T>
    requires { T.keeps_rules inner }
    ensures { result ≡ inner }
{
    Checked { inner }
}

fn tokens_of<'t, T: RuledTree<'t> + Drop>(
    alloc: Global,
    all: Vec<Checked<T>>,
) -> Result<Vec<Token<'t, ExpressionMetadata>>, AllocError>
    ensures same { IfOk result (λ tokens. tokens.items ≡ map T.token all.items) }
    ensures rules { IfOk result (λ tokens. (t : Tree Span) → Contains tokens.items t → KeepsRules t) }
{
    let mut tokens = Vec::with_capacity(alloc, all.len())?;
    for checked in all {
        tokens.push(checked.inner.into_token())?;
    }
    Ok(tokens)
}

/// Wraps the parts of a checked token.
fn checked_each<'t>(
    alloc: Global,
    tokens: Vec<Token<'t, ExpressionMetadata>>,
) -> Result<Vec<Checked<Token<'t, ExpressionMetadata>>>, AllocError>
    requires { (t : Tree Span) → Contains tokens.items t → KeepsRules t }
    ensures { IfOk result (λ all. all.items ≡ tokens.entry.items) }
{
    let mut all = Vec::with_capacity(alloc, tokens.len())?;
    for token in tokens {
        all.push(Checked { inner: token })?;
    }
    Ok(all)
}
