//! Patterns, and sets that are built from them.
ghost use Rattle.std.specs.Prelude.{◌≡◌, ◌++◌, ◌∷◌, [], IfOk, MatchResult, OnOk, chars};
ghost use Rattle.wax_token.specs.{Reads.Span, Syntax.Tree};
ghost use Rattle.wax_rule.specs.Expressions.{Refuses, Spells};
ghost use Rattle.wax_rule.specs.declared.error.build_error.BuildError.{BuildError};
ghost use Rattle.wax_set.specs.Patterns.{IsAnyOf, IsOnly, LacksMemory, NoSet, RefusesOk, SpellEach, SpellsOk};

use crate::set::{Any, compiled};
use std::alloc::Global;
use wax_query::diagnostics::{NoMemory, Refusal};
use wax_rule::rule::Checked;
use wax_rule::{BuildError, parse_and_check};
use wax_token::token::{ExpressionMetadata, Token, Tokenized};

/// A pattern of a set: an expression, a glob, a set, tokens that were checked, or a `Result` with
/// one of these.
pub trait Pattern: Sized {
    /// The trees that the pattern spells or holds.
    ghost spells: { Self → Tree Span → Type 0 };

    /// The errors that `into_checked` may return.
    ghost refuses: { Self → BuildError → Type 0 };

    /// Converts the pattern into a token that keeps the rules and owns its texts. An expression is
    /// parsed and checked, and an `Err` is returned as it is.
    ///
    /// # Errors
    ///
    /// Returns the errors 1 to 8 of `Glob::new` for an expression, the error itself for a `Result`
    /// that is one, and `Memory` (10) if allocation fails.
    fn into_checked(
        self,
        alloc: Global,
    ) -> Result<Checked<Token<'static, ExpressionMetadata>>, BuildError>
        ensures { MatchResult result (IsOnly (spells self)) (refuses self) };
}

impl<'t> Pattern for &'t str {
    ghost spells = { λ expression. Spells (chars expression.now) };

    ghost refuses = { λ expression. Refuses (chars expression.now) };

    fn into_checked(
        self,
        alloc: Global,
    ) -> Result<Checked<Token<'static, ExpressionMetadata>>, BuildError> {
        let checked = token_of(parse_and_check(alloc, self)?);
        Ok(checked.into_owned(alloc)?)
    }
}

impl<'t> Pattern for Checked<Token<'t, ExpressionMetadata>> {
    ghost spells = { λ checked t. t ≡ checked };

    ghost refuses = { λ checked. LacksMemory };

    fn into_checked(
        self,
        alloc: Global,
    ) -> Result<Checked<Token<'static, ExpressionMetadata>>, BuildError> {
        Ok(self.into_owned(alloc)?)
    }
}

impl<'t> Pattern for Checked<Tokenized<'t, ExpressionMetadata>> {
    ghost spells = { λ checked t. t ≡ checked.token };

    ghost refuses = { λ checked. LacksMemory };

    fn into_checked(
        self,
        alloc: Global,
    ) -> Result<Checked<Token<'static, ExpressionMetadata>>, BuildError> {
        let checked = token_of(self);
        Ok(checked.into_owned(alloc)?)
    }
}

impl<P: Pattern> Pattern for Result<P, BuildError> {
    ghost spells = { SpellsOk P.spells };

    ghost refuses = { RefusesOk P.refuses };

    fn into_checked(
        self,
        alloc: Global,
    ) -> Result<Checked<Token<'static, ExpressionMetadata>>, BuildError> {
        match self {
            Ok(pattern) => pattern.into_checked(alloc),
            Err(error) => Err(error),
        }
    }
}

/// Builds a set from patterns, which matches what at least one of them matches, and nothing if
/// there are none. It takes time and memory in proportion to the patterns' tokens and their cost.
///
/// ```
/// use wax::any;
///
/// let pictures = any(alloc, vec![in alloc; "**/*.png", "**/*.{jpg,jpeg}"]?)?;
/// println!(rt; "{}", pictures.is_match(alloc, &CandidatePath::from("a/logo.jpeg"))?)?; // true
/// ```
///
/// # Errors
///
/// Returns the error of the first pattern that has one, `Compile` (9) if the program of the set
/// would have more than 1,048,576 instructions, and `Memory` (10) if allocation fails.
pub fn any<P: Pattern + Drop>(alloc: Global, patterns: Vec<P>) -> Result<Any<'static>, BuildError>
    ensures { MatchResult result (IsAnyOf P.spells patterns.items)
        (NoSet P.spells P.refuses patterns.items) }
{
    let tokens = tokens_of(alloc, patterns)?;
    let token = Checked::any(alloc, tokens)?;
    match compiled(alloc, token) {
        Ok(any) => Ok(any),
        Err(Refusal::Refused(error)) => Err(BuildError::Compile(error)),
        Err(Refusal::Memory) => Err(BuildError::Memory),
    }
}

// Drops the expression of what was checked.
fn token_of<'t>(
    checked: Checked<Tokenized<'t, ExpressionMetadata>>,
) -> Checked<Token<'t, ExpressionMetadata>>
    ensures { result ≡ checked.entry.token }
{
    checked.into_token()
}

// Converts the patterns in order. The first error ends it.
fn tokens_of<P: Pattern + Drop>(
    alloc: Global,
    patterns: Vec<P>,
) -> Result<Vec<Checked<Token<'static, ExpressionMetadata>>>, BuildError>
    ensures { MatchResult result (λ tokens. SpellEach P.spells patterns.items tokens.items)
        (NoSet P.spells P.refuses patterns.items) }
{
    let mut tokens = Vec::new(alloc);
    for pattern in patterns {
        let checked = match pattern.into_checked(alloc) {
            Ok(checked) => checked,
            Err(error) => return Err(error),
        };
        tokens.push(checked)?;
    }
    Ok(tokens)
}
