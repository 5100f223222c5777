//! Parsing: from an expression to its tokens.
ghost use Rattle.std.specs.{Prelude.{◌≡◌, IfOk, chars, length}, Cow.cow_str_bytes};
ghost use Rattle.wax_query.specs.Outcome.{MatchBuild};
ghost use Rattle.wax_token.specs.{Syntax.Tree, Reads.{Reads, Span}};
ghost use Rattle.wax_token.specs.Spelled.{LiesBetween, LiteralsHaveNoSlash};
ghost use Rattle.wax_parse.specs.Accepted.{IsPlace};

mod bounds;
mod class;
mod error;
mod flags;
mod glob;
mod leaf;
mod literal;
mod surroundings;
mod text;

use crate::parse::flags::Cursor;
use crate::parse::glob::read_glob;
use crate::parse::surroundings::{Around, Scope};
pub use error::ErrorEntry;
use std::alloc::Global;
use std::borrow::CowStr;
use std::marker::Model;
use thiserror::Error;
use wax_query::diagnostics::{Refusal, Span};
use wax_token::token::{ExpressionMetadata, Token, Tokenized};

/// An expression can't be read as tokens (error 1). Contracts see its place.
#[derive(Clone, Copy, Debug, Error)]
#[error("failed to parse glob expression")]
pub struct ParseError {
    place: Span,
}

impl Model for ParseError {
    ghost use Rattle.std.specs.Prelude.{ℕ};

    ghost Value = { ℕ × ℕ };

    ghost view = { λ e. e.place };

    ghost inverse = { λ s. record { place = s } };
}

impl ParseError {
    /// Returns the span, in bytes, of the character at which reading failed. It is empty at the end
    /// of the expression, if more had to follow.
    pub fn place(&self) -> Span
        ensures { result ≡ self.now }
    {
        self.place
    }
}

/// How deep alternations and repetitions may nest in an expression.
const DEEPEST: usize = 128;

/// Parses an expression into its tokens, each with its span in bytes. Checks none of the rules, so
/// tokens that `wax_rule::rule::check` rejects are returned, too.
///
/// Allocates for the tokens and for each literal with an escape; other literals borrow their text
/// from the expression. Recursion is at most 128 globs deep, whatever the expression.
///
/// # Errors
///
/// Returns `Refusal::Refused` if the expression can't be read as tokens (error 1), and
/// `Refusal::Memory` if allocation fails.
pub fn parse<'t>(
    alloc: Global,
    expression: &'t str,
) -> Result<Tokenized<'t, ExpressionMetadata>, Refusal<ParseError>>
    ensures expression { IfOk result (λ t. cow_str_bytes t.expression ≡ expression.now) }
    ensures reads { MatchBuild result (λ t. Reads (chars expression.now) t.token)
        (λ _. (t : Tree Span) → Reads (chars expression.now) t → ⊥) }
    ensures only { IfOk result (λ t. (u : Tree Span) → Reads (chars expression.now) u → u ≡ t.token) }
    ensures place { MatchBuild result (λ _. Unit {0}) (λ e. IsPlace (chars expression.now) e) }
    ensures spans { IfOk result (λ t. LiesBetween 0 (length expression.now) t.token) }
    ensures literals { IfOk result (λ t. LiteralsHaveNoSlash t.token) }
{
    let token = read_expression(alloc, expression)?;
    Ok(Tokenized {
        expression: CowStr::Borrowed(expression),
        token,
    })
}

/// Reads the whole expression. The empty one is a literal without characters; any other is a
/// concatenation.
fn read_expression<'t>(
    alloc: Global,
    expression: &'t str,
) -> Result<Token<'t, ExpressionMetadata>, Refusal<ParseError>>
    ensures { MatchBuild result
        (λ t. Reads (chars expression.now) t × ((u : Tree Span) → Reads (chars expression.now) u → u ≡ t))
        (λ e. ((t : Tree Span) → Reads (chars expression.now) t → ⊥) × IsPlace (chars expression.now) e) }
{
    if expression.is_empty() {
        return Ok(Token::empty(ExpressionMetadata::new((0, 0))));
    }
    let scope = Scope {
        expression,
        around: Around::Whole,
        depth: DEEPEST,
    };
    let start = Cursor {
        is_case_insensitive: false,
        rest: expression,
    };
    let (token, _) = read_glob(alloc, scope, start)?;
    Ok(token)
}
