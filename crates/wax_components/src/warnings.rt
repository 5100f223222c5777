//! Warnings about globs that build, but may not match what their authors expect.
ghost use Rattle.std.specs.{Prelude.{◌≡◌, ◌++◌, IfOk, OnOk, chars}, List.flat_map};
ghost use Rattle.wax_components.specs.Levels.{literals};
ghost use Rattle.wax_components.specs.Warnings.{semantic_warnings, terminating_span, terminating_warnings};
ghost use Rattle.wax_components.specs.Warnings.{warnings};

use crate::kinds;
use crate::levels::literals;
use crate::parts::{Component, LiteralSequence};
use std::alloc::{AllocError, Global};
use std::marker::Model;
use thiserror::Error;
use wax_query::diagnostics::{LocatedError, NoMemory, Span};
use wax_token::token::{ExpressionMetadata, Token};

/// A component of an expression is `.` or `..`. Paths are matched as texts, so it doesn't lead to
/// another folder. Contracts see the characters of the expression, the span of the component, and
/// its text.
#[derive(Debug, Drop, Error)]
#[error("`{literal}` is matched as a text and stands for no folder")]
pub struct SemanticLiteralWarning<'t> {
    expression: &'t str,
    span: Span,
    literal: &'static str,
}

impl<'t> Model for SemanticLiteralWarning<'t> {
    ghost use Rattle.std.specs.Str.{chars};
    ghost use Rattle.wax_components.specs.Views.{SemanticView};

    ghost Value = { SemanticView };

    ghost view = { λ w. record {
      expression = chars w.expression.now;
      span = w.span;
      literal = chars w.literal.now;
    } };
}

impl<'t> SemanticLiteralWarning<'t> {
    /// Returns the whole expression.
    pub fn expression(&self) -> &'t str
        ensures { chars result.now ≡ self.now.expression }
    {
        self.expression
    }

    /// Returns the text of the component: `.` or `..`.
    pub fn literal(&self) -> &'static str
        ensures { chars result.now ≡ self.now.literal }
    {
        self.literal
    }
}

impl LocatedError for SemanticLiteralWarning<'_> {
    ghost span_of = { λ w. w.span };

    fn span(&self) -> Span {
        self.span
    }
}

/// An expression ends with a `/`, so it matches only paths that end with one. Contracts see the
/// characters of the expression and the span of the `/`.
#[derive(Debug, Drop, Error)]
#[error("the separator at the end matches only paths that end with one")]
pub struct TerminatingSeparatorWarning<'t> {
    expression: &'t str,
    span: Span,
}

impl<'t> Model for TerminatingSeparatorWarning<'t> {
    ghost use Rattle.std.specs.Str.{chars};
    ghost use Rattle.wax_components.specs.Views.{TerminatingView};

    ghost Value = { TerminatingView };

    ghost view = { λ w. record { expression = chars w.expression.now; span = w.span } };
}

impl<'t> TerminatingSeparatorWarning<'t> {
    /// Returns the whole expression.
    pub fn expression(&self) -> &'t str
        ensures { chars result.now ≡ self.now.expression }
    {
        self.expression
    }
}

impl LocatedError for TerminatingSeparatorWarning<'_> {
    ghost span_of = { λ w. w.span };

    fn span(&self) -> Span {
        self.span
    }
}

/// A warning about an expression that builds. Its `Display` form says what is likely a mistake.
#[derive(Debug, Drop, Error)]
pub enum Warning<'t> {
    #[error("{0}")]
    SemanticLiteral(SemanticLiteralWarning<'t>),
    #[error("{0}")]
    TerminatingSeparator(TerminatingSeparatorWarning<'t>),
}

impl LocatedError for Warning<'_> {
    ghost use Rattle.wax_components.specs.Warnings.{span_of_warning};

    ghost span_of = { span_of_warning };

    fn span(&self) -> Span {
        match self {
            Warning::SemanticLiteral(warning) => warning.span(),
            Warning::TerminatingSeparator(warning) => warning.span(),
        }
    }
}

/// Appends a warning if the text of a component is `.` or `..`.
fn push_semantic<'t>(
    warnings: &mut Vec<Warning<'t>>,
    expression: &'t str,
    component: &Component<'_, '_, ExpressionMetadata>,
    literal: &LiteralSequence<'_, '_, ExpressionMetadata>,
) -> Result<(), AllocError>
    ensures { OnOk result (warnings.new.items ≡
        warnings.old.items ++ semantic_warnings (chars expression.now) (component.now, literal.now)) }
{
    let Some(literal) = literal.semantic_text() else {
        return Ok(());
    };
    warnings.push(Warning::SemanticLiteral(SemanticLiteralWarning {
        expression,
        span: component.span(),
        literal,
    }))?;
    Ok(())
}

/// Returns the span of the last token, if that is a separator.
fn terminating_span<'t>(tokens: &[Token<'t, ExpressionMetadata>]) -> Option<Span>
    ensures { result ≡ terminating_span tokens.now }
{
    let last = tokens.last()?;
    if !last.is_separator() {
        return None;
    }
    Some(last.annotation().span())
}

fn push_terminating<'t>(
    warnings: &mut Vec<Warning<'t>>,
    expression: &'t str,
    span: Span,
) -> Result<(), AllocError>
    ensures { OnOk result (warnings.new.items ≡
        warnings.old.items ++ terminating_warnings (chars expression.now) (Some span)) }
{
    warnings.push(Warning::TerminatingSeparator(TerminatingSeparatorWarning { expression, span }))?;
    Ok(())
}

/// Returns the warnings about literals, level by level and from left to right.
fn semantic_literals<'t>(
    alloc: Global,
    expression: &'t str,
    token: &Token<'_, ExpressionMetadata>,
) -> Result<Vec<Warning<'t>>, NoMemory>
    ensures { IfOk result (λ ws. ws.items ≡
        flat_map (semantic_warnings (chars expression.now)) (literals token.now)) }
{
    let mut warnings = Vec::new(alloc);
    let literals = literals(alloc, token)?;
    for (component, literal) in literals.as_slice() {
        push_semantic(&mut warnings, expression, component, literal)?;
    }
    Ok(warnings)
}

/// Returns the warnings about an expression and its token: one for each component `.` or `..` of
/// the glob and its sub-globs, level by level and from left to right, and then one for a `/` at the
/// end of the glob. For `../a/` it returns two.
///
/// Allocates the list, and another of all literals.
pub fn diagnose<'t>(
    alloc: Global,
    expression: &'t str,
    token: &Token<'_, ExpressionMetadata>,
) -> Result<Vec<Warning<'t>>, NoMemory>
    ensures { IfOk result (λ ws. ws.items ≡ warnings (chars expression.now) token.now) }
{
    let mut warnings = semantic_literals(alloc, expression, token)?;
    if let Some(span) = terminating_span(kinds::top_level(token)) {
        push_terminating(&mut warnings, expression, span)?;
    }
    Ok(warnings)
}
