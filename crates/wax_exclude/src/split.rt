//! Lines of an ignore list with the alternatives of their globs.
ghost use Rattle.std.specs.Prelude.{◌≡◌, IfOk, map};
ghost use Rattle.wax_exclude.specs.inner.Split.{split_of};

use crate::rules::IgnoreLine;
use std::alloc::Global;
use std::marker::Model;
use wax_facts::{Alternative, list_alternatives};
use wax_query::diagnostics::NoMemory;
use wax_token::token::ExpressionMetadata;

/// The alternatives of a line's glob, by reference. Contracts see their trees.
#[derive(Drop)]
pub struct Alternatives<'a> {
    tokens: Vec<Alternative<'a, 'static, ExpressionMetadata>>,
}

impl<'a> Model for Alternatives<'a> {
    ghost use Rattle.std.specs.Prelude.{List};
    ghost use Rattle.wax_token.specs.{Reads.Span, Syntax.Tree};
    ghost use Rattle.wax_exclude.specs.Compiled.{row_code};

    ghost Value = { List (Tree Span) };

    ghost coded = { row_code };

    ghost view = { λ a. a.tokens.items };
}

impl<'a> Alternatives<'a> {
    /// Returns the alternatives, each by reference.
    pub fn as_slice(&self) -> &[Alternative<'a, 'static, ExpressionMetadata>]
        ensures { result.now ≡ self.now }
    {
        self.tokens.as_slice()
    }
}

/// A line of an ignore list with the alternatives of its glob.
#[derive(Drop)]
pub struct SplitLine<'a> {
    pub ignores: bool,
    pub alternatives: Alternatives<'a>,
}

/// Splits the globs of lines into their alternatives. Takes time and memory in proportion to the tokens.
pub fn split_lines<'a>(
    alloc: Global,
    lines: &'a [IgnoreLine],
) -> Result<Vec<SplitLine<'a>>, NoMemory>
    ensures { IfOk result (λ split. split.items ≡ map split_of lines.now) }
{
    let mut split = Vec::new(alloc);
    for line in lines {
        split.push(split_line(alloc, line)?)?;
    }
    Ok(split)
}

/// Splits the glob of a line into its alternatives.
fn split_line<'a>(alloc: Global, line: &'a IgnoreLine) -> Result<SplitLine<'a>, NoMemory>
    ensures { IfOk result (λ split. split ≡ split_of line.now) }
{
    let tokens = list_alternatives(alloc, line.glob())?;
    Ok(SplitLine {
        ignores: line.ignores(),
        alternatives: Alternatives { tokens },
    })
}
