//! Expressions that are read and checked.
ghost use Rattle.std.specs.{Prelude.{◌≡◌, IfOk, MatchResult, chars, length}, Cow.cow_str_bytes};
ghost use Rattle.wax_rule.specs.Expressions.{Refuses, Spells};
ghost use Rattle.wax_token.specs.{Reads.{Reads, Span}, Spelled.LiesBetween, Syntax.Tree};

use crate::error::build_error::{BuildError, rule_refused};
use crate::rule::{Checked, check};
use std::alloc::Global;
use wax_parse::parse::parse;
use wax_token::token::{ExpressionMetadata, Tokenized};

/// Parses an expression, and checks the rules. Takes time and memory linear in the expression, and
/// time in proportion to how deep its tokens nest.
///
/// # Errors
///
/// Returns `Parse` (1) if the expression doesn't spell a glob, `Rule` (2 to 8) for the first rule
/// that it breaks, and `Memory` (10) if allocation fails.
pub fn parse_and_check<'t>(
    alloc: Global,
    expression: &'t str,
) -> Result<Checked<Tokenized<'t, ExpressionMetadata>>, BuildError>
    ensures spells { MatchResult result (λ c. Spells (chars expression.now) c.token)
        (Refuses (chars expression.now)) }
    ensures only { IfOk result (λ c. (t : Tree Span) → Reads (chars expression.now) t → t ≡ c.token) }
    ensures expression { IfOk result (λ c. cow_str_bytes c.expression ≡ expression.now) }
    ensures spans { IfOk result (λ c. LiesBetween 0 (length expression.now) c.token) }
{
    let tokenized = parse(alloc, expression)?;
    match check(alloc, tokenized) {
        Ok(checked) => Ok(checked),
        Err(refusal) => Err(rule_refused(alloc, refusal)),
    }
}
