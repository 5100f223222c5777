//! The rule of incompatible bounds: a repetition's upper bound is below its lower one, or both are
//! zero.
ghost use Rattle.std.specs.Prelude.{◌≡◌};
ghost use Rattle.wax_facts.specs.Rules.{are_incompatible, bounds_breaks};
ghost use Rattle.wax_rule.specs.FirstBreak.{head_of};

use super::{Break, RuleErrorKind, break_here};
use wax_token::token::{BranchKind, ExpressionMetadata, Token};

fn are_incompatible(lower: usize, upper: Option<usize>) -> bool
    ensures { result ≡ are_incompatible lower upper }
{
    match upper {
        None => false,
        Some(upper) => upper < lower || lower == 0 && upper == 0,
    }
}

/// Returns the break of this rule at the token itself, not inside it.
pub(super) fn bounds_break<'t>(token: &Token<'t, ExpressionMetadata>) -> Option<Break>
    ensures { result ≡ head_of (bounds_breaks token.now) }
{
    match token.as_branch()? {
        BranchKind::Repetition(r) if are_incompatible(r.lower, r.upper) => {
            let span = token.annotation().span();
            Some(break_here(RuleErrorKind::IncompatibleBounds, span))
        }
        _ => None,
    }
}
