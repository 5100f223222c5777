//! Partition of parsed and of checked expressions.
ghost use Rattle.std.specs.{Prelude.{◌≡◌, IfOk, IsTrue, chars, string_bytes}, Cow.cow_str_bytes};
ghost use Rattle.std.specs.Option.{option_map};
ghost use Rattle.wax_token.specs.{Reads.Span, declared.token.Tokenized.Tokenized};
ghost use Rattle.wax_partition.specs.Partition.{IsPartition, spelled_rest};
ghost use Rattle.wax_rule.specs.Keeping.{KeepsRules};

use crate::flat::is_flat;
use crate::parts::partition;
use std::alloc::Global;
use wax_query::diagnostics::NoMemory;
use wax_rule::rule::{Checked, already_checked, check};
use wax_token::token::{ExpressionMetadata, Tokenized};

/// An expression with its tokens, checked or not.
pub trait Partitioned: Sized {
    /// The expression with its tokens, as contracts see it.
    ghost whole: { Self → Tokenized Span };

    /// Splits the expression into its prefix and the rest, which is `None` if no token is left. The
    /// rest of a checked expression keeps the rules, too. Takes time and memory linear in the
    /// expression and the texts of its tokens.
    ///
    /// # Errors
    ///
    /// Returns `NoMemory` if allocation fails. Also returns it if a checked expression has a
    /// concatenation in a concatenation, which `parse` never builds, and its rest breaks a rule.
    fn partition(self, alloc: Global) -> Result<(String, Option<Self>), NoMemory>
        ensures { IfOk result (λ r. IsPartition (chars (cow_str_bytes (whole self).expression))
            (whole self).token (chars (string_bytes r.0)) (spelled_rest (option_map whole r.1))) };
}

impl<'t> Partitioned for Tokenized<'t, ExpressionMetadata> {
    ghost whole = { λ t. t };

    fn partition(self, alloc: Global) -> Result<(String, Option<Self>), NoMemory> {
        match partition(alloc, self)? {
            (prefix, Some(rest)) => Ok((prefix, Some(rest))),
            (prefix, None) => Ok((prefix, None)),
        }
    }
}

impl<'t> Partitioned for Checked<Tokenized<'t, ExpressionMetadata>> {
    ghost whole = { λ t. t };

    fn partition(self, alloc: Global) -> Result<(String, Option<Self>), NoMemory> {
        let tokenized = self.release();
        let is_flat = is_flat(&tokenized.token);
        let (prefix, rest) = partition(alloc, tokenized)?;
        match rest {
            Some(rest) => Ok((prefix, Some(checked_rest(alloc, rest, is_flat)?))),
            None => Ok((prefix, None)),
        }
    }
}

// Wraps the rest of an expression that keeps the rules. It is checked again unless the tokens of
// the whole were flat: nothing is known of what is left of others.
fn checked_rest<'t>(
    alloc: Global,
    rest: Tokenized<'t, ExpressionMetadata>,
    was_flat: bool,
) -> Result<Checked<Tokenized<'t, ExpressionMetadata>>, NoMemory>
    requires { IsTrue was_flat → KeepsRules rest.token }
    ensures { IfOk result (λ checked. checked ≡ rest.entry) }
{
    if was_flat {
        return Ok(already_checked(rest));
    }
    match check(alloc, rest) {
        Ok(checked) => Ok(checked),
        Err(_) => Err(NoMemory),
    }
}
