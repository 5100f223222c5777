//! Globs of one component.
ghost use Rattle.std.specs.Prelude.{ℕ, List, IfOk, chars};
ghost use Rattle.wax.specs.{Headline.MatchGlob, GlobView.IsMeant, Language.HasNoSlash};
ghost use Rattle.wax_test_uses.specs.Names.{IsOneComponent};

use std::alloc::Global;
use wax::{BuildError, Glob};

/// Builds the glob of an expression. If neither `/` nor `**` is written in it, no text that matches
/// contains a `/`. It shows a promise about every glob of a kind: components are respected.
///
/// # Errors
///
/// Returns the errors of `Glob::new`.
pub fn glob_of_component<'t>(alloc: Global, expression: &'t str) -> Result<Glob<'t>, BuildError>
    ensures built { MatchGlob (chars expression.now) result }
    ensures respects { IfOk result (λ glob. IsOneComponent (chars expression.now)
        → (text : List ℕ) → IsMeant glob text → HasNoSlash text) }
{
    Glob::new(alloc, expression)
}
