//! Single matches.
ghost use Rattle.std.specs.Prelude.{◌↔◌, IfOk, IsTrue, chars};
ghost use Rattle.wax_test_uses.specs.Names.{IsMeantBy, IsPictureName};

use std::alloc::Global;
use wax::{BuildError, CandidatePath, Glob, Program};

/// Returns whether the expression matches the path. It shows how to state what an expression matches
/// that is given as text: by the tree that it spells.
///
/// # Errors
///
/// Returns the errors of `Glob::new`.
pub fn expression_matches(alloc: Global, expression: &str, path: &str) -> Result<bool, BuildError>
    ensures { IfOk result (λ answer. IsTrue answer ↔ IsMeantBy (chars expression.now) (chars path.now)) }
{
    let glob = Glob::new(alloc, expression)?;
    Ok(glob.is_match(alloc, &CandidatePath::from(path))?)
}

/// Returns whether the path is a name that ends with `.png`. It shows a contract in words of your own
/// about a pattern that is written out: a lemma says what `*.png` spells and matches.
///
/// # Errors
///
/// Returns `Memory` if allocation fails.
pub fn is_picture(alloc: Global, path: &str) -> Result<bool, BuildError>
    ensures { IfOk result (λ answer. IsTrue answer ↔ IsPictureName (chars path.now)) }
{
    let glob = Glob::new(alloc, "*.png")?;
    Ok(glob.is_match(alloc, &CandidatePath::from(path))?)
}
