//! What calls do, with `Result`s in place of numbers.
ghost use Rattle.std.specs.Prelude.{◌≡◌, ◌≤◌, ◌+◌, IfErr, IfOk, IfSome, MatchResult, OnErr, length};
ghost use Rattle.wax_c.specs.Outcomes.{AreLines, Decides, Fills, IsGlobOf, IsNoGlob, SaysGoesOn, SaysMatch};
ghost use Rattle.wax_c.specs.inner.Spelled.{SpellsOnly};

use crate::error::CallError;
use crate::output::put;
use std::alloc::Global;
use wax::rule::{Checked, check};
use wax::token::{ExpressionMetadata, Tokenized, parse};
use wax::{BuildError, CandidatePath, Counted, Glob, OwnedGlobMatcher, Program, filter_lines};

/// Builds the glob of an expression.
///
/// # Errors
///
/// Returns `NotText` (20) if the bytes aren't UTF-8, and otherwise the errors of `Glob::new`.
pub(crate) fn build<'e>(alloc: Global, expression: &'e [u8]) -> Result<Glob<'e>, CallError>
    ensures { MatchResult result (IsGlobOf expression.now) (IsNoGlob expression.now) }
{
    let Ok(text) = str::from_utf8(expression) else {
        return Err(CallError::NotText);
    };
    match Glob::new(alloc, text) {
        Ok(glob) => Ok(glob),
        Err(error) => Err(CallError::Build(error)),
    }
}

/// Reads and checks an expression. Returns `None` if it isn't UTF-8, spells no glob or breaks a rule, or if
/// allocation fails.
pub(crate) fn read<'e>(
    alloc: Global,
    expression: &'e [u8],
) -> Option<Checked<Tokenized<'e, ExpressionMetadata>>>
    ensures { IfSome result (SpellsOnly expression.now) }
{
    let Ok(text) = str::from_utf8(expression) else {
        return None;
    };
    let Ok(tokenized) = parse(alloc, text) else {
        return None;
    };
    match check(alloc, tokenized) {
        Ok(checked) => Some(checked),
        Err(_) => None,
    }
}

/// Returns whether the glob matches the path.
///
/// # Errors
///
/// Returns `NotText` (20) if the path isn't UTF-8, and `Build(Memory)` (10) if allocation fails.
pub(crate) fn decide(alloc: Global, glob: &Glob<'_>, path: &[u8]) -> Result<bool, CallError>
    ensures { Decides (SaysMatch glob.now) path.now result }
{
    let Ok(path) = str::from_utf8(path) else {
        return Err(CallError::NotText);
    };
    match glob.is_match(alloc, &CandidatePath::from(path)) {
        Ok(answer) => Ok(answer),
        Err(_) => Err(CallError::Build(BuildError::Memory)),
    }
}

/// Returns whether the glob of the matcher matches the path.
///
/// # Errors
///
/// Returns the errors of `decide`.
pub(crate) fn decide_cached(
    matcher: &mut OwnedGlobMatcher<'_>,
    path: &[u8],
) -> Result<bool, CallError>
    ensures answer { Decides (SaysMatch matcher.old) path.now result }
    ensures same { matcher.new ≡ matcher.old }
{
    let Ok(path) = str::from_utf8(path) else {
        return Err(CallError::NotText);
    };
    match matcher.is_match(&CandidatePath::from(path)) {
        Ok(answer) => Ok(answer),
        Err(_) => Err(CallError::Build(BuildError::Memory)),
    }
}

/// Returns whether the glob of the matcher matches the path of something below the folder.
///
/// # Errors
///
/// Returns the errors of `decide`.
pub(crate) fn decide_below(
    matcher: &mut OwnedGlobMatcher<'_>,
    folder: &[u8],
) -> Result<bool, CallError>
    ensures answer { Decides (SaysGoesOn matcher.old) folder.now result }
    ensures same { matcher.new ≡ matcher.old }
{
    let Ok(folder) = str::from_utf8(folder) else {
        return Err(CallError::NotText);
    };
    match matcher.goes_on(&CandidatePath::from(folder)) {
        Ok(goes_on) => Ok(goes_on),
        Err(_) => Err(CallError::Build(BuildError::Memory)),
    }
}

/// Writes the lines of the input that the glob matches to the beginning of the output, and the
/// number of their bytes to `written`.
///
/// # Errors
///
/// Returns `NoRoom` (21) if the output is too small; `written` is how many bytes are needed then.
/// Returns `Build(Memory)` (10) if allocation fails; `written` is 0 then. The output is unchanged
/// in both cases.
pub(crate) fn fill(
    alloc: Global,
    glob: &Glob<'_>,
    input: &[u8],
    output: &mut [u8],
    written: &mut usize,
) -> Result<(), CallError>
    ensures fills { Fills (AreLines glob.now input.now) output.old
        (record { bytes = output.new; written = written.new }) result }
    ensures unchanged { OnErr result (output.new ≡ output.old) }
    ensures nothing { IfErr result (λ error. (error ≡ CallError.NoRoom → ⊥) → written.new ≡ 0) }
    ensures room { length input.now + 1 ≤ length output.old
        → IfErr result (λ error. error ≡ CallError.NoRoom → ⊥) }
{
    *written = 0;
    let lines = lines_of(alloc, glob, input)?;
    put(&lines, output, written)
}

// Collects the lines in memory, so that the output stays unchanged if they don't fit.
fn lines_of(alloc: Global, glob: &Glob<'_>, input: &[u8]) -> Result<Vec<u8>, CallError>
    ensures ok { IfOk result (λ out. AreLines glob.now input.now out.items) }
    ensures err { IfErr result (λ error. error ≡ CallError.Build BuildError.Memory) }
{
    let mut lines = Counted::new(input);
    let mut matched = Counted::new(Vec::new(alloc));
    match filter_lines(alloc, &mut lines, &mut matched, glob) {
        Ok(_) => Ok(matched.into_inner()),
        Err(_) => Err(CallError::Build(BuildError::Memory)),
    }
}
