//! Calls that take an expression.
ghost use Rattle.std.specs.Prelude.{◌≡◌, ◌≤◌, ◌+◌, IfErr, OnErr, length, neg_ℤ, pos};
ghost use Rattle.wax_c.specs.Outcomes.{AnswersAs, AreLines, Decides, Ends, Fills, OfExpression, SaysMatch};

use crate::calls::{build, decide, fill};
use crate::error::{CallError, number_of_bool, status_of};
use std::alloc::Global;

/// Returns 1 if the expression matches the path and 0 if not.
///
/// # Errors
///
/// Returns -1 to -9 if the expression isn't built, -10 if allocation fails, and -20 if one of the
/// texts isn't UTF-8.
#[unsafe(no_mangle)]
pub extern "C" fn wax_is_match(alloc: Global, expression: &[u8], path: &[u8]) -> i32
    ensures { AnswersAs expression.now (λ glob. Decides (SaysMatch glob) path.now) result }
{
    number_of_bool(&is_match(alloc, expression, path))
}

/// Writes the lines of the input that the expression matches to the beginning of the output, each
/// with a line feed, and the number of their bytes to `written`. Lines that aren't UTF-8 are
/// excluded. An output of one byte more than the input is always large enough. Returns 0.
///
/// # Errors
///
/// Returns -1 to -9 if the expression isn't built, -10 if allocation fails, and -20 if the
/// expression isn't UTF-8; `written` is 0 then. Returns -21 if the output is too small; `written`
/// is how many bytes are needed then. The output is unchanged in all these cases.
#[unsafe(no_mangle)]
pub extern "C" fn wax_filter(
    alloc: Global,
    expression: &[u8],
    input: &[u8],
    output: &mut [u8],
    written: &mut usize,
) -> i32
    ensures fills { Ends expression.now (λ glob. Fills (AreLines glob input.now) output.old
        (record { bytes = output.new; written = written.new })) result }
    ensures unchanged { (result ≡ pos 0 → ⊥) → output.new ≡ output.old }
    ensures nothing { (result ≡ pos 0 → ⊥) → (result ≡ neg_ℤ (pos 21) → ⊥) → written.new ≡ 0 }
    ensures room { length input.now + 1 ≤ length output.old → result ≡ neg_ℤ (pos 21) → ⊥ }
{
    status_of(&filter(alloc, expression, input, output, written))
}

fn is_match(alloc: Global, expression: &[u8], path: &[u8]) -> Result<bool, CallError>
    ensures { OfExpression expression.now (λ glob. Decides (SaysMatch glob) path.now) result }
{
    match build(alloc, expression) {
        Ok(glob) => decide(alloc, &glob, path),
        Err(error) => Err(error),
    }
}

fn filter(
    alloc: Global,
    expression: &[u8],
    input: &[u8],
    output: &mut [u8],
    written: &mut usize,
) -> Result<(), CallError>
    ensures fills { OfExpression expression.now (λ glob. Fills (AreLines glob input.now) output.old
        (record { bytes = output.new; written = written.new })) result }
    ensures unchanged { OnErr result (output.new ≡ output.old) }
    ensures nothing { IfErr result (λ error. (error ≡ CallError.NoRoom → ⊥) → written.new ≡ 0) }
    ensures room { length input.now + 1 ≤ length output.old
        → IfErr result (λ error. error ≡ CallError.NoRoom → ⊥) }
{
    *written = 0;
    match build(alloc, expression) {
        Ok(glob) => fill(alloc, &glob, input, output, written),
        Err(error) => Err(error),
    }
}
