//! Calls that write a text: an escaped one, and the picture of an error.
ghost use Rattle.std.specs.Prelude.{◌≡◌, ◌≤◌, ◌*◌, IfErr, IfOk, chars, length, neg_ℤ, pos, string_bytes};
ghost use Rattle.wax.specs.Language.{error_labels, picture};
ghost use Rattle.wax_c.specs.Outcomes.{Fills, FillsOfText, KeepsAfterError, OfText};
ghost use Rattle.wax_c.specs.Texts.{IsEscaped, IsPicture};

use crate::error::{CallError, status_of};
use crate::output::put;
use std::alloc::Global;
use wax::{BuildError, Glob, escape};

/// Writes an expression that matches only this text to the beginning of the output, and the number of
/// its bytes to `written`: the text, with a backslash before each character that needs one. What is
/// written for a text with a backslash is no expression. An output of twice as many bytes as the text
/// is always large enough. Returns 0.
///
/// # Errors
///
/// Returns -10 if allocation fails, and -20 if the text isn't UTF-8; `written` is 0 then. Returns -21
/// if the output is too small; `written` is how many bytes are needed then. The output is unchanged
/// in all these cases.
#[unsafe(no_mangle)]
pub extern "C" fn wax_escape(
    alloc: Global,
    text: &[u8],
    output: &mut [u8],
    written: &mut usize,
) -> i32
    ensures fills { FillsOfText text.now IsEscaped output.old
        (record { bytes = output.new; written = written.new }) result }
    ensures room { 2 * length text.now ≤ length output.old → result ≡ neg_ℤ (pos 21) → ⊥ }
{
    status_of(&write_escaped(alloc, text, output, written))
}

/// Draws why the expression isn't built: writes the expression to the beginning of the output, and
/// under it a line for each part that the error names. Writes the number of these bytes to `written`,
/// which is 0 if the expression has no error. Returns 0.
///
/// # Errors
///
/// Returns the errors of `wax_escape`.
#[unsafe(no_mangle)]
pub extern "C" fn wax_picture(
    alloc: Global,
    expression: &[u8],
    output: &mut [u8],
    written: &mut usize,
) -> i32
    ensures { FillsOfText expression.now IsPicture output.old
        (record { bytes = output.new; written = written.new }) result }
{
    status_of(&write_picture(alloc, expression, output, written))
}

fn write_escaped(
    alloc: Global,
    text: &[u8],
    output: &mut [u8],
    written: &mut usize,
) -> Result<(), CallError>
    ensures fills { OfText text.now (λ text. Fills (IsEscaped text) output.old
        (record { bytes = output.new; written = written.new })) result }
    ensures kept { KeepsAfterError output.old (record { bytes = output.new; written = written.new }) result }
    ensures room { 2 * length text.now ≤ length output.old
        → IfErr result (λ error. error ≡ CallError.NoRoom → ⊥) }
{
    *written = 0;
    let Ok(text) = str::from_utf8(text) else {
        return Err(CallError::NotText);
    };
    match escape(alloc, text) {
        Ok(escaped) => put(escaped.as_str().as_bytes(), output, written),
        Err(_) => Err(CallError::Build(BuildError::Memory)),
    }
}

fn write_picture(
    alloc: Global,
    expression: &[u8],
    output: &mut [u8],
    written: &mut usize,
) -> Result<(), CallError>
    ensures fills { OfText expression.now (λ expression. Fills (IsPicture expression) output.old
        (record { bytes = output.new; written = written.new })) result }
    ensures kept { KeepsAfterError output.old (record { bytes = output.new; written = written.new }) result }
{
    *written = 0;
    let Ok(expression) = str::from_utf8(expression) else {
        return Err(CallError::NotText);
    };
    match drawn(alloc, expression) {
        Ok(picture) => put(picture.as_str().as_bytes(), output, written),
        Err(error) => Err(error),
    }
}

// Returns the picture of the error, or an empty text if the expression has none.
fn drawn(alloc: Global, expression: &str) -> Result<String, CallError>
    ensures ok { IfOk result (λ text. IsPicture (chars expression.now) (string_bytes text)) }
    ensures err { IfErr result (λ error. error ≡ CallError.Build BuildError.Memory) }
{
    match Glob::new(alloc, expression) {
        Ok(_) => Ok(String::new(alloc)),
        Err(error) => picture_of(alloc, expression, &error),
    }
}

fn picture_of(alloc: Global, expression: &str, error: &BuildError) -> Result<String, CallError>
    ensures drawn { IfOk result (λ text. string_bytes text
        ≡ picture (chars expression.now) (error_labels error.now)) }
    ensures not_memory { IfOk result (λ _. ¬ (error.now ≡ BuildError.Memory)) }
    ensures err { IfErr result (λ error. error ≡ CallError.Build BuildError.Memory) }
{
    if matches!(error, BuildError::Memory) {
        return Err(CallError::Build(BuildError::Memory));
    }
    match error.picture(alloc, expression) {
        Ok(picture) => Ok(picture),
        Err(_) => Err(CallError::Build(BuildError::Memory)),
    }
}
