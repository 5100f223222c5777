//! What is known of all paths that a glob matches.
ghost use Rattle.std.specs.Prelude.{◌≡◌, IfOk, pos};
ghost use Rattle.wax.specs.{GlobView.GlobView, Language.{Span, Tree}, Queries.{bounds, text_of}};
ghost use Rattle.wax_c.specs.Facts.{AreFacts, HasExpression, HasExpressionAs, HasText, HasTextAs};
ghost use Rattle.wax_c.specs.{Facts.{bound_or_greatest, when_number}, GlobOwned.glob_at};
ghost use Rattle.wax_c.specs.{Outcomes.KeepsAfterError, inner.Showing.ShowsText};
ghost use types.Logic.{sem};

use crate::error::{CallError, number_of_bool, status_of};
use crate::handle::HeldGlob;
use crate::output::put;
use std::alloc::Global;
use wax::query::{DepthVariance, TextVariance, Variance, When};
use wax::{BuildError, Glob, NoMemory, Program};

/// What is known of all paths that a glob matches.
#[repr(C)]
#[derive(Clone, Copy)]
pub struct WaxFacts {
    /// The least number of components of a match, where `*`, `$` and a class are one character.
    pub least_depth: usize,
    /// The greatest number of components, or `usize::MAX` if there is no greatest.
    pub greatest_depth: usize,
    /// 2 if each match begins with `/`; 1 and 0 promise nothing.
    pub has_root: i32,
    /// 2 if everything below each match matches too; 1 and 0 promise nothing.
    pub is_exhaustive: i32,
}

/// Writes what is known of all paths that the glob matches to `facts`. Returns 0. It doesn't allocate.
#[unsafe(no_mangle)]
pub unsafe extern "C" fn wax_glob_facts(alloc: Global, glob: *const u8, facts: &mut WaxFacts) -> i32
    ghost held: { GlobView }
    requires* { sem 𝓛 (glob_at alloc glob held) }
    ensures* back { sem 𝓛 (glob_at alloc glob held) }
    ensures facts { AreFacts held.tree facts.new × (result ≡ pos 0) }
{
    facts_held(alloc, &*(glob as *const HeldGlob), facts)
}

/// Writes the expression from which the glob was built to the beginning of the output, and the number
/// of its bytes to `written`. Returns 0. For the rest of a glob, it is the rest of the expression. It
/// doesn't allocate.
///
/// # Errors
///
/// Returns -21 if the output is too small; `written` is how many bytes are needed then, and the output
/// is unchanged.
#[unsafe(no_mangle)]
pub unsafe extern "C" fn wax_glob_expression(
    alloc: Global,
    glob: *const u8,
    output: &mut [u8],
    written: &mut usize,
) -> i32
    ghost held: { GlobView }
    requires* { sem 𝓛 (glob_at alloc glob held) }
    ensures* back { sem 𝓛 (glob_at alloc glob held) }
    ensures expression { HasExpressionAs held output.old
        (record { bytes = output.new; written = written.new }) result }
{
    expression_held(alloc, &*(glob as *const HeldGlob), output, written)
}

/// Writes the only text that the glob matches to the beginning of the output, and the number of its
/// bytes to `written`. Returns 1, or 0 if the expression isn't written as one text; `written` is 0 then,
/// and the output is unchanged.
///
/// # Errors
///
/// Returns -10 if allocation fails; `written` is 0 then. Returns -21 if the output is too small;
/// `written` is how many bytes are needed then. The output is unchanged in both cases.
#[unsafe(no_mangle)]
pub unsafe extern "C" fn wax_glob_text(
    alloc: Global,
    glob: *const u8,
    output: &mut [u8],
    written: &mut usize,
) -> i32
    ghost held: { GlobView }
    requires* { sem 𝓛 (glob_at alloc glob held) }
    ensures* back { sem 𝓛 (glob_at alloc glob held) }
    ensures text { HasTextAs held.tree output.old
        (record { bytes = output.new; written = written.new }) result }
{
    text_held(alloc, &*(glob as *const HeldGlob), output, written)
}

fn facts_held(_alloc: Global, held: &HeldGlob, facts: &mut WaxFacts) -> i32
    ensures { AreFacts held.now.matcher.tree facts.new × (result ≡ pos 0) }
{
    let glob = held.matcher.glob();
    *facts = facts_of(glob.depth(), glob.has_root(), glob.is_exhaustive());
    0
}

/// Returns what is known of paths with these depths.
pub(crate) fn facts_of(depth: DepthVariance, has_root: When, is_exhaustive: When) -> WaxFacts
    ensures least { result.least_depth ≡ (bounds depth).0 }
    ensures greatest { result.greatest_depth ≡ bound_or_greatest (bounds depth).1 }
    ensures root { result.has_root ≡ when_number has_root }
    ensures exhaustive { result.is_exhaustive ≡ when_number is_exhaustive }
{
    WaxFacts {
        least_depth: depth.lower(),
        greatest_depth: or_greatest(depth.upper()),
        has_root: number_of_when(has_root),
        is_exhaustive: number_of_when(is_exhaustive),
    }
}

fn or_greatest(bound: Option<usize>) -> usize
    ensures { result ≡ bound_or_greatest bound }
{
    bound.unwrap_or(usize::MAX)
}

fn number_of_when(when: When) -> i32
    ensures { result ≡ when_number when }
{
    match when {
        When::Never => 0,
        When::Sometimes => 1,
        When::Always => 2,
    }
}

fn expression_held(_alloc: Global, held: &HeldGlob, output: &mut [u8], written: &mut usize) -> i32
    ensures { HasExpressionAs held.now.matcher output.old
        (record { bytes = output.new; written = written.new }) result }
{
    status_of(&write_expression(held.matcher.glob(), output, written))
}

fn write_expression(
    glob: &Glob<'_>,
    output: &mut [u8],
    written: &mut usize,
) -> Result<(), CallError>
    ensures { HasExpression glob.now output.old
        (record { bytes = output.new; written = written.new }) result }
{
    put(glob.expression().as_bytes(), output, written)
}

fn text_held(alloc: Global, held: &HeldGlob, output: &mut [u8], written: &mut usize) -> i32
    ensures { HasTextAs held.now.matcher.tree output.old
        (record { bytes = output.new; written = written.new }) result }
{
    let text = held.matcher.glob().text(alloc);
    number_of_bool(&write_text(text, output, written))
}

/// Writes the text to the beginning of the output, if there is one, and the number of its bytes to
/// `written`, which is 0 if there is none. Returns whether there is one.
///
/// # Errors
///
/// Returns `Memory` (10) if allocation failed; `written` is 0 then. Returns `NoRoom` (21) if the output
/// is too small. The output is unchanged in both cases.
pub(crate) fn write_text(
    text: Result<TextVariance<'static>, NoMemory>,
    output: &mut [u8],
    written: &mut usize,
) -> Result<bool, CallError>
    ensures text { (t : Tree Span) → IfOk text.entry (λ text. ShowsText t (text_of text))
        → HasText t output.old (record { bytes = output.new; written = written.new }) result }
    ensures kept { KeepsAfterError output.old (record { bytes = output.new; written = written.new }) result }
{
    *written = 0;
    let Ok(text) = text else {
        return Err(CallError::Build(BuildError::Memory));
    };
    let Variance::Invariant(text) = text else {
        return Ok(false);
    };
    match put(text.as_str().as_bytes(), output, written) {
        Ok(()) => Ok(true),
        Err(error) => Err(error),
    }
}
