//! The warnings of a glob.
ghost use Rattle.std.specs.Prelude.{◌≡◌, IfOk};
ghost use Rattle.wax.specs.GlobView.{GlobView};
ghost use Rattle.wax_c.specs.{GlobOwned.glob_at, Outcomes.ListsAllAs};
ghost use Rattle.wax_c.specs.Warnings.{SaysSemantic, SaysSemanticAs, warning_number, warning_span};
ghost use Rattle.wax_c.specs.Warnings.{wax_warning, wax_warnings};
ghost use types.Logic.{sem};

use crate::error::{CallError, number_of_bool, status_of};
use crate::globs::WaxSpan;
use crate::handle::HeldGlob;
use crate::output::list_found;
use std::alloc::Global;
use wax::diagnostics::{LocatedError, Span, Warning};
use wax::{BuildError, Glob, NoMemory};

/// A warning of an expression that builds: its place, and what it is about.
#[repr(C)]
#[derive(Clone, Copy)]
pub struct WaxWarning {
    pub span: WaxSpan,
    /// 1 or 2 if the component there is `.` or `..`, and 3 if the expression ends with this `/`.
    pub kind: i32,
}

/// Writes the warnings of the glob to the beginning of `warnings`, and their number to `count`. Returns 0.
///
/// # Errors
///
/// Returns -10 if allocation fails; `count` is 0 then. Returns -21 if `warnings` is too small; `count` is
/// how many are needed then. `warnings` is unchanged in both cases.
#[unsafe(no_mangle)]
pub unsafe extern "C" fn wax_glob_warnings(
    alloc: Global,
    glob: *const u8,
    warnings: &mut [WaxWarning],
    count: &mut usize,
) -> i32
    ghost held: { GlobView }
    requires* { sem 𝓛 (glob_at alloc glob held) }
    ensures* back { sem 𝓛 (glob_at alloc glob held) }
    ensures warnings { ListsAllAs (wax_warnings held) warnings.old warnings.new count.new result }
{
    warn_held(alloc, &*(glob as *const HeldGlob), warnings, count)
}

/// Returns 1 if the text of a component of the glob is `.` or `..`, and 0 if none is.
///
/// # Errors
///
/// Returns -10 if allocation fails.
#[unsafe(no_mangle)]
pub unsafe extern "C" fn wax_glob_has_semantic_literals(alloc: Global, glob: *const u8) -> i32
    ghost held: { GlobView }
    requires* { sem 𝓛 (glob_at alloc glob held) }
    ensures* back { sem 𝓛 (glob_at alloc glob held) }
    ensures answer { SaysSemanticAs held.tree result }
{
    semantic_held(alloc, &*(glob as *const HeldGlob))
}

fn warn_held(alloc: Global, held: &HeldGlob, warnings: &mut [WaxWarning], count: &mut usize) -> i32
    ensures { ListsAllAs (wax_warnings held.now.matcher) warnings.old warnings.new count.new result }
{
    let found = wax_warnings(alloc, held.matcher.glob());
    status_of(&list_found(&found, warnings, count))
}

fn wax_warnings(alloc: Global, glob: &Glob<'_>) -> Result<Vec<WaxWarning>, NoMemory>
    ensures { IfOk result (λ found. found.items ≡ wax_warnings glob.now) }
{
    let found = glob.diagnose(alloc)?;
    Ok(
        found
            .iter()
            .map(|warning| wax_warning(warning))
            .collect(alloc)?,
    )
}

fn wax_warning(warning: &Warning<'_>) -> WaxWarning
    ensures { result ≡ wax_warning warning.now }
{
    let (start, length) = warning_span(warning);
    WaxWarning {
        span: WaxSpan { start, length },
        kind: warning_number(warning),
    }
}

fn warning_span(warning: &Warning<'_>) -> Span
    ensures { result ≡ warning_span warning.now }
{
    match warning {
        Warning::SemanticLiteral(warning) => warning.span(),
        Warning::TerminatingSeparator(warning) => warning.span(),
    }
}

fn warning_number(warning: &Warning<'_>) -> i32
    ensures { result ≡ warning_number warning.now }
{
    match warning {
        Warning::SemanticLiteral(warning) => { if warning.literal().len() == 1 { 1 } else { 2 } }
        Warning::TerminatingSeparator(_) => 3,
    }
}

fn semantic_held(alloc: Global, held: &HeldGlob) -> i32
    ensures { SaysSemanticAs held.now.matcher.tree result }
{
    number_of_bool(&has_semantic_literals(alloc, held.matcher.glob()))
}

fn has_semantic_literals(alloc: Global, glob: &Glob<'_>) -> Result<bool, CallError>
    ensures { SaysSemantic glob.now.tree result }
{
    match glob.has_semantic_literals(alloc) {
        Ok(answer) => Ok(answer),
        Err(_) => Err(CallError::Build(BuildError::Memory)),
    }
}
