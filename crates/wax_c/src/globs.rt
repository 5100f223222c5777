//! Calls that build, use and free handles of globs.
ghost use Rattle.std.specs.Prelude.{◌≡◌, ◌+◌, MatchResult, Option, length};
ghost use Rattle.wax.specs.GlobView.{GlobView};
ghost use Rattle.wax_c.specs.GlobHandles.{HasGlob, IsGlobHandle, span_of};
ghost use Rattle.wax_c.specs.GlobOwned.{glob_at, maybe_glob_at};
ghost use Rattle.wax_c.specs.Outcomes.{AreLines, DecidesAs, FillsWithin, IsGlobOf, IsNoGlob, SaysGoesOn};
ghost use Rattle.wax_c.specs.Outcomes.{SaysMatch};
ghost use types.Logic.{sem};

use crate::calls::{build, decide_below, decide_cached, fill};
use crate::error::{CallError, number_of_bool, status_of};
use crate::handle::{GlobHandle, HeldGlob};
use crate::loose::Loose;
use std::alloc::Global;
use wax::BuildError;
use wax::diagnostics::LocatedError;

/// A part of an expression, in bytes.
#[repr(C)]
#[derive(Clone, Copy)]
pub struct WaxSpan {
    pub start: usize,
    pub length: usize,
}

// The result of a call that builds a handle.
struct Opening {
    outcome: Result<(), CallError>,
    handle: GlobHandle,
}

/// Builds a glob from an expression, and writes its handle to `out`. Returns 0.
///
/// # Errors
///
/// Returns -1 to -9 if the expression isn't built, -10 if allocation fails, and -20 if it isn't
/// UTF-8. The handle is null then. After -1 to -8 `span` is the place in the expression; after
/// other errors it is 0 bytes at 0.
#[unsafe(no_mangle)]
pub extern "C" fn wax_glob_new(
    alloc: Global,
    expression: &[u8],
    out: &mut GlobHandle,
    span: &mut WaxSpan,
) -> i32
    ensures { IsGlobHandle expression.now out.new span.new result }
{
    let Opening { outcome, handle } = open(alloc, expression);
    *out = handle;
    *span = place_of(&outcome);
    status_of(&outcome)
}

/// Returns 1 if the glob matches the path and 0 if not. The handle keeps what it learns from the path
/// for the next ones.
///
/// # Errors
///
/// Returns -10 if allocation fails, and -20 if the path isn't UTF-8.
#[unsafe(no_mangle)]
pub unsafe extern "C" fn wax_glob_is_match(alloc: Global, glob: *mut u8, path: &[u8]) -> i32
    ghost held: { GlobView }
    requires* { sem 𝓛 (glob_at alloc glob held) }
    ensures* back { sem 𝓛 (glob_at alloc glob held) }
    ensures answer { DecidesAs (SaysMatch held) path.now result }
{
    is_match_held(alloc, &mut *(glob as *mut HeldGlob), path)
}

/// Returns 1 if something below the folder with this path can match, that is, if the glob matches
/// the path of something below it, and 0 if not. The empty path is the folder where paths begin. The
/// handle keeps what it learns from the path for the next ones.
///
/// # Errors
///
/// Returns -10 if allocation fails, and -20 if the path isn't UTF-8.
#[unsafe(no_mangle)]
pub unsafe extern "C" fn wax_glob_goes_on(alloc: Global, glob: *mut u8, folder: &[u8]) -> i32
    ghost held: { GlobView }
    requires* { sem 𝓛 (glob_at alloc glob held) }
    ensures* back { sem 𝓛 (glob_at alloc glob held) }
    ensures answer { DecidesAs (SaysGoesOn held) folder.now result }
{
    goes_on_held(alloc, &mut *(glob as *mut HeldGlob), folder)
}

/// Writes the lines of the input that the glob matches to the beginning of the output, as
/// `wax_filter` does.
///
/// # Errors
///
/// Returns -10 and -21 as `wax_filter` does.
#[unsafe(no_mangle)]
pub unsafe extern "C" fn wax_glob_filter(
    alloc: Global,
    glob: *const u8,
    input: &[u8],
    output: &mut [u8],
    written: &mut usize,
) -> i32
    ghost held: { GlobView }
    requires* { sem 𝓛 (glob_at alloc glob held) }
    ensures* back { sem 𝓛 (glob_at alloc glob held) }
    ensures fills { FillsWithin (length input.now + 1) (AreLines held input.now) output.old
        (record { bytes = output.new; written = written.new }) result }
{
    fill_held(alloc, &*(glob as *const HeldGlob), input, output, written)
}

/// Frees what the handle points to. A null handle is ignored.
#[unsafe(no_mangle)]
pub unsafe extern "C" fn wax_glob_free(alloc: Global, glob: *mut u8)
    ghost held: { Option GlobView }
    requires* { sem 𝓛 (maybe_glob_at alloc glob held) }
{
    if glob.is_null() {
        return;
    }
    drop_glob(Box::from_raw(alloc, glob as *mut HeldGlob));
}

fn open(alloc: Global, expression: &[u8]) -> Opening
    ensures { HasGlob expression.now result.handle result.outcome }
{
    match boxed(alloc, expression) {
        Ok(held) => Opening {
            outcome: Ok(()),
            handle: GlobHandle::of(Loose::of(held)),
        },
        Err(error) => Opening {
            outcome: Err(error),
            handle: GlobHandle::null(alloc),
        },
    }
}

fn boxed(alloc: Global, expression: &[u8]) -> Result<Box<HeldGlob>, CallError>
    ensures { MatchResult result (λ made. IsGlobOf expression.now made.value.matcher)
        (IsNoGlob expression.now) }
{
    let glob = build(alloc, expression)?;
    let Ok(glob) = glob.into_owned(alloc) else {
        return Err(CallError::Build(BuildError::Memory));
    };
    let matcher = glob.into_matcher(alloc);
    match Box::new(alloc, HeldGlob { matcher }) {
        Ok(made) => Ok(made),
        Err(_) => Err(CallError::Build(BuildError::Memory)),
    }
}

/// Returns the place of an error in the expression, or 0 bytes at 0 if it has none.
pub(crate) fn place_of(outcome: &Result<(), CallError>) -> WaxSpan
    ensures { result ≡ span_of outcome.now }
{
    if let Err(CallError::Build(error)) = outcome {
        if let Some(location) = error.locations() {
            let (start, length) = location.span();
            return WaxSpan { start, length };
        }
    }
    WaxSpan {
        start: 0,
        length: 0,
    }
}

fn is_match_held(_alloc: Global, held: &mut HeldGlob, path: &[u8]) -> i32
    ensures { DecidesAs (SaysMatch held.old.matcher) path.now result × (held.new ≡ held.old) }
{
    let outcome = decide_cached(&mut held.matcher, path);
    number_of_bool(&outcome)
}

fn goes_on_held(_alloc: Global, held: &mut HeldGlob, folder: &[u8]) -> i32
    ensures { DecidesAs (SaysGoesOn held.old.matcher) folder.now result × (held.new ≡ held.old) }
{
    let outcome = decide_below(&mut held.matcher, folder);
    number_of_bool(&outcome)
}

fn fill_held(
    alloc: Global,
    held: &HeldGlob,
    input: &[u8],
    output: &mut [u8],
    written: &mut usize,
) -> i32
    ensures { FillsWithin (length input.now + 1) (AreLines held.now.matcher input.now) output.old
        (record { bytes = output.new; written = written.new }) result }
{
    status_of(&fill(alloc, held.matcher.glob(), input, output, written))
}

fn drop_glob(_held: Box<HeldGlob>) {}
