//! Where the captures of a path lie, and the tokens that capture.
ghost use Rattle.std.specs.Prelude.{◌≡◌, IfOk, MatchOption, chars};
ghost use Rattle.wax.specs.GlobView.{GlobView, HasSpans, IsMeant};
ghost use Rattle.wax_c.specs.{GlobOwned.glob_at, Outcomes.ListsAllAs};
ghost use Rattle.wax_c.specs.Spans.{Spans, SpansAs, capturing_spans, wax_spans};
ghost use types.Logic.{sem};

use crate::error::{CallError, number_of_bool, status_of};
use crate::globs::WaxSpan;
use crate::handle::HeldGlob;
use crate::output::{list_found, write_over};
use std::alloc::{AllocError, Global};
use wax::diagnostics::Span;
use wax::{BuildError, CandidatePath, Glob, NoMemory};

/// Returns 1 if the glob matches the path. The first byte and the number of bytes of each capture are
/// then at the beginning of `spans`, and `count` is the number of captures. Returns 0 if the glob
/// doesn't match the path; `count` is 0 then, and `spans` is unchanged.
///
/// # Errors
///
/// Returns -10 if allocation fails, and -20 if the path isn't UTF-8; `count` is 0 then. Returns -21 if
/// `spans` is too small; `count` is the number of captures then. `spans` is unchanged in all these cases.
#[unsafe(no_mangle)]
pub unsafe extern "C" fn wax_glob_spans(
    alloc: Global,
    glob: *const u8,
    path: &[u8],
    spans: &mut [WaxSpan],
    count: &mut usize,
) -> i32
    ghost held: { GlobView }
    requires* { sem 𝓛 (glob_at alloc glob held) }
    ensures* back { sem 𝓛 (glob_at alloc glob held) }
    ensures spans { SpansAs held path.now spans.old spans.new count.new result }
{
    spans_held(alloc, &*(glob as *const HeldGlob), path, spans, count)
}

/// Writes where each token that captures lies in the expression to the beginning of `spans`, and their
/// number, which is the number of captures of each match, to `count`. Returns 0.
///
/// # Errors
///
/// Returns -10 if allocation fails; `count` is 0 then. Returns -21 if `spans` is too small; `count` is how
/// many are needed then. `spans` is unchanged in both cases.
#[unsafe(no_mangle)]
pub unsafe extern "C" fn wax_glob_capturing(
    alloc: Global,
    glob: *const u8,
    spans: &mut [WaxSpan],
    count: &mut usize,
) -> i32
    ghost held: { GlobView }
    requires* { sem 𝓛 (glob_at alloc glob held) }
    ensures* back { sem 𝓛 (glob_at alloc glob held) }
    ensures tokens { ListsAllAs (capturing_spans held) spans.old spans.new count.new result }
{
    capturing_held(alloc, &*(glob as *const HeldGlob), spans, count)
}

fn spans_held(
    alloc: Global,
    held: &HeldGlob,
    path: &[u8],
    spans: &mut [WaxSpan],
    count: &mut usize,
) -> i32
    ensures { SpansAs held.now.matcher path.now spans.old spans.new count.new result }
{
    number_of_bool(&write_spans(alloc, held.matcher.glob(), path, spans, count))
}

fn write_spans(
    alloc: Global,
    glob: &Glob<'_>,
    path: &[u8],
    spans: &mut [WaxSpan],
    count: &mut usize,
) -> Result<bool, CallError>
    ensures { Spans glob.now path.now spans.old spans.new count.new result }
{
    *count = 0;
    let Ok(path) = str::from_utf8(path) else {
        return Err(CallError::NotText);
    };
    let Ok(found) = find_spans(alloc, glob, path) else {
        return Err(CallError::Build(BuildError::Memory));
    };
    let Some(found) = found else {
        return Ok(false);
    };
    let Ok(found) = wax_spans(alloc, &found) else {
        return Err(CallError::Build(BuildError::Memory));
    };
    *count = found.len();
    if found.len() > spans.len() {
        return Err(CallError::NoRoom);
    }
    write_over(&found, spans);
    Ok(true)
}

fn find_spans(alloc: Global, glob: &Glob<'_>, path: &str) -> Result<Option<Vec<Span>>, NoMemory>
    ensures { IfOk result (λ found. MatchOption found (IsMeant glob.now (chars path.now) → ⊥)
        (λ spans. IsMeant glob.now (chars path.now) × HasSpans glob.now path.now spans.items)) }
{
    glob.matched_spans(alloc, &CandidatePath::from(path))
}

fn capturing_held(alloc: Global, held: &HeldGlob, spans: &mut [WaxSpan], count: &mut usize) -> i32
    ensures { ListsAllAs (capturing_spans held.now.matcher) spans.old spans.new count.new result }
{
    let found = capturing_spans(alloc, held.matcher.glob());
    status_of(&list_found(&found, spans, count))
}

fn capturing_spans(alloc: Global, glob: &Glob<'_>) -> Result<Vec<WaxSpan>, NoMemory>
    ensures { IfOk result (λ found. found.items ≡ capturing_spans glob.now) }
{
    let tokens = glob.captures(alloc)?;
    let mut spans = Vec::with_capacity(alloc, tokens.len())?;
    for index in 0..tokens.len() {
        let (start, length) = tokens[index].span();
        spans.push(WaxSpan { start, length })?;
    }
    Ok(spans)
}

fn wax_spans(alloc: Global, spans: &[Span]) -> Result<Vec<WaxSpan>, AllocError>
    ensures { IfOk result (λ found. found.items ≡ wax_spans spans.now) }
{
    let mut found = Vec::with_capacity(alloc, spans.len())?;
    for index in 0..spans.len() {
        let (start, length) = spans[index];
        found.push(WaxSpan { start, length })?;
    }
    Ok(found)
}
