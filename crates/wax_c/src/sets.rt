//! Calls that build, use and free handles of sets of globs.
ghost use Rattle.std.specs.{Prelude.{◌≡◌, IfErr, IfOk, IfSome, MatchResult, Option, length}, List.AllZip};
ghost use Rattle.wax.specs.Language.{Span, Tree};
ghost use Rattle.wax_c.specs.{Outcomes.{Decides, DecidesAs, IsGlobOf}, SetOwned.{maybe_set_at, set_at}};
ghost use Rattle.wax_c.specs.Sets.{HasSet, IsNoSet, IsSetHandle, IsSetOf, ListsMatches, ListsMatchesAs};
ghost use Rattle.wax_c.specs.{Sets.{SaysSetGoesOn, SaysSetMatch, cut_each}, inner.Spelled.SpellsOnly};
ghost use types.Logic.{sem};

use crate::calls::{build, read};
use crate::error::{CallError, number_of_bool, status_of};
use crate::globs::{WaxSpan, place_of};
use crate::loose::Loose;
use crate::output::write_over;
use crate::set_handle::{HeldSet, SetHandle};
use std::alloc::Global;
use wax::rule::Checked;
use wax::token::{ExpressionMetadata, Tokenized};
use wax::{Any, BuildError, CandidatePath, Glob, OwnedAnyMatcher, any};

// The result of a call that builds a handle. `which` is the index of the pattern with an error, or the
// number of patterns.
struct SetOpening {
    outcome: Result<(), CallError>,
    which: usize,
    handle: SetHandle,
}

/// Builds a set of the globs of several expressions, and writes its handle to `out`. The expressions
/// are one after another in `patterns`, and `lengths` has the number of bytes of each; if fewer are
/// left, it is these. Returns 0.
///
/// # Errors
///
/// Returns the error of `wax_glob_new` for the first expression that has one; `which` is its index and
/// `span` the place in it then. If no expression has an error, `which` is the number of expressions.
/// Returns -9 if the set is too large, and -10 if allocation fails. The handle is null in all these
/// cases.
#[unsafe(no_mangle)]
pub extern "C" fn wax_set_new(
    alloc: Global,
    patterns: &[u8],
    lengths: &[usize],
    out: &mut SetHandle,
    which: &mut usize,
    span: &mut WaxSpan,
) -> i32
    ensures { IsSetHandle (cut_each patterns.now lengths.now) out.new which.new span.new result }
{
    let SetOpening {
        outcome,
        which: index,
        handle,
    } = open_set(alloc, patterns, lengths);
    *out = handle;
    *which = index;
    *span = place_of(&outcome);
    status_of(&outcome)
}

/// Returns 1 if one of the patterns matches the path and 0 if not. The handle keeps what it learns from
/// the path for the next ones.
///
/// # Errors
///
/// Returns -10 if allocation fails, and -20 if the path isn't UTF-8.
#[unsafe(no_mangle)]
pub unsafe extern "C" fn wax_set_is_match(alloc: Global, set: *mut u8, path: &[u8]) -> i32
    ghost held: { Tree Span }
    requires* { sem 𝓛 (set_at alloc set held) }
    ensures* back { sem 𝓛 (set_at alloc set held) }
    ensures answer { DecidesAs (SaysSetMatch held) path.now result }
{
    is_match_held(alloc, &mut *(set as *mut HeldSet), path)
}

/// Returns 1 if one of the patterns matches the path of something below the folder with this path, and
/// 0 if none does. The empty path is the folder where paths begin. The handle keeps what it learns from
/// the path for the next ones.
///
/// # Errors
///
/// Returns -10 if allocation fails, and -20 if the path isn't UTF-8.
#[unsafe(no_mangle)]
pub unsafe extern "C" fn wax_set_goes_on(alloc: Global, set: *mut u8, folder: &[u8]) -> i32
    ghost held: { Tree Span }
    requires* { sem 𝓛 (set_at alloc set held) }
    ensures* back { sem 𝓛 (set_at alloc set held) }
    ensures answer { DecidesAs (SaysSetGoesOn held) folder.now result }
{
    goes_on_held(alloc, &mut *(set as *mut HeldSet), folder)
}

/// Writes the indexes of all patterns that match the path, ascending, to the beginning of `which`,
/// and their number to `count`. Returns 0. The handle keeps what it learns from the path for the next
/// ones.
///
/// # Errors
///
/// Returns -10 if allocation fails, and -20 if the path isn't UTF-8; `count` is 0 then. Returns -21 if
/// `which` is too small; `count` is how many are needed then. `which` is unchanged in all these cases.
#[unsafe(no_mangle)]
pub unsafe extern "C" fn wax_set_matches(
    alloc: Global,
    set: *mut u8,
    path: &[u8],
    which: &mut [usize],
    count: &mut usize,
) -> i32
    ghost held: { Tree Span }
    requires* { sem 𝓛 (set_at alloc set held) }
    ensures* back { sem 𝓛 (set_at alloc set held) }
    ensures lists { ListsMatchesAs held path.now which.old which.new count.new result }
{
    list_held(alloc, &mut *(set as *mut HeldSet), path, which, count)
}

/// Frees what the handle points to. A null handle is ignored.
#[unsafe(no_mangle)]
pub unsafe extern "C" fn wax_set_free(alloc: Global, set: *mut u8)
    ghost held: { Option (Tree Span) }
    requires* { sem 𝓛 (maybe_set_at alloc set held) }
{
    if set.is_null() {
        return;
    }
    drop_set(Box::from_raw(alloc, set as *mut HeldSet));
}

fn open_set(alloc: Global, patterns: &[u8], lengths: &[usize]) -> SetOpening
    ensures { HasSet (cut_each patterns.now lengths.now) result.handle result.which result.outcome }
{
    match boxed_set(alloc, patterns, lengths) {
        Ok(held) => SetOpening {
            outcome: Ok(()),
            which: lengths.len(),
            handle: SetHandle::of(Loose::of(held)),
        },
        Err((error, which)) => SetOpening {
            outcome: Err(error),
            which,
            handle: SetHandle::null(alloc),
        },
    }
}

// Builds the set, or returns why there is none, with the index of the pattern, or their number.
fn boxed_set(
    alloc: Global,
    patterns: &[u8],
    lengths: &[usize],
) -> Result<Box<HeldSet>, (CallError, usize)>
    ensures { MatchResult result (λ made. IsSetOf (cut_each patterns.now lengths.now) made.value.matcher)
        (λ error. IsNoSet (cut_each patterns.now lengths.now) error.1 error.0) }
{
    let set = match build_set(alloc, patterns, lengths) {
        Ok(set) => set,
        Err(error) => return Err(error),
    };
    let matcher = set.into_matcher(alloc);
    match Box::new(alloc, HeldSet { matcher }) {
        Ok(made) => Ok(made),
        Err(_) => Err((CallError::Build(BuildError::Memory), lengths.len())),
    }
}

// Builds the set of what the expressions spell. That takes half the time of building their globs first, which
// is done only if there is no set, to find which pattern has an error.
fn build_set(
    alloc: Global,
    patterns: &[u8],
    lengths: &[usize],
) -> Result<Any<'static>, (CallError, usize)>
    ensures { MatchResult result (IsSetOf (cut_each patterns.now lengths.now))
        (λ error. IsNoSet (cut_each patterns.now lengths.now) error.1 error.0) }
{
    if let Some(set) = set_of_spelled(alloc, patterns, lengths) {
        return Ok(set);
    }
    set_of_globs(alloc, patterns, lengths)
}

// Builds the set of what the expressions spell. Returns `None` if it can't be built, for whatever reason.
fn set_of_spelled(alloc: Global, patterns: &[u8], lengths: &[usize]) -> Option<Any<'static>>
    ensures { IfSome result (IsSetOf (cut_each patterns.now lengths.now)) }
{
    let Some(expressions) = read_each(alloc, patterns, lengths) else {
        return None;
    };
    match any(alloc, expressions) {
        Ok(set) => Some(set),
        Err(_) => None,
    }
}

// Reads and checks the expression of each pattern. Returns `None` if one has an error, or if allocation
// fails.
fn read_each<'e>(
    alloc: Global,
    patterns: &'e [u8],
    lengths: &[usize],
) -> Option<Vec<Checked<Tokenized<'e, ExpressionMetadata>>>>
    ensures { IfSome result
        (λ expressions. AllZip SpellsOnly (cut_each patterns.now lengths.now) expressions.items) }
{
    let mut expressions = Vec::new(alloc);
    let mut rest = patterns;
    while expressions.len() < lengths.len() {
        let length = lengths[expressions.len()].min(rest.len());
        let (pattern, after) = rest.split_at(length);
        let Some(expression) = read(alloc, pattern) else {
            return None;
        };
        let Ok(()) = expressions.push(expression) else {
            return None;
        };
        rest = after;
    }
    Some(expressions)
}

// Builds the set of the globs, or returns why there is none, as `boxed_set` does.
fn set_of_globs(
    alloc: Global,
    patterns: &[u8],
    lengths: &[usize],
) -> Result<Any<'static>, (CallError, usize)>
    ensures { MatchResult result (IsSetOf (cut_each patterns.now lengths.now))
        (λ error. IsNoSet (cut_each patterns.now lengths.now) error.1 error.0) }
{
    let globs = match globs_of(alloc, patterns, lengths) {
        Ok(globs) => globs,
        Err(error) => return Err(error),
    };
    match any(alloc, globs) {
        Ok(set) => Ok(set),
        Err(error) => Err((CallError::Build(error), lengths.len())),
    }
}

// Builds the glob of each pattern.
fn globs_of<'e>(
    alloc: Global,
    patterns: &'e [u8],
    lengths: &[usize],
) -> Result<Vec<Glob<'e>>, (CallError, usize)>
    ensures { MatchResult result
        (λ globs. AllZip IsGlobOf (cut_each patterns.now lengths.now) globs.items)
        (λ error. IsNoSet (cut_each patterns.now lengths.now) error.1 error.0) }
{
    let mut globs = Vec::new(alloc);
    let mut rest = patterns;
    while globs.len() < lengths.len() {
        let length = lengths[globs.len()].min(rest.len());
        let (pattern, after) = rest.split_at(length);
        let glob = match build(alloc, pattern) {
            Ok(glob) => glob,
            Err(error) => return Err((error, globs.len())),
        };
        let Ok(()) = globs.push(glob) else {
            return Err((CallError::Build(BuildError::Memory), lengths.len()));
        };
        rest = after;
    }
    Ok(globs)
}

fn is_match_held(_alloc: Global, held: &mut HeldSet, path: &[u8]) -> i32
    ensures { DecidesAs (SaysSetMatch held.old.matcher) path.now result × (held.new ≡ held.old) }
{
    let outcome = is_match(&mut held.matcher, path);
    number_of_bool(&outcome)
}

fn is_match(matcher: &mut OwnedAnyMatcher<'_>, path: &[u8]) -> Result<bool, CallError>
    ensures answer { Decides (SaysSetMatch matcher.old) path.now result }
    ensures same { matcher.new ≡ matcher.old }
{
    let Ok(path) = str::from_utf8(path) else {
        return Err(CallError::NotText);
    };
    match matcher.is_match(&CandidatePath::from(path)) {
        Ok(answer) => Ok(answer),
        Err(_) => Err(CallError::Build(BuildError::Memory)),
    }
}

fn goes_on_held(_alloc: Global, held: &mut HeldSet, folder: &[u8]) -> i32
    ensures { DecidesAs (SaysSetGoesOn held.old.matcher) folder.now result × (held.new ≡ held.old) }
{
    let outcome = goes_on(&mut held.matcher, folder);
    number_of_bool(&outcome)
}

fn goes_on(matcher: &mut OwnedAnyMatcher<'_>, folder: &[u8]) -> Result<bool, CallError>
    ensures answer { Decides (SaysSetGoesOn matcher.old) folder.now result }
    ensures same { matcher.new ≡ matcher.old }
{
    let Ok(folder) = str::from_utf8(folder) else {
        return Err(CallError::NotText);
    };
    match matcher.goes_on(&CandidatePath::from(folder)) {
        Ok(goes_on) => Ok(goes_on),
        Err(_) => Err(CallError::Build(BuildError::Memory)),
    }
}

fn list_held(
    _alloc: Global,
    held: &mut HeldSet,
    path: &[u8],
    which: &mut [usize],
    count: &mut usize,
) -> i32
    ensures { ListsMatchesAs held.old.matcher path.now which.old which.new count.new result
        × (held.new ≡ held.old) }
{
    let outcome = list(&mut held.matcher, path, which, count);
    status_of(&outcome)
}

fn list(
    matcher: &mut OwnedAnyMatcher<'_>,
    path: &[u8],
    which: &mut [usize],
    count: &mut usize,
) -> Result<(), CallError>
    ensures lists { ListsMatches matcher.old path.now which.old which.new count.new result }
    ensures same { matcher.new ≡ matcher.old }
{
    *count = 0;
    let Ok(path) = str::from_utf8(path) else {
        return Err(CallError::NotText);
    };
    let Ok(indexes) = matcher.matches(&CandidatePath::from(path)) else {
        return Err(CallError::Build(BuildError::Memory));
    };
    *count = indexes.len();
    if indexes.len() > which.len() {
        return Err(CallError::NoRoom);
    }
    write_over(&indexes, which);
    Ok(())
}

fn drop_set(_held: Box<HeldSet>) {}
