//! Calls that build, use and free handles of ignore lists.
ghost use Rattle.std.specs.Prelude.{◌≡◌, ◌≤◌, ◌+◌, IfErr, IfOk, MatchResult, Option, length};
ghost use Rattle.wax.specs.declared.ignoring.IgnoreList.{IgnoreList};
ghost use Rattle.wax_c.specs.ListHandles.{AreUnignored, HasList, IsListHandle, IsListOfBytes, IsUnlistedAt};
ghost use Rattle.wax_c.specs.ListHandles.{SaysIgnored, SaysIgnoredBelow};
ghost use Rattle.wax_c.specs.ListOwned.{list_at, maybe_list_at};
ghost use Rattle.wax_c.specs.Outcomes.{Decides, DecidesAs, Fills, FillsWithin, KeepsAfterError};
ghost use types.Logic.{sem};

use crate::error::{CallError, number_of_bool, status_of};
use crate::list_handle::ListHandle;
use crate::loose::Loose;
use crate::output::put;
use std::alloc::Global;
use wax::walk::{IgnoreError, IgnoreList};
use wax::{BuildError, CandidatePath, Counted, filter_unignored};

// The result of a call that builds a handle. `line` is the number of the line with an error, or 0.
struct ListOpening {
    outcome: Result<(), CallError>,
    line: usize,
    handle: ListHandle,
}

/// Builds an ignore list from a text, and writes its handle to `out`. Returns 0.
///
/// # Errors
///
/// Returns -1 to -9 if the glob of a line isn't built; `line` is the number of the first such line
/// then, from 1, and 0 otherwise. Returns -10 if allocation fails, and -20 if the text isn't UTF-8.
/// The handle is null in all these cases.
#[unsafe(no_mangle)]
pub extern "C" fn wax_ignore_new(
    alloc: Global,
    text: &[u8],
    out: &mut ListHandle,
    line: &mut usize,
) -> i32
    ensures { IsListHandle text.now out.new line.new result }
{
    let ListOpening {
        outcome,
        line: number,
        handle,
    } = open_list(alloc, text);
    *out = handle;
    *line = number;
    status_of(&outcome)
}

/// Returns 1 if the list ignores the path and 0 if not. The list keeps what it learns from the path
/// for the next ones.
///
/// # Errors
///
/// Returns -10 if allocation fails, and -20 if the path isn't UTF-8.
#[unsafe(no_mangle)]
pub unsafe extern "C" fn wax_ignore_is_ignored(alloc: Global, list: *mut u8, path: &[u8]) -> i32
    ghost held: { IgnoreList }
    requires* { sem 𝓛 (list_at alloc list held) }
    ensures* back { sem 𝓛 (list_at alloc list held) }
    ensures answer { DecidesAs (SaysIgnored held) path.now result }
{
    is_ignored_held(alloc, &mut *(list as *mut IgnoreList), path)
}

/// Writes the lines of the input that the list doesn't ignore to the beginning of the output, as
/// `wax_filter` does. The list keeps what it learns from each line for the next ones.
///
/// # Errors
///
/// Returns -10 and -21 as `wax_filter` does.
#[unsafe(no_mangle)]
pub unsafe extern "C" fn wax_ignore_filter(
    alloc: Global,
    list: *mut u8,
    input: &[u8],
    output: &mut [u8],
    written: &mut usize,
) -> i32
    ghost held: { IgnoreList }
    requires* { sem 𝓛 (list_at alloc list held) }
    ensures* back { sem 𝓛 (list_at alloc list held) }
    ensures fills { FillsWithin (length input.now + 1) (AreUnignored held input.now) output.old
        (record { bytes = output.new; written = written.new }) result }
{
    fill_unignored(
        alloc,
        &mut *(list as *mut IgnoreList),
        input,
        output,
        written,
    )
}

/// Returns 1 if the list ignores everything below the folder with this path, so that it needn't be
/// opened, and 0 if a path below it might not be ignored. If a `/` follows the last name of the path,
/// no promise is made of what is below.
///
/// # Errors
///
/// Returns -10 if allocation fails, and -20 if the path isn't UTF-8.
#[unsafe(no_mangle)]
pub unsafe extern "C" fn wax_ignore_excludes_below(
    alloc: Global,
    list: *const u8,
    folder: &[u8],
) -> i32
    ghost held: { IgnoreList }
    requires* { sem 𝓛 (list_at alloc list held) }
    ensures* back { sem 𝓛 (list_at alloc list held) }
    ensures answer { DecidesAs (SaysIgnoredBelow held) folder.now result }
{
    excludes_below_held(alloc, &*(list as *const IgnoreList), folder)
}

/// Frees what the handle points to. A null handle is ignored.
#[unsafe(no_mangle)]
pub unsafe extern "C" fn wax_ignore_free(alloc: Global, list: *mut u8)
    ghost held: { Option IgnoreList }
    requires* { sem 𝓛 (maybe_list_at alloc list held) }
{
    if list.is_null() {
        return;
    }
    drop_list(Box::from_raw(alloc, list as *mut IgnoreList));
}

fn open_list(alloc: Global, text: &[u8]) -> ListOpening
    ensures { HasList text.now result.handle result.line result.outcome }
{
    match boxed_list(alloc, text) {
        Ok(held) => ListOpening {
            outcome: Ok(()),
            line: 0,
            handle: ListHandle::of(Loose::of(held)),
        },
        Err((error, line)) => ListOpening {
            outcome: Err(error),
            line,
            handle: ListHandle::null(alloc),
        },
    }
}

// Builds the list, or returns why there is none, with the number of the line, or 0.
fn boxed_list(alloc: Global, text: &[u8]) -> Result<Box<IgnoreList>, (CallError, usize)>
    ensures { MatchResult result (λ made. IsListOfBytes text.now made.value)
        (λ error. IsUnlistedAt text.now error.1 error.0) }
{
    let Ok(text) = str::from_utf8(text) else {
        return Err((CallError::NotText, 0));
    };
    match IgnoreList::parse(alloc, text) {
        Ok(list) => match Box::new(alloc, list) {
            Ok(made) => Ok(made),
            Err(_) => Err((CallError::Build(BuildError::Memory), 0)),
        },
        Err(IgnoreError::BadLine { line, error }) => Err((CallError::Build(error), line)),
        Err(IgnoreError::Memory) => Err((CallError::Build(BuildError::Memory), 0)),
    }
}

fn is_ignored_held(alloc: Global, list: &mut IgnoreList, path: &[u8]) -> i32
    ensures { DecidesAs (SaysIgnored list.old) path.now result × (list.new ≡ list.old) }
{
    let outcome = is_ignored(alloc, list, path);
    number_of_bool(&outcome)
}

fn is_ignored(alloc: Global, list: &mut IgnoreList, path: &[u8]) -> Result<bool, CallError>
    ensures answer { Decides (SaysIgnored list.old) path.now result }
    ensures same { list.new ≡ list.old }
{
    let Ok(path) = str::from_utf8(path) else {
        return Err(CallError::NotText);
    };
    match list.is_ignored_cached(alloc, &CandidatePath::from(path)) {
        Ok(answer) => Ok(answer),
        Err(_) => Err(CallError::Build(BuildError::Memory)),
    }
}

fn fill_unignored(
    alloc: Global,
    list: &mut IgnoreList,
    input: &[u8],
    output: &mut [u8],
    written: &mut usize,
) -> i32
    ensures { FillsWithin (length input.now + 1) (AreUnignored list.old input.now) output.old
        (record { bytes = output.new; written = written.new }) result × (list.new ≡ list.old) }
{
    let outcome = put_unignored(alloc, list, input, output, written);
    status_of(&outcome)
}

fn put_unignored(
    alloc: Global,
    list: &mut IgnoreList,
    input: &[u8],
    output: &mut [u8],
    written: &mut usize,
) -> Result<(), CallError>
    ensures fills { Fills (AreUnignored list.old input.now) output.old
        (record { bytes = output.new; written = written.new }) result }
    ensures kept { KeepsAfterError output.old (record { bytes = output.new; written = written.new }) result }
    ensures room { length input.now + 1 ≤ length output.old
        → IfErr result (λ error. error ≡ CallError.NoRoom → ⊥) }
    ensures same { list.new ≡ list.old }
{
    *written = 0;
    let lines = unignored(alloc, list, input)?;
    put(&lines, output, written)
}

// Collects the lines in memory, so that the output stays unchanged if they don't fit.
fn unignored(alloc: Global, list: &mut IgnoreList, input: &[u8]) -> Result<Vec<u8>, CallError>
    ensures ok { IfOk result (λ out. AreUnignored list.old input.now out.items) }
    ensures err { IfErr result (λ error. error ≡ CallError.Build BuildError.Memory) }
    ensures same { list.new ≡ list.old }
{
    let mut lines = Counted::new(input);
    let mut kept = Counted::new(Vec::new(alloc));
    match filter_unignored(alloc, &mut lines, &mut kept, list) {
        Ok(_) => Ok(kept.into_inner()),
        Err(_) => Err(CallError::Build(BuildError::Memory)),
    }
}

fn excludes_below_held(alloc: Global, list: &IgnoreList, folder: &[u8]) -> i32
    ensures { DecidesAs (SaysIgnoredBelow list.now) folder.now result }
{
    number_of_bool(&excludes_below(alloc, list, folder))
}

fn excludes_below(alloc: Global, list: &IgnoreList, folder: &[u8]) -> Result<bool, CallError>
    ensures { Decides (SaysIgnoredBelow list.now) folder.now result }
{
    let Ok(folder) = str::from_utf8(folder) else {
        return Err(CallError::NotText);
    };
    match list.ignores_below(alloc, &CandidatePath::from(folder)) {
        Ok(ignores) => Ok(ignores),
        Err(_) => Err(CallError::Build(BuildError::Memory)),
    }
}

fn drop_list(_held: Box<IgnoreList>) {}
