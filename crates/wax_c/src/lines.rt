//! What the lines of an ignore list decide, by its handle.
ghost use Rattle.std.specs.Prelude.{◌≡◌, ◌≤◌, Bool, IfOk, Result, length};
ghost use Rattle.wax.specs.declared.ignoring.IgnoreList.{IgnoreList};
ghost use Rattle.wax_c.specs.Lines.{AreEnough, AreSure, AreUnsure, FindsLine, FindsLineAs, ListsFound};
ghost use Rattle.wax_c.specs.Lines.{ListsWithin, index_number, index_or_zero, is_sure, lines_number};
ghost use Rattle.wax_c.specs.{Lines.{sure_indexes, unsure_indexes}, ListOwned.list_at};
ghost use Rattle.wax_c.specs.{declared.error.CallError.CallError, inner.FoundLines.AreFoundLines};
ghost use types.Logic.{sem};

use crate::error::{CallError, number_of};
use crate::output::write_over;
use std::alloc::{AllocError, Global};
use wax::walk::{IdleLine, IdleReason, IgnoreList, TidyList};
use wax::{BuildError, CandidatePath, NoMemory};

/// Returns 1 if a line of the list matches the path, and 0 if none does. The last such line decides
/// whether the path is ignored; its index is in `line` then, from 0, without the lines that are skipped.
///
/// # Errors
///
/// Returns -10 if allocation fails, and -20 if the path isn't UTF-8. In all cases but 1, `line` is 0.
#[unsafe(no_mangle)]
pub unsafe extern "C" fn wax_ignore_deciding_line(
    alloc: Global,
    list: *const u8,
    path: &[u8],
    line: &mut usize,
) -> i32
    ghost held: { IgnoreList }
    requires* { sem 𝓛 (list_at alloc list held) }
    ensures* back { sem 𝓛 (list_at alloc list held) }
    ensures line { FindsLineAs held path.now line.new result }
{
    deciding_line_held(alloc, &*(list as *const IgnoreList), path, line)
}

/// Writes the indexes of the lines that decide nothing about paths as walks have them, ascending, to the
/// beginning of `lines`, and their number to `count`: without these lines, the list ignores the same such
/// paths. Returns 0 if each other line is known to decide some path, and 2 if it takes more than
/// `most_states` states to find that out of some line. As many elements as the list has lines are always
/// enough.
///
/// # Errors
///
/// Returns -10 if allocation fails; `count` is 0 then. Returns -21 if `lines` is too small; `count` is how
/// many are needed then. `lines` is unchanged in both cases.
#[unsafe(no_mangle)]
pub unsafe extern "C" fn wax_ignore_idle_lines(
    alloc: Global,
    list: *const u8,
    most_states: usize,
    lines: &mut [usize],
    count: &mut usize,
) -> i32
    ghost held: { IgnoreList }
    requires* { sem 𝓛 (list_at alloc list held) }
    ensures* back { sem 𝓛 (list_at alloc list held) }
    ensures idle { ListsWithin (length held) (AreSure held most_states) lines.old lines.new count.new result }
{
    list_idle(
        alloc,
        &*(list as *const IgnoreList),
        most_states,
        lines,
        count,
    )
}

/// Writes the indexes of the lines of which `wax_ignore_idle_lines` doesn't find out whether they decide
/// some path, as it writes those that decide nothing. Returns 0 if there is none, and 2 if there is one.
///
/// # Errors
///
/// Returns the errors of `wax_ignore_idle_lines`.
#[unsafe(no_mangle)]
pub unsafe extern "C" fn wax_ignore_undecided_lines(
    alloc: Global,
    list: *const u8,
    most_states: usize,
    lines: &mut [usize],
    count: &mut usize,
) -> i32
    ghost held: { IgnoreList }
    requires* { sem 𝓛 (list_at alloc list held) }
    ensures* back { sem 𝓛 (list_at alloc list held) }
    ensures undecided { ListsWithin (length held) (AreUnsure held most_states) lines.old lines.new count.new
        result }
{
    list_undecided(
        alloc,
        &*(list as *const IgnoreList),
        most_states,
        lines,
        count,
    )
}

/// Writes the indexes of lines that are enough, as `wax_ignore_idle_lines` writes those that decide
/// nothing: with only these lines, the list ignores the same paths of walks, and each of them decides one
/// then. Without some lines others may decide nothing, too, so there may be fewer than
/// `wax_ignore_idle_lines` leaves. Returns 0 if each is known to decide, and 2 if it takes more than
/// `most_states` states to find that out of some line.
///
/// # Errors
///
/// Returns the errors of `wax_ignore_idle_lines`.
#[unsafe(no_mangle)]
pub unsafe extern "C" fn wax_ignore_tidy(
    alloc: Global,
    list: *const u8,
    most_states: usize,
    lines: &mut [usize],
    count: &mut usize,
) -> i32
    ghost held: { IgnoreList }
    requires* { sem 𝓛 (list_at alloc list held) }
    ensures* back { sem 𝓛 (list_at alloc list held) }
    ensures tidy { ListsWithin (length held) (AreEnough held most_states) lines.old lines.new count.new
        result }
{
    list_enough(
        alloc,
        &*(list as *const IgnoreList),
        most_states,
        lines,
        count,
    )
}

fn deciding_line_held(alloc: Global, list: &IgnoreList, path: &[u8], line: &mut usize) -> i32
    ensures { FindsLineAs list.now path.now line.new result }
{
    let outcome = find_line(alloc, list, path);
    write_index(&outcome, line)
}

fn find_line(alloc: Global, list: &IgnoreList, path: &[u8]) -> Result<Option<usize>, CallError>
    ensures { FindsLine list.now path.now result }
{
    let Ok(path) = str::from_utf8(path) else {
        return Err(CallError::NotText);
    };
    match list.deciding_line(alloc, &CandidatePath::from(path)) {
        Ok(found) => Ok(found),
        Err(_) => Err(CallError::Build(BuildError::Memory)),
    }
}

// Writes the index if there is one, or else 0. Returns 1 or 0 for that, and minus the number of an error.
fn write_index(outcome: &Result<Option<usize>, CallError>, line: &mut usize) -> i32
    ensures line { line.new ≡ index_or_zero outcome.now }
    ensures number { result ≡ index_number outcome.now }
{
    *line = 0;
    match outcome {
        Ok(Some(index)) => {
            *line = *index;
            1
        }
        Ok(None) => 0,
        Err(error) => -number_of(error),
    }
}

// Indexes of lines, and whether nothing is left open of any line.
#[derive(Drop)]
struct FoundLines {
    indexes: Vec<usize>,
    is_all_known: bool,
}

fn list_idle(
    alloc: Global,
    list: &IgnoreList,
    most_states: usize,
    lines: &mut [usize],
    count: &mut usize,
) -> i32
    ensures { ListsWithin (length list.now) (AreSure list.now most_states) lines.old lines.new count.new
        result }
{
    number_of_found(find_idle(alloc, list, most_states), lines, count)
}

fn list_undecided(
    alloc: Global,
    list: &IgnoreList,
    most_states: usize,
    lines: &mut [usize],
    count: &mut usize,
) -> i32
    ensures { ListsWithin (length list.now) (AreUnsure list.now most_states) lines.old lines.new count.new
        result }
{
    number_of_found(find_undecided(alloc, list, most_states), lines, count)
}

fn list_enough(
    alloc: Global,
    list: &IgnoreList,
    most_states: usize,
    lines: &mut [usize],
    count: &mut usize,
) -> i32
    ensures { ListsWithin (length list.now) (AreEnough list.now most_states) lines.old lines.new count.new
        result }
{
    number_of_found(find_enough(alloc, list, most_states), lines, count)
}

// Writes the lines that are found, and returns the number of the outcome.
fn number_of_found(
    found: Result<FoundLines, NoMemory>,
    lines: &mut [usize],
    count: &mut usize,
) -> i32
    ensures { (outcome : Result Bool CallError)
        × ListsFound (AreFoundLines found) lines.old lines.new count.new outcome
        × (result ≡ lines_number outcome) }
{
    let outcome = write_lines(found, lines, count);
    lines_number(&outcome)
}

fn lines_number(outcome: &Result<bool, CallError>) -> i32
    ensures { result ≡ lines_number outcome.now }
{
    match outcome {
        Ok(true) => 0,
        Ok(false) => 2,
        Err(error) => -number_of(error),
    }
}

fn write_lines(
    found: Result<FoundLines, NoMemory>,
    lines: &mut [usize],
    count: &mut usize,
) -> Result<bool, CallError>
    ensures { ListsFound (AreFoundLines found) lines.old lines.new count.new result }
{
    *count = 0;
    let Ok(found) = found else {
        return Err(CallError::Build(BuildError::Memory));
    };
    *count = found.indexes.len();
    if found.indexes.len() > lines.len() {
        return Err(CallError::NoRoom);
    }
    write_over(&found.indexes, lines);
    Ok(found.is_all_known)
}

fn find_idle(alloc: Global, list: &IgnoreList, most_states: usize) -> Result<FoundLines, NoMemory>
    ensures found { IfOk result (λ found.
        AreSure list.now most_states found.indexes.items found.is_all_known) }
    ensures few { IfOk result (λ found. length found.indexes.items ≤ length list.now) }
{
    let idle = list.idle_lines(alloc, most_states)?;
    let indexes = sure_indexes(alloc, &idle)?;
    let is_all_known = indexes.len() == idle.len();
    Ok(FoundLines {
        indexes,
        is_all_known,
    })
}

fn find_undecided(
    alloc: Global,
    list: &IgnoreList,
    most_states: usize,
) -> Result<FoundLines, NoMemory>
    ensures found { IfOk result (λ found.
        AreUnsure list.now most_states found.indexes.items found.is_all_known) }
    ensures few { IfOk result (λ found. length found.indexes.items ≤ length list.now) }
{
    let idle = list.idle_lines(alloc, most_states)?;
    let indexes = unsure_indexes(alloc, &idle)?;
    let is_all_known = indexes.is_empty();
    Ok(FoundLines {
        indexes,
        is_all_known,
    })
}

fn find_enough(alloc: Global, list: &IgnoreList, most_states: usize) -> Result<FoundLines, NoMemory>
    ensures found { IfOk result (λ found.
        AreEnough list.now most_states found.indexes.items found.is_all_known) }
    ensures few { IfOk result (λ found. length found.indexes.items ≤ length list.now) }
{
    let TidyList {
        indexes,
        unknown,
        ..
    } = list.tidied(alloc, most_states)?;
    Ok(FoundLines {
        indexes,
        is_all_known: unknown.is_empty(),
    })
}

fn sure_indexes(alloc: Global, idle: &[IdleLine]) -> Result<Vec<usize>, AllocError>
    ensures { IfOk result (λ sure. sure.items ≡ sure_indexes idle.now) }
{
    idle.iter()
        .filter(|line| is_sure(&line.reason))
        .map(|line| line.index)
        .collect(alloc)
}

fn unsure_indexes(alloc: Global, idle: &[IdleLine]) -> Result<Vec<usize>, AllocError>
    ensures { IfOk result (λ unsure. unsure.items ≡ unsure_indexes idle.now) }
{
    idle.iter()
        .filter(|line| !is_sure(&line.reason))
        .map(|line| line.index)
        .collect(alloc)
}

fn is_sure(reason: &IdleReason) -> bool
    ensures { result ≡ is_sure reason.now }
{
    !matches!(reason, IdleReason::Unknown)
}
