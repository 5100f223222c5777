//! Ignore lists without the lines that decide nothing.
ghost use Rattle.std.specs.Prelude.{◌≡◌, ◌==◌, ◌<◌, All, IfOk, filter, filter_map, length, slice_get};
ghost use Rattle.std.specs.List.{AllZip, list_any, range_with_len};
ghost use Rattle.wax_exclude.specs.{Idle.{is_known, without}, Tidy.{TidiesUp, indexes_of}};
ghost use Rattle.wax_exclude.specs.Undecided.{IsUndecided};
ghost use Rattle.wax_exclude.specs.inner.Tidy.{IsRenumbered, IsSameReason, unknown_indexes};

use crate::idle::{IdleLine, IdleReason, idle_lines};
use crate::rules::IgnoreLine;
use std::alloc::{AllocError, Global};
use wax_query::diagnostics::NoMemory;

/// The lines of an ignore list without those that decide nothing about plain paths.
#[derive(Drop)]
pub struct TidyLines {
    /// The lines that stay, in order.
    pub lines: Vec<IgnoreLine>,
    /// The index in the list of each line that stays, from 0.
    pub indexes: Vec<usize>,
    /// The lines that were removed, in the order in which they can go, by their indexes in the list. The
    /// reason of each is why it decides nothing once those before it are gone.
    pub removed: Vec<IdleLine>,
    /// The indexes in `lines` of those of which it isn't known whether they decide.
    pub unknown: Vec<usize>,
}

/// Returns the lines without those of which it is known that they decide nothing. Without some lines,
/// others may decide nothing, too, so it looks for such lines until there are none.
pub(crate) fn tidied(
    alloc: Global,
    lines: &[IgnoreLine],
    most_states: usize,
) -> Result<TidyLines, NoMemory>
    ensures tidy { IfOk result (λ tidy. TidiesUp lines.now tidy.removed.items tidy.indexes.items
        tidy.lines.items tidy.unknown.items) }
    ensures undecided { IfOk result
        (λ tidy. All (IsUndecided tidy.lines.items most_states) tidy.unknown.items) }
{
    let mut indexes = all_indexes(alloc, lines.len())?;
    let mut removed = Vec::new(alloc);
    loop {
        let left = lines_at(alloc, lines, &indexes)?;
        let idle = idle_lines(alloc, &left, most_states)?;
        let unknown = unknown_indexes(alloc, &idle)?;
        let known = known_of(idle);
        if known.is_empty() {
            return Ok(TidyLines {
                lines: left,
                indexes,
                removed,
                unknown,
            });
        }
        let mut found = renumbered(alloc, &known, &indexes)?;
        removed.append(&mut found)?;
        indexes = staying(alloc, &known, &indexes)?;
    }
}

/// Returns the indexes of so many lines.
fn all_indexes(alloc: Global, count: usize) -> Result<Vec<usize>, AllocError>
    ensures { IfOk result (λ indexes. indexes.items ≡ range_with_len 0 count) }
{
    let mut indexes = Vec::new(alloc);
    for index in 0..count {
        indexes.push(index)?;
    }
    Ok(indexes)
}

/// Copies the lines with these indexes, in order.
fn lines_at(
    alloc: Global,
    lines: &[IgnoreLine],
    indexes: &[usize],
) -> Result<Vec<IgnoreLine>, NoMemory>
    ensures { IfOk result (λ found. found.items ≡ filter_map (slice_get lines.now) indexes.now) }
{
    let mut found = Vec::new(alloc);
    for index in indexes {
        if let Some(line) = lines.get(*index) {
            found.push(line.to_owned(alloc)?)?;
        }
    }
    Ok(found)
}

/// Returns those of these lines of which it is known that they decide nothing.
fn known_of(mut idle: Vec<IdleLine>) -> Vec<IdleLine>
    ensures { result.items ≡ filter (λ line. is_known line.reason) idle.items }
{
    idle.retain(|line| is_known(&line.reason));
    idle
}

/// Returns the indexes of those of these lines of which it isn't known whether they decide.
fn unknown_indexes(alloc: Global, idle: &[IdleLine]) -> Result<Vec<usize>, AllocError>
    ensures { IfOk result (λ unknown. unknown.items ≡ unknown_indexes idle.now) }
{
    idle.iter()
        .filter(|line| !is_known(&line.reason))
        .map(|line| line.index)
        .collect(alloc)
}

fn is_known(reason: &IdleReason) -> bool
    ensures { result ≡ is_known reason.now }
{
    !matches!(reason, IdleReason::Unknown)
}

/// Returns the indexes without those at the indexes of these lines.
fn staying(alloc: Global, known: &[IdleLine], indexes: &[usize]) -> Result<Vec<usize>, AllocError>
    ensures { IfOk result (λ stay. stay.items ≡ without (indexes_of known.now) indexes.now) }
{
    let mut stay = Vec::new(alloc);
    for (place, index) in indexes.iter().enumerate() {
        if !has_index(known, place) {
            stay.push(*index)?;
        }
    }
    Ok(stay)
}

fn has_index(lines: &[IdleLine], index: usize) -> bool
    ensures { result ≡ list_any (λ line. line.index == index) lines.now }
{
    lines.iter().any(|line| line.index == index)
}

/// Returns these lines with the indexes that they have in the list in place of those among the lines that
/// are left, which have these indexes in the list.
fn renumbered(
    alloc: Global,
    known: &[IdleLine],
    indexes: &[usize],
) -> Result<Vec<IdleLine>, NoMemory>
    requires { All (λ line. line.index < length indexes.now) known.now }
    ensures { IfOk result (λ found. AllZip (IsRenumbered indexes.now) known.now found.items) }
{
    let mut found = Vec::new(alloc);
    for line in known {
        let index = indexes[line.index];
        let reason = renumbered_reason(alloc, &line.reason, indexes)?;
        found.push(IdleLine { index, reason })?;
    }
    Ok(found)
}

fn renumbered_reason(
    alloc: Global,
    reason: &IdleReason,
    indexes: &[usize],
) -> Result<IdleReason, AllocError>
    ensures { IfOk result (IsSameReason indexes.now reason.now) }
{
    match reason {
        IdleReason::Covered(covers) => Ok(IdleReason::Covered(indexes_at(alloc, indexes, covers)?)),
        IdleReason::TakesNothingBack => Ok(IdleReason::TakesNothingBack),
        IdleReason::Unknown => Ok(IdleReason::Unknown),
    }
}

/// Returns the indexes at these places.
fn indexes_at(alloc: Global, indexes: &[usize], places: &[usize]) -> Result<Vec<usize>, AllocError>
    ensures { IfOk result (λ found. found.items ≡ filter_map (slice_get indexes.now) places.now) }
{
    places
        .iter()
        .filter_map(|place| index_at(indexes, *place))
        .collect(alloc)
}

fn index_at(indexes: &[usize], place: usize) -> Option<usize>
    ensures { result ≡ slice_get indexes.now place }
{
    indexes.get(place).copied()
}
