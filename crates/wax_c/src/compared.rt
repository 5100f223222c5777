//! Comparisons of two globs, of two sets and of two ignore lists, by their handles.
ghost use Rattle.std.specs.Prelude.{◌≡◌};
ghost use Rattle.wax.specs.{GlobView.{GlobView, IsMeant}, Language.{Span, Tree}, Matching.MeansText};
ghost use Rattle.wax.specs.declared.ignoring.IgnoreList.{IgnoreList};
ghost use Rattle.wax_c.specs.Comparing.{CompareAs, DifferenceAs, OverlapAs, finding_number};
ghost use Rattle.wax_c.specs.{GlobOwned.glob_at, ListHandles.Ignores, ListOwned.list_at, SetOwned.set_at};
ghost use types.Logic.{sem};

use crate::comparing::{Asked, Finding, write_found};
use crate::error::{CallError, status_of};
use crate::handle::HeldGlob;
use crate::set_handle::HeldSet;
use std::alloc::Global;
use wax::Compared;
use wax::walk::IgnoreList;

/// Looks for a path, as walks have them, that both globs match. If there is one, writes a shortest one to
/// the beginning of the output, and the number of its bytes to `written`, and returns 1. Returns 0 if
/// there is none, and 2 if it takes more than `most_states` states to decide, or more than 384 bytes for
/// each of so many. An output of 4 bytes for each of `most_states` is always large enough.
///
/// # Errors
///
/// Returns -10 if allocation fails, and -21 if the output is too small; `written` is how many bytes are
/// needed then. In all other cases but 1 it is 0. The output is unchanged in all cases but 1.
#[unsafe(no_mangle)]
pub unsafe extern "C" fn wax_glob_overlap(
    alloc: Global,
    first: *const u8,
    second: *const u8,
    most_states: usize,
    output: &mut [u8],
    written: &mut usize,
) -> i32
    ghost held: { GlobView × GlobView }
    requires* first { sem 𝓛 (glob_at alloc first held.0) }
    requires* second { sem 𝓛 (glob_at alloc second held.1) }
    ensures* first_back { sem 𝓛 (glob_at alloc first held.0) }
    ensures* second_back { sem 𝓛 (glob_at alloc second held.1) }
    ensures overlap { OverlapAs (IsMeant held.0) (IsMeant held.1) most_states output.old
        (record { bytes = output.new; written = written.new }) result }
{
    overlap_held(
        alloc,
        &*(first as *const HeldGlob),
        &*(second as *const HeldGlob),
        most_states,
        output,
        written,
    )
}

/// Looks for a path, as walks have them, that the first glob matches and the second one doesn't. Writes
/// and returns what `wax_glob_overlap` does.
///
/// # Errors
///
/// Returns the errors of `wax_glob_overlap`.
#[unsafe(no_mangle)]
pub unsafe extern "C" fn wax_glob_difference(
    alloc: Global,
    first: *const u8,
    second: *const u8,
    most_states: usize,
    output: &mut [u8],
    written: &mut usize,
) -> i32
    ghost held: { GlobView × GlobView }
    requires* first { sem 𝓛 (glob_at alloc first held.0) }
    requires* second { sem 𝓛 (glob_at alloc second held.1) }
    ensures* first_back { sem 𝓛 (glob_at alloc first held.0) }
    ensures* second_back { sem 𝓛 (glob_at alloc second held.1) }
    ensures difference { DifferenceAs (IsMeant held.0) (IsMeant held.1) most_states output.old
        (record { bytes = output.new; written = written.new }) result }
{
    difference_held(
        alloc,
        &*(first as *const HeldGlob),
        &*(second as *const HeldGlob),
        most_states,
        output,
        written,
    )
}

/// Looks for a path, as walks have them, that exactly one of the globs matches. Writes and returns what
/// `wax_glob_overlap` does.
///
/// # Errors
///
/// Returns the errors of `wax_glob_overlap`.
#[unsafe(no_mangle)]
pub unsafe extern "C" fn wax_glob_compare(
    alloc: Global,
    first: *const u8,
    second: *const u8,
    most_states: usize,
    output: &mut [u8],
    written: &mut usize,
) -> i32
    ghost held: { GlobView × GlobView }
    requires* first { sem 𝓛 (glob_at alloc first held.0) }
    requires* second { sem 𝓛 (glob_at alloc second held.1) }
    ensures* first_back { sem 𝓛 (glob_at alloc first held.0) }
    ensures* second_back { sem 𝓛 (glob_at alloc second held.1) }
    ensures comparison { CompareAs (IsMeant held.0) (IsMeant held.1) most_states output.old
        (record { bytes = output.new; written = written.new }) result }
{
    comparison_held(
        alloc,
        &*(first as *const HeldGlob),
        &*(second as *const HeldGlob),
        most_states,
        output,
        written,
    )
}

/// Looks for a path, as walks have them, that both sets match. Writes and returns what
/// `wax_glob_overlap` does.
///
/// # Errors
///
/// Returns the errors of `wax_glob_overlap`.
#[unsafe(no_mangle)]
pub unsafe extern "C" fn wax_set_overlap(
    alloc: Global,
    first: *const u8,
    second: *const u8,
    most_states: usize,
    output: &mut [u8],
    written: &mut usize,
) -> i32
    ghost held: { Tree Span × Tree Span }
    requires* first { sem 𝓛 (set_at alloc first held.0) }
    requires* second { sem 𝓛 (set_at alloc second held.1) }
    ensures* first_back { sem 𝓛 (set_at alloc first held.0) }
    ensures* second_back { sem 𝓛 (set_at alloc second held.1) }
    ensures overlap { OverlapAs (MeansText held.0) (MeansText held.1) most_states output.old
        (record { bytes = output.new; written = written.new }) result }
{
    overlap_held(
        alloc,
        &*(first as *const HeldSet),
        &*(second as *const HeldSet),
        most_states,
        output,
        written,
    )
}

/// Looks for a path, as walks have them, that the first set matches and the second one doesn't. Writes
/// and returns what `wax_glob_overlap` does.
///
/// # Errors
///
/// Returns the errors of `wax_glob_overlap`.
#[unsafe(no_mangle)]
pub unsafe extern "C" fn wax_set_difference(
    alloc: Global,
    first: *const u8,
    second: *const u8,
    most_states: usize,
    output: &mut [u8],
    written: &mut usize,
) -> i32
    ghost held: { Tree Span × Tree Span }
    requires* first { sem 𝓛 (set_at alloc first held.0) }
    requires* second { sem 𝓛 (set_at alloc second held.1) }
    ensures* first_back { sem 𝓛 (set_at alloc first held.0) }
    ensures* second_back { sem 𝓛 (set_at alloc second held.1) }
    ensures difference { DifferenceAs (MeansText held.0) (MeansText held.1) most_states output.old
        (record { bytes = output.new; written = written.new }) result }
{
    difference_held(
        alloc,
        &*(first as *const HeldSet),
        &*(second as *const HeldSet),
        most_states,
        output,
        written,
    )
}

/// Looks for a path, as walks have them, that exactly one of the sets matches. Writes and returns what
/// `wax_glob_overlap` does.
///
/// # Errors
///
/// Returns the errors of `wax_glob_overlap`.
#[unsafe(no_mangle)]
pub unsafe extern "C" fn wax_set_compare(
    alloc: Global,
    first: *const u8,
    second: *const u8,
    most_states: usize,
    output: &mut [u8],
    written: &mut usize,
) -> i32
    ghost held: { Tree Span × Tree Span }
    requires* first { sem 𝓛 (set_at alloc first held.0) }
    requires* second { sem 𝓛 (set_at alloc second held.1) }
    ensures* first_back { sem 𝓛 (set_at alloc first held.0) }
    ensures* second_back { sem 𝓛 (set_at alloc second held.1) }
    ensures comparison { CompareAs (MeansText held.0) (MeansText held.1) most_states output.old
        (record { bytes = output.new; written = written.new }) result }
{
    comparison_held(
        alloc,
        &*(first as *const HeldSet),
        &*(second as *const HeldSet),
        most_states,
        output,
        written,
    )
}

/// Looks for a path, as walks have them, that both lists ignore. Writes and returns what
/// `wax_glob_overlap` does.
///
/// # Errors
///
/// Returns the errors of `wax_glob_overlap`.
#[unsafe(no_mangle)]
pub unsafe extern "C" fn wax_ignore_overlap(
    alloc: Global,
    first: *const u8,
    second: *const u8,
    most_states: usize,
    output: &mut [u8],
    written: &mut usize,
) -> i32
    ghost held: { IgnoreList × IgnoreList }
    requires* first { sem 𝓛 (list_at alloc first held.0) }
    requires* second { sem 𝓛 (list_at alloc second held.1) }
    ensures* first_back { sem 𝓛 (list_at alloc first held.0) }
    ensures* second_back { sem 𝓛 (list_at alloc second held.1) }
    ensures overlap { OverlapAs (Ignores held.0) (Ignores held.1) most_states output.old
        (record { bytes = output.new; written = written.new }) result }
{
    overlap_held(
        alloc,
        &*(first as *const IgnoreList),
        &*(second as *const IgnoreList),
        most_states,
        output,
        written,
    )
}

/// Looks for a path, as walks have them, that the first list ignores and the second one doesn't. Writes
/// and returns what `wax_glob_overlap` does.
///
/// # Errors
///
/// Returns the errors of `wax_glob_overlap`.
#[unsafe(no_mangle)]
pub unsafe extern "C" fn wax_ignore_difference(
    alloc: Global,
    first: *const u8,
    second: *const u8,
    most_states: usize,
    output: &mut [u8],
    written: &mut usize,
) -> i32
    ghost held: { IgnoreList × IgnoreList }
    requires* first { sem 𝓛 (list_at alloc first held.0) }
    requires* second { sem 𝓛 (list_at alloc second held.1) }
    ensures* first_back { sem 𝓛 (list_at alloc first held.0) }
    ensures* second_back { sem 𝓛 (list_at alloc second held.1) }
    ensures difference { DifferenceAs (Ignores held.0) (Ignores held.1) most_states output.old
        (record { bytes = output.new; written = written.new }) result }
{
    difference_held(
        alloc,
        &*(first as *const IgnoreList),
        &*(second as *const IgnoreList),
        most_states,
        output,
        written,
    )
}

/// Looks for a path, as walks have them, that exactly one of the lists ignores. Writes and returns what
/// `wax_glob_overlap` does.
///
/// # Errors
///
/// Returns the errors of `wax_glob_overlap`.
#[unsafe(no_mangle)]
pub unsafe extern "C" fn wax_ignore_compare(
    alloc: Global,
    first: *const u8,
    second: *const u8,
    most_states: usize,
    output: &mut [u8],
    written: &mut usize,
) -> i32
    ghost held: { IgnoreList × IgnoreList }
    requires* first { sem 𝓛 (list_at alloc first held.0) }
    requires* second { sem 𝓛 (list_at alloc second held.1) }
    ensures* first_back { sem 𝓛 (list_at alloc first held.0) }
    ensures* second_back { sem 𝓛 (list_at alloc second held.1) }
    ensures comparison { CompareAs (Ignores held.0) (Ignores held.1) most_states output.old
        (record { bytes = output.new; written = written.new }) result }
{
    comparison_held(
        alloc,
        &*(first as *const IgnoreList),
        &*(second as *const IgnoreList),
        most_states,
        output,
        written,
    )
}

fn overlap_held<H: Compared>(
    alloc: Global,
    first: &H,
    second: &H,
    most_states: usize,
    output: &mut [u8],
    written: &mut usize,
) -> i32
    ensures { OverlapAs (H.selects first.now) (H.selects second.now) most_states output.old
        (record { bytes = output.new; written = written.new }) result }
{
    number_of_finding(write_found(
        alloc,
        first,
        second,
        Asked::Both,
        most_states,
        output,
        written,
    ))
}

fn difference_held<H: Compared>(
    alloc: Global,
    first: &H,
    second: &H,
    most_states: usize,
    output: &mut [u8],
    written: &mut usize,
) -> i32
    ensures { DifferenceAs (H.selects first.now) (H.selects second.now) most_states output.old
        (record { bytes = output.new; written = written.new }) result }
{
    number_of_finding(write_found(
        alloc,
        first,
        second,
        Asked::FirstOnly,
        most_states,
        output,
        written,
    ))
}

fn comparison_held<H: Compared>(
    alloc: Global,
    first: &H,
    second: &H,
    most_states: usize,
    output: &mut [u8],
    written: &mut usize,
) -> i32
    ensures { CompareAs (H.selects first.now) (H.selects second.now) most_states output.old
        (record { bytes = output.new; written = written.new }) result }
{
    number_of_finding(write_found(
        alloc,
        first,
        second,
        Asked::OneOnly,
        most_states,
        output,
        written,
    ))
}

fn number_of_finding(outcome: Result<Finding, CallError>) -> i32
    ensures { result ≡ finding_number outcome }
{
    match outcome {
        Ok(Finding::Nothing) => 0,
        Ok(Finding::Written) => 1,
        Ok(Finding::Unknown) => 2,
        Err(error) => status_of(&Err(error)),
    }
}
