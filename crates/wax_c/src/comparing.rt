//! Calls that compare two expressions.
ghost use Rattle.std.specs.Prelude.{◌≡◌, ◌≤◌, ◌*◌, IfErr, IfOk, length, neg_ℤ, pos};
ghost use Rattle.wax.specs.GlobView.{IsMeant};
ghost use Rattle.wax_c.specs.Comparing.{Finds, IsOfBoth, IsOfFirstOnly, IsOfOneOnly, KeepsUnlessFound, OfTwo};
ghost use Rattle.wax_c.specs.Comparing.{SearchEnds, SearchTakesMore, finding_number, span_in};
ghost use Rattle.wax_c.specs.inner.Searching.{IsAskedFor, IsSearchResult};

use crate::calls::build;
use crate::error::{CallError, status_of};
use crate::globs::{WaxSpan, place_of};
use crate::output::put;
use std::alloc::Global;
use wax::{BuildError, Compared, Comparison, Texts, compare, difference, overlap};

/// Which paths a search looks for: those that both select, only the first one, or exactly one of both.
#[derive(Clone, Copy)]
pub(crate) enum Asked {
    Both,
    FirstOnly,
    OneOnly,
}

/// How a search for a path ends.
#[derive(Drop)]
pub enum Finding {
    /// There is no such path.
    Nothing,
    /// A shortest such path is written.
    Written,
    /// Neither: it takes more states than the limit.
    Unknown,
}

// What a search finds.
#[derive(Drop)]
enum Found {
    Nothing,
    Path(String),
    Unknown,
}

// The result of a search. `which` is the index of the expression with an error, or 2.
struct Searched {
    outcome: Result<Finding, CallError>,
    which: usize,
}

/// Looks for a path, as walks have them, that both expressions match. If there is one, writes a shortest
/// one to the beginning of the output, and the number of its bytes to `written`, and returns 1. Returns 0
/// if there is none, and 2 if it takes more than `most_states` states to decide, or more than 384 bytes for
/// each of so many. An output of 4 bytes for each of `most_states` is always large enough.
///
/// # Errors
///
/// Returns the error of `wax_glob_new` for the first expression that has one; `which` is 0 for the first
/// and 1 for the second then, and `span` the place in it. If neither has an error, `which` is 2. Returns
/// -10 if allocation fails, and -21 if the output is too small; `written` is how many bytes are needed
/// then. In all other cases but 1 it is 0. The output is unchanged in all cases but 1.
#[unsafe(no_mangle)]
pub extern "C" fn wax_overlap(
    alloc: Global,
    first: &[u8],
    second: &[u8],
    most_states: usize,
    output: &mut [u8],
    written: &mut usize,
    which: &mut usize,
    span: &mut WaxSpan,
) -> i32
    ensures finds { SearchEnds first.now second.now (λ one other.
        Finds (IsOfBoth (IsMeant one) (IsMeant other))
        (SearchTakesMore most_states (IsMeant one) (IsMeant other)) output.old
        (record { bytes = output.new; written = written.new }))
        (record { which = which.new; span = span.new }) result }
    ensures unchanged { (result ≡ pos 1 → ⊥) → output.new ≡ output.old }
    ensures nothing { (result ≡ pos 1 → ⊥) → (result ≡ neg_ℤ (pos 21) → ⊥) → written.new ≡ 0 }
    ensures room { 4 * most_states ≤ length output.old → result ≡ neg_ℤ (pos 21) → ⊥ }
{
    let Searched {
        outcome,
        which: index,
    } = search(
        alloc,
        first,
        second,
        Asked::Both,
        most_states,
        output,
        written,
    );
    *which = index;
    report(outcome, span)
}

/// Looks for a path, as walks have them, that the first expression matches and the second one doesn't.
/// Writes and returns what `wax_overlap` does.
///
/// # Errors
///
/// Returns the errors of `wax_overlap`.
#[unsafe(no_mangle)]
pub extern "C" fn wax_difference(
    alloc: Global,
    first: &[u8],
    second: &[u8],
    most_states: usize,
    output: &mut [u8],
    written: &mut usize,
    which: &mut usize,
    span: &mut WaxSpan,
) -> i32
    ensures finds { SearchEnds first.now second.now (λ one other.
        Finds (IsOfFirstOnly (IsMeant one) (IsMeant other))
        (SearchTakesMore most_states (IsMeant one) (IsMeant other)) output.old
        (record { bytes = output.new; written = written.new }))
        (record { which = which.new; span = span.new }) result }
    ensures unchanged { (result ≡ pos 1 → ⊥) → output.new ≡ output.old }
    ensures nothing { (result ≡ pos 1 → ⊥) → (result ≡ neg_ℤ (pos 21) → ⊥) → written.new ≡ 0 }
    ensures room { 4 * most_states ≤ length output.old → result ≡ neg_ℤ (pos 21) → ⊥ }
{
    let Searched {
        outcome,
        which: index,
    } = search(
        alloc,
        first,
        second,
        Asked::FirstOnly,
        most_states,
        output,
        written,
    );
    *which = index;
    report(outcome, span)
}

/// Looks for a path, as walks have them, that exactly one of the expressions matches. Writes and returns
/// what `wax_overlap` does.
///
/// # Errors
///
/// Returns the errors of `wax_overlap`.
#[unsafe(no_mangle)]
pub extern "C" fn wax_compare(
    alloc: Global,
    first: &[u8],
    second: &[u8],
    most_states: usize,
    output: &mut [u8],
    written: &mut usize,
    which: &mut usize,
    span: &mut WaxSpan,
) -> i32
    ensures finds { SearchEnds first.now second.now (λ one other.
        Finds (IsOfOneOnly (IsMeant one) (IsMeant other))
        (SearchTakesMore most_states (IsMeant one) (IsMeant other)) output.old
        (record { bytes = output.new; written = written.new }))
        (record { which = which.new; span = span.new }) result }
    ensures unchanged { (result ≡ pos 1 → ⊥) → output.new ≡ output.old }
    ensures nothing { (result ≡ pos 1 → ⊥) → (result ≡ neg_ℤ (pos 21) → ⊥) → written.new ≡ 0 }
    ensures room { 4 * most_states ≤ length output.old → result ≡ neg_ℤ (pos 21) → ⊥ }
{
    let Searched {
        outcome,
        which: index,
    } = search(
        alloc,
        first,
        second,
        Asked::OneOnly,
        most_states,
        output,
        written,
    );
    *which = index;
    report(outcome, span)
}

// Writes the place of the error, and returns the number of what was found.
fn report(outcome: Result<Finding, CallError>, span: &mut WaxSpan) -> i32
    ensures number { result ≡ finding_number outcome }
    ensures place { span.new ≡ span_in outcome }
{
    match outcome {
        Ok(finding) => {
            *span = WaxSpan {
                start: 0,
                length: 0,
            };
            match finding {
                Finding::Nothing => 0,
                Finding::Written => 1,
                Finding::Unknown => 2,
            }
        }
        Err(error) => {
            let failed = Err(error);
            *span = place_of(&failed);
            status_of(&failed)
        }
    }
}

// Builds the globs of both expressions, and searches.
fn search(
    alloc: Global,
    first: &[u8],
    second: &[u8],
    asked: Asked,
    most_states: usize,
    output: &mut [u8],
    written: &mut usize,
) -> Searched
    ensures finds { OfTwo first.now second.now (λ one other.
        Finds (IsAskedFor asked (IsMeant one) (IsMeant other))
        (SearchTakesMore most_states (IsMeant one) (IsMeant other)) output.old
        (record { bytes = output.new; written = written.new })) result.which result.outcome }
    ensures kept { KeepsUnlessFound output.old (record { bytes = output.new; written = written.new })
        result.outcome }
    ensures room { 4 * most_states ≤ length output.old → IfErr result.outcome
        (λ error. error ≡ CallError.NoRoom → ⊥) }
{
    *written = 0;
    let one = match build(alloc, first) {
        Ok(one) => one,
        Err(error) => {
            return Searched {
                outcome: Err(error),
                which: 0,
            };
        }
    };
    let other = match build(alloc, second) {
        Ok(other) => other,
        Err(error) => {
            return Searched {
                outcome: Err(error),
                which: 1,
            };
        }
    };
    Searched {
        outcome: write_found(alloc, &one, &other, asked, most_states, output, written),
        which: 2,
    }
}

/// Searches, and writes the path that is found.
///
/// # Errors
///
/// Returns `Build(Memory)` (10) if allocation fails, and `NoRoom` (21) if the output is too small.
pub(crate) fn write_found<A: Compared, B: Compared>(
    alloc: Global,
    one: &A,
    other: &B,
    asked: Asked,
    most_states: usize,
    output: &mut [u8],
    written: &mut usize,
) -> Result<Finding, CallError>
    ensures finds { Finds (IsAskedFor asked (A.selects one.now) (B.selects other.now))
        (SearchTakesMore most_states (A.selects one.now) (B.selects other.now)) output.old
        (record { bytes = output.new; written = written.new }) result }
    ensures kept { KeepsUnlessFound output.old (record { bytes = output.new; written = written.new }) result }
    ensures room { 4 * most_states ≤ length output.old
        → IfErr result (λ error. error ≡ CallError.NoRoom → ⊥) }
{
    *written = 0;
    match find(alloc, one, other, asked, most_states) {
        Ok(Found::Nothing) => Ok(Finding::Nothing),
        Ok(Found::Path(path)) => match put(path.as_str().as_bytes(), output, written) {
            Ok(()) => Ok(Finding::Written),
            Err(error) => Err(error),
        },
        Ok(Found::Unknown) => Ok(Finding::Unknown),
        Err(error) => Err(error),
    }
}

fn find<A: Compared, B: Compared>(
    alloc: Global,
    one: &A,
    other: &B,
    asked: Asked,
    most_states: usize,
) -> Result<Found, CallError>
    ensures found { IfOk result (IsSearchResult
        (IsAskedFor asked (A.selects one.now) (B.selects other.now))
        (SearchTakesMore most_states (A.selects one.now) (B.selects other.now)) most_states) }
    ensures err { IfErr result (λ error. error ≡ CallError.Build BuildError.Memory) }
{
    match asked {
        Asked::Both => match overlap(alloc, one, other, Texts::Paths, most_states) {
            Ok(Comparison::Nothing) => Ok(Found::Nothing),
            Ok(Comparison::Text(path)) => Ok(Found::Path(path)),
            Ok(Comparison::Unknown) => Ok(Found::Unknown),
            Err(_) => Err(CallError::Build(BuildError::Memory)),
        },
        Asked::FirstOnly => match difference(alloc, one, other, Texts::Paths, most_states) {
            Ok(Comparison::Nothing) => Ok(Found::Nothing),
            Ok(Comparison::Text(path)) => Ok(Found::Path(path)),
            Ok(Comparison::Unknown) => Ok(Found::Unknown),
            Err(_) => Err(CallError::Build(BuildError::Memory)),
        },
        Asked::OneOnly => match compare(alloc, one, other, Texts::Paths, most_states) {
            Ok(Comparison::Nothing) => Ok(Found::Nothing),
            Ok(Comparison::Text(path)) => Ok(Found::Path(path)),
            Ok(Comparison::Unknown) => Ok(Found::Unknown),
            Err(_) => Err(CallError::Build(BuildError::Memory)),
        },
    }
}
