//! The chosen split of a text, and what is captured by it.
ghost use Rattle.std.specs.Prelude.{◌≡◌, ◌+◌, ◌*◌, ◌≤◌, ◌++◌, IfOk, IfSome, MatchOption, OnOk, length, drop};
ghost use Rattle.std.specs.{Prelude.{take, false}, List.All};
ghost use Rattle.wax_capture.specs.{Captures.tree_capture, Pieces.captured_by};
ghost use Rattle.wax_capture.specs.inner.Parts.{IsWithin, part_between, parts};
ghost use Rattle.wax_capture.specs.inner.Splits.{AreChosen, CapturedBy, PlacedBy, Splits, all_sizes};
ghost use Rattle.wax_capture.specs.{inner.Splits.{placed_by, split_visits}, inner.Trials.lengths_of};

use crate::piece::{Capture, Piece};
use crate::table::split_by_table;
use crate::trial::{Frame, Trial, split_by_trial};
use std::alloc::{AllocError, Global};
use wax_lengths::{Text, Visits};

/// Returns the end of the part of `n` characters from `at` on, or `at` if the part is one `/`.
fn end_unless_slash(text: &Text<'_>, at: usize, n: usize) -> usize
    requires { at + n ≤ length text.now }
    ensures part { part_between text.now (at, result) ≡ tree_capture false false (take n (drop at text.now)) }
    ensures within { IsWithin text.now (at, result) }
{
    if n == 1 && text.char_at(at) == '/' {
        return at;
    }
    text.place_after(at, n)
}

/// Appends what is captured of the `n` characters from `at` on, as its beginning and its end.
fn add_capture(
    capture: Capture,
    text: &Text<'_>,
    at: usize,
    n: usize,
    captures: &mut Vec<(usize, usize)>,
) -> Result<(), AllocError>
    requires { at + n ≤ length text.now }
    ensures added { OnOk result (parts text.now captures.new.items
        ≡ parts text.now captures.old.items ++ captured_by capture (take n (drop at text.now))) }
    ensures placed { OnOk result (captures.new.items
        ≡ captures.old.items ++ placed_by capture at (take n (drop at text.now))) }
    ensures within { All (IsWithin text.now) captures.old.items
        → OnOk result (All (IsWithin text.now) captures.new.items) }
{
    match capture {
        Capture::Nothing => {}
        Capture::Piece => captures.push((at, text.place_after(at, n)))?,
        Capture::AfterFirst => {
            captures.push((text.place_after(at, n.min(1)), text.place_after(at, n)))?;
        }
        Capture::UnlessSlash => captures.push((at, end_unless_slash(text, at, n)))?,
    }
    Ok(())
}

/// Returns what is captured of the pieces by the chosen split, each as its beginning and its end,
/// in characters.
fn captures_of(
    alloc: Global,
    pieces: &[Piece],
    text: &Text<'_>,
    chosen: &[Frame],
) -> Result<Vec<(usize, usize)>, AllocError>
    requires { AreChosen pieces.now text.now (lengths_of chosen.now) }
    ensures captured { IfOk result (λ captures.
        CapturedBy pieces.now text.now (parts text.now captures.items)) }
    ensures placed { IfOk result (λ captures. PlacedBy pieces.now 0 text.now captures.items) }
    ensures within { IfOk result (λ captures. All (IsWithin text.now) captures.items) }
{
    let mut captures = Vec::with_capacity(alloc, pieces.len())?;
    let mut at = 0;
    for index in 0..pieces.len() {
        let n = chosen[index].n;
        add_capture(pieces[index].capture, text, at, n, &mut captures)?;
        at = text.place_after(at, n);
    }
    Ok(captures)
}

/// Returns the pieces by the chosen split, or `None` if they don't split the text. Tries first,
/// which is usually faster, and builds a table if that takes too long.
fn chosen_split(
    alloc: Global,
    pieces: &[Piece],
    text: &Text<'_>,
    limit: usize,
    visits: &mut Visits,
) -> Result<Option<Vec<Frame>>, AllocError>
    requires { limit ≤ all_sizes pieces.now * ((length text.now + 1) * (length text.now + 1)) }
    ensures chosen { IfOk result (λ r. MatchOption r (Splits pieces.now text.now → ⊥)
        (λ chosen. AreChosen pieces.now text.now (lengths_of chosen.items))) }
    ensures above { visits.new ≤ visits.old + split_visits (all_sizes pieces.now) (length text.now) }
    ensures steady { visits.old ≤ visits.new }
{
    match split_by_trial(alloc, pieces, text, limit, visits)? {
        Trial::Chosen(chosen) => Ok(Some(chosen)),
        Trial::Nothing => Ok(None),
        Trial::Unknown => split_by_table(alloc, pieces, text, visits),
    }
}

/// Returns the captures of the pieces by the chosen split, each as its beginning and its end, in
/// characters. Returns `None` if the pieces don't split the text.
pub fn split(
    alloc: Global,
    pieces: &[Piece],
    text: &Text<'_>,
    limit: usize,
    visits: &mut Visits,
) -> Result<Option<Vec<(usize, usize)>>, AllocError>
    requires { limit ≤ all_sizes pieces.now * ((length text.now + 1) * (length text.now + 1)) }
    ensures captured { IfOk result (λ r. MatchOption r (Splits pieces.now text.now → ⊥)
        (λ captures. CapturedBy pieces.now text.now (parts text.now captures.items))) }
    ensures placed { IfOk result (λ r. IfSome r (λ captures. PlacedBy pieces.now 0 text.now captures.items)) }
    ensures within { IfOk result (λ r. IfSome r (λ captures. All (IsWithin text.now) captures.items)) }
    ensures above { visits.new ≤ visits.old + split_visits (all_sizes pieces.now) (length text.now) }
    ensures steady { visits.old ≤ visits.new }
{
    match chosen_split(alloc, pieces, text, limit, visits)? {
        Some(chosen) => Ok(Some(captures_of(alloc, pieces, text, chosen.as_slice())?)),
        None => Ok(None),
    }
}
