//! Splitting a text by trial, from left to right, with a bound on the time.
ghost use Rattle.std.specs.Prelude.{◌≡◌, ◌+◌, ◌*◌, ◌<◌, ◌≤◌, ◌∷◌, [], ◌++◌, ℕ, List, IfOk, IsFalse, IsTrue};
ghost use Rattle.std.specs.{Prelude.{length, drop}, Bool.MatchBool};
ghost use Rattle.wax_capture.specs.{Pieces.{forms_of, size_of}, inner.Splits.{Splits, all_sizes}};
ghost use Rattle.wax_capture.specs.inner.Trials.{AreLeft, HasTaken, IsOpen, IsTried};
ghost use Rattle.wax_capture.specs.declared.piece.Piece.{Piece};
ghost use Rattle.wax_lengths.specs.{Forms.form_size, Spans.{InSpan, IsNarrowed, IsPicked, looks}};

use crate::piece::Piece;
use std::alloc::{AllocError, Global};
use std::mem;
use wax_lengths::{Form, LengthSpan, Text, Visits, lengths_of, pick};

/// A piece in a trial: the length that it takes now, and what is left to be tried.
#[derive(Drop)]
pub struct Frame {
    /// The place where the piece begins.
    at: usize,
    /// The number of characters that it takes now.
    pub n: usize,
    /// The number of its forms that were tried, the last of them perhaps in part.
    opened: usize,
    /// The lengths by the last of these forms that are left to be tried.
    span: LengthSpan,
}

impl Frame {
    /// Creates the frame of a piece that takes `n` characters, and of which nothing was tried.
    pub fn new(at: usize, n: usize) -> Frame
        ensures at { result.at ≡ at }
        ensures takes { result.n ≡ n }
        ensures opened { result.opened ≡ 0 }
        ensures end { result.span.end ≡ 0 }
        ensures looks { looks result.span ≡ 0 }
    {
        Frame {
            at,
            n,
            opened: 0,
            span: LengthSpan::new(0, 0),
        }
    }
}

/// The outcome of a trial.
#[derive(Drop)]
pub enum Trial {
    /// The pieces by the chosen split, each with what it takes.
    Chosen(Vec<Frame>),
    /// The pieces don't split the text.
    Nothing,
    /// The trial took too long.
    Unknown,
}

/// Takes the best length that is left in the frame's span. Returns whether there was one.
fn take_left(text: &Text<'_>, is_lazy: bool, frame: &mut Frame, visits: &mut Visits) -> bool
    requires { frame.old.at + frame.old.span.end ≤ length text.now + 1 }
    ensures taken { MatchBool result
        (IsPicked frame.old.span frame.new.span (drop frame.old.at text.now) is_lazy frame.new.n)
        ((m : ℕ) → InSpan frame.old.span (drop frame.old.at text.now) m → ⊥) }
    ensures narrowed { IsNarrowed frame.old.span frame.new.span (drop frame.old.at text.now) }
    ensures at { frame.new.at ≡ frame.old.at }
    ensures opened { frame.new.opened ≡ frame.old.opened }
    ensures end { frame.new.span.end ≤ frame.old.span.end }
    ensures looked { visits.new + looks frame.new.span ≤ visits.old + looks frame.old.span }
    ensures steady { visits.old ≤ visits.new }
{
    match pick(text, frame.at, &mut frame.span, is_lazy, visits) {
        Some(n) => {
            frame.n = n;
            true
        }
        None => false,
    }
}

/// Returns the lengths that the form takes from `at` on. If no piece is after it, only that of the
/// whole rest may be left.
fn lengths_left(
    alloc: Global,
    form: &Form,
    is_last: bool,
    text: &Text<'_>,
    at: usize,
    visits: &mut Visits,
) -> Result<LengthSpan, AllocError>
    requires { at ≤ length text.now }
    ensures left { IfOk result (AreLeft form.now is_last (drop at text.now)) }
    ensures end { IfOk result (λ span. at + span.end ≤ length text.now + 1) }
    ensures looked { IfOk result (λ span.
        visits.new + looks span ≤ visits.old + form_size form.now * (length text.now + 1)) }
    ensures above { visits.new ≤ visits.old + form_size form.now * (length text.now + 1) }
    ensures steady { visits.old ≤ visits.new }
{
    let mut span = lengths_of(alloc, form, text, at, visits)?;
    if is_last {
        span.low = span.low.max(text.len() - at);
    }
    Ok(span)
}

/// Takes the best length that wasn't tried, by the current form or the next ones. Returns whether
/// there was one.
fn take_next(
    alloc: Global,
    piece: &Piece,
    is_last: bool,
    text: &Text<'_>,
    frame: &mut Frame,
    visits: &mut Visits,
) -> Result<bool, AllocError>
    requires within { frame.old.at ≤ length text.now }
    requires end { frame.old.at + frame.old.span.end ≤ length text.now + 1 }
    ensures taken { (ps : List Piece) → (IsTrue is_last → ps ≡ [])
        → IsOpen piece.now ps (drop frame.old.at text.now) frame.old
        → IfOk result (λ b. MatchBool b (HasTaken piece.now ps (drop frame.old.at text.now) frame.new)
        (Splits (piece.now ∷ ps) (drop frame.old.at text.now) → ⊥)) }
    ensures at { IfOk result (λ _. frame.new.at ≡ frame.old.at) }
    ensures end { IfOk result (λ _. frame.new.at + frame.new.span.end ≤ length text.now + 1) }
    ensures few { (most : ℕ) → looks frame.old.span ≤ most
        → size_of (forms_of piece.now.ways) * (length text.now + 1) ≤ most
        → IfOk result (λ _. looks frame.new.span ≤ most) }
    ensures above { visits.new ≤ visits.old + looks frame.old.span
        + size_of (forms_of piece.now.ways) * (length text.now + 1) }
    ensures steady { visits.old ≤ visits.new }
{
    if take_left(text, piece.is_lazy, frame, visits) {
        return Ok(true);
    }
    let forms = piece.ways.forms();
    let mut index = piece.ways.next_form(frame.opened, text, frame.at);
    while index < forms.len() {
        frame.span = lengths_left(alloc, &forms[index], is_last, text, frame.at, visits)?;
        frame.opened = index + 1;
        if take_left(text, piece.is_lazy, frame, visits) {
            return Ok(true);
        }
        index = piece.ways.next_form(frame.opened, text, frame.at);
    }
    Ok(false)
}

/// Returns whether the piece may take a part of the text from `at` on. Looks at the text only if
/// the piece before it has other lengths left.
fn may_begin(piece: &Piece, text: &Text<'_>, at: usize, has_others: bool) -> bool
    requires { at ≤ length text.now }
    ensures { IsFalse result → (ps : List Piece) → Splits (piece.now ∷ ps) (drop at text.now) → ⊥ }
{
    if !has_others {
        return true;
    }
    piece.ways.next_form(0, text, at) < piece.ways.forms().len()
}

/// Finds the lengths of the pieces by the chosen split. Each piece in turn takes the best length
/// that wasn't tried; if there is none, the piece before it has to take another. Gives up after
/// about `limit` visits.
pub fn split_by_trial(
    alloc: Global,
    pieces: &[Piece],
    text: &Text<'_>,
    limit: usize,
    visits: &mut Visits,
) -> Result<Trial, AllocError>
    ensures tried { IfOk result (IsTried pieces.now text.now) }
    ensures above { visits.new ≤ visits.old + limit + 2 * (all_sizes pieces.now * (length text.now + 1)) }
    ensures steady { visits.old ≤ visits.new }
{
    let last = visits.count().saturating_add(limit as u128);
    let mut below: Vec<Frame> = Vec::with_capacity(alloc, pieces.len())?;
    let mut top = Frame::new(0, 0);
    for _ in 0..limit.saturating_mul(4) {
        let index = below.len();
        if index >= pieces.len() || visits.count() >= last {
            return Ok(Trial::Unknown);
        }
        let is_last = index + 1 == pieces.len();
        if !take_next(alloc, &pieces[index], is_last, text, &mut top, visits)? {
            let Some(frame) = below.pop() else {
                return Ok(Trial::Nothing);
            };
            top = frame;
        } else if index + 1 < pieces.len() {
            let end = text.place_after(top.at, top.n);
            let has_others = top.span.low < top.span.end;
            if may_begin(&pieces[index + 1], text, end, has_others) {
                let next = Frame::new(end, 0);
                below.push(mem::replace(&mut top, next))?;
            }
        } else if text.place_after(top.at, top.n) == text.len() {
            below.push(top)?;
            return Ok(Trial::Chosen(below));
        }
    }
    Ok(Trial::Unknown)
}
