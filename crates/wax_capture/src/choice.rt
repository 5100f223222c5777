//! Choosing what a piece takes of a text, if it is known from which places on the pieces after it
//! can take the rest.
ghost use Rattle.std.specs.Prelude.{◌≡◌, ◌+◌, ◌*◌, ◌≤◌, ◌∷◌, ℕ, List, IfOk, MatchOption, length, drop};
ghost use Rattle.wax_lengths.specs.{Prefers.Prefers, Forms.form_size};
ghost use Rattle.wax_capture.specs.{Pieces.{forms_of, size_of}, inner.Rows.{FitsIn, IsCell, Row}};
ghost use Rattle.wax_capture.specs.declared.piece.Piece.{Piece};

use crate::piece::Piece;
use std::alloc::{AllocError, Global};
use wax_lengths::{Form, Text, Visits, lengths_of, pick};

/// Returns the best length that the form takes from `at` on, and after which the cell in `next`
/// isn't empty.
fn choose_by(
    alloc: Global,
    form: &Form,
    text: &Text<'_>,
    at: usize,
    next: &[Option<usize>],
    is_lazy: bool,
    visits: &mut Visits,
) -> Result<Option<usize>, AllocError>
    requires within { at ≤ length text.now }
    requires next { length next.now ≡ length text.now + 1 }
    ensures best { IfOk result (λ r. MatchOption r
        ((m : ℕ) → FitsIn form.now (drop at text.now) next.now at m → ⊥)
        (λ n. FitsIn form.now (drop at text.now) next.now at n
        × ((m : ℕ) → FitsIn form.now (drop at text.now) next.now at m → Prefers is_lazy n m))) }
    ensures above { visits.new ≤ visits.old + form_size form.now * (length text.now + 1) }
    ensures steady { visits.old ≤ visits.new }
{
    let mut span = lengths_of(alloc, form, text, at, visits)?;
    while let Some(n) = pick(text, at, &mut span, is_lazy, visits) {
        if next[at + n].is_some() {
            return Ok(Some(n));
        }
    }
    Ok(None)
}

/// Returns how many characters the piece takes from `at` on. `next` is the row of the pieces after
/// it.
pub fn choose(
    alloc: Global,
    piece: &Piece,
    text: &Text<'_>,
    at: usize,
    next: &[Option<usize>],
    visits: &mut Visits,
) -> Result<Option<usize>, AllocError>
    requires within { at ≤ length text.now }
    requires next { length next.now ≡ length text.now + 1 }
    ensures cell { (ps : List Piece) → Row ps text.now next.now
        → IfOk result (IsCell (piece.now ∷ ps) (drop at text.now)) }
    ensures above { visits.new ≤ visits.old + size_of (forms_of piece.now.ways) * (length text.now + 1) }
    ensures steady { visits.old ≤ visits.new }
{
    let forms = piece.ways.forms();
    for index in 0..forms.len() {
        let form = &forms[index];
        if let Some(n) = choose_by(alloc, form, text, at, next, piece.is_lazy, visits)? {
            return Ok(Some(n));
        }
    }
    Ok(None)
}
