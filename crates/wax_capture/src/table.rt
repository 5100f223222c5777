//! Splitting a text by a table: how many characters each piece takes from each place on.
ghost use Rattle.std.specs.Prelude.{◌≡◌, ◌+◌, ◌*◌, ◌≤◌, ◌∷◌, [], ◌++◌, ℕ, List, IfOk, MatchOption, length};
ghost use Rattle.wax_capture.specs.{Pieces.{forms_of, size_of}, inner.Rows.{ArePieceRows, Row}};
ghost use Rattle.wax_capture.specs.{inner.Splits.{AreChosen, Splits, all_sizes}, inner.Trials.lengths_of};
ghost use Rattle.wax_capture.specs.declared.piece.Piece.{Piece};

use crate::choice::choose;
use crate::piece::Piece;
use crate::trial::Frame;
use std::alloc::{AllocError, Global};
use wax_lengths::{Text, Visits};

/// Builds the row of no piece, which can split only the empty rest at the text's end.
fn last_row(alloc: Global, text: &Text<'_>) -> Result<Vec<Option<usize>>, AllocError>
    ensures row { IfOk result (λ r. Row [] text.now r.items) }
    ensures len { IfOk result (λ r. length r.items ≡ length text.now + 1) }
{
    let mut row = vec![in alloc; None; text.len()]?;
    row.push(Some(0))?;
    Ok(row)
}

/// Builds the row of a piece and all pieces after it, from the row `next` of those after it.
fn row_before(
    alloc: Global,
    piece: &Piece,
    text: &Text<'_>,
    next: &[Option<usize>],
    visits: &mut Visits,
) -> Result<Vec<Option<usize>>, AllocError>
    requires { length next.now ≡ length text.now + 1 }
    ensures row { (ps : List Piece) → Row ps text.now next.now
        → IfOk result (λ r. Row (piece.now ∷ ps) text.now r.items) }
    ensures len { IfOk result (λ r. length r.items ≡ length text.now + 1) }
    ensures above { visits.new ≤ visits.old
        + size_of (forms_of piece.now.ways) * ((length text.now + 1) * (length text.now + 1)) }
    ensures steady { visits.old ≤ visits.new }
{
    let mut row = Vec::with_capacity(alloc, next.len())?;
    for at in 0..next.len() {
        let cell = choose(alloc, piece, text, at, next, visits)?;
        row.push(cell)?;
    }
    Ok(row)
}

/// Builds the rows of the last pieces: of none, of the last one, of the last two, and so on.
fn table(
    alloc: Global,
    pieces: &[Piece],
    text: &Text<'_>,
    visits: &mut Visits,
) -> Result<Vec<Vec<Option<usize>>>, AllocError>
    ensures rows { IfOk result (λ rows. ArePieceRows pieces.now text.now rows.items) }
    ensures len { IfOk result (λ rows. length rows.items ≡ length pieces.now + 1) }
    ensures above { visits.new
        ≤ visits.old + all_sizes pieces.now * ((length text.now + 1) * (length text.now + 1)) }
    ensures steady { visits.old ≤ visits.new }
{
    let mut rows: Vec<Vec<Option<usize>>> = Vec::new(alloc);
    let none = last_row(alloc, text)?;
    rows.push(none)?;
    let mut index = pieces.len();
    while index > 0 {
        index -= 1;
        let next = &rows[pieces.len() - 1 - index];
        let row = row_before(alloc, &pieces[index], text, next, visits)?;
        rows.push(row)?;
    }
    Ok(rows)
}

/// Returns the pieces by the chosen split, or `None` if they don't split the text. Takes time
/// proportional to the sizes of the pieces and the square of the text's length.
pub fn split_by_table(
    alloc: Global,
    pieces: &[Piece],
    text: &Text<'_>,
    visits: &mut Visits,
) -> Result<Option<Vec<Frame>>, AllocError>
    ensures chosen { IfOk result (λ r. MatchOption r (Splits pieces.now text.now → ⊥)
        (λ chosen. AreChosen pieces.now text.now (lengths_of chosen.items))) }
    ensures above { visits.new
        ≤ visits.old + all_sizes pieces.now * ((length text.now + 1) * (length text.now + 1)) }
    ensures steady { visits.old ≤ visits.new }
{
    let rows = table(alloc, pieces, text, visits)?;
    if rows[pieces.len()][0].is_none() {
        return Ok(None);
    }
    let mut chosen = Vec::with_capacity(alloc, pieces.len())?;
    let mut at = 0;
    for index in 0..pieces.len() {
        let Some(n) = rows[pieces.len() - index][at] else {
            return Ok(None);
        };
        chosen.push(Frame::new(at, n))?;
        at = text.place_after(at, n);
    }
    Ok(Some(chosen))
}
