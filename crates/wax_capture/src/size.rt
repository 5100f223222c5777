//! Sizes of forms: bounds of how often they look at each character of a text.
ghost use Rattle.std.specs.Prelude.{◌≡◌, ◌≤◌};
ghost use Rattle.wax_capture.specs.{Pieces.size_of, inner.Splits.all_sizes};

use crate::piece::Piece;
use wax_lengths::Form;

/// Returns the sum of the forms' sizes, or less if 64 bits can't hold it.
fn size_of(forms: &[Form]) -> usize
    ensures { result ≤ size_of forms.now }
{
    let mut size: usize = 0;
    for index in 0..forms.len() {
        size = size.saturating_add(forms[index].size());
    }
    size
}

/// Returns the sum of the sizes of all pieces' forms, or less if 64 bits can't hold it.
pub fn size_of_all(pieces: &[Piece]) -> usize
    ensures { result ≤ all_sizes pieces.now }
{
    let mut size: usize = 0;
    for index in 0..pieces.len() {
        size = size.saturating_add(size_of(pieces[index].ways.forms()));
    }
    size
}
