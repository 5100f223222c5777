//! The letters with which forms begin, in groups.
ghost use Rattle.std.specs.Prelude.{◌≡◌, ◌<◌, ℕ, Some, IsTrue};
ghost use Rattle.wax_lengths.specs.FirstLetters.{first_letter, group_of, is_folded, letter_of};

use crate::form::Form;
use unicode::case::simple_fold;

/// The number of groups of letters. Each ASCII letter has a group that no other ASCII letter has.
pub const GROUPS: usize = 128;

/// Returns the letter with which the form begins, if it takes letters.
pub fn first_letter(form: &Form) -> Option<char>
    ensures { result ≡ first_letter form.now }
{
    match form {
        Form::Text(letters, _) => letters.first().copied(),
        _ => None,
    }
}

/// Returns whether the form takes letters in any case.
pub fn is_folded(form: &Form) -> bool
    ensures { result ≡ is_folded form.now }
{
    match form {
        Form::Text(_, is_folded) => *is_folded,
        _ => false,
    }
}

/// Returns the letter that a form may have for the character: the character itself, or its simple
/// case folding if `is_folded`.
#[inline]
pub fn letter_of(is_folded: bool, c: char) -> char
    ensures { result ≡ letter_of is_folded c }
{
    if is_folded { simple_fold(c) } else { c }
}

/// Returns the group of the letter.
#[inline]
pub fn group_of(letter: char) -> usize
    ensures is { result ≡ group_of letter }
    ensures within { result < 128 }
{
    letter as usize % GROUPS
}

/// Returns whether the form begins with a letter of the group.
pub fn begins_in(form: &Form, group: usize) -> bool
    ensures { IsTrue result → (c : ℕ) × (first_letter form.now ≡ Some c) × (group_of c ≡ group) }
{
    match first_letter(form) {
        Some(letter) => group_of(letter) == group,
        None => false,
    }
}
