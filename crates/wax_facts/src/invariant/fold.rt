//! Characters whose simple case folding no other character has.
ghost use Rattle.std.specs.Prelude.{◌≡◌, ◌↔◌, IsTrue, chars};
ghost use Rattle.wax_facts.specs.InvariantText.{AllFoldAlone, FoldsAlone, VariesInCase};

use unicode::case::fold_pairs;
use wax_token::token::Literal;

/// Returns whether a literal matches more than one text: it has the flag `i`, and one of its
/// characters has another case.
pub fn has_variant_casing(literal: &Literal<'_>) -> bool
    ensures { IsTrue result ↔ VariesInCase literal.now }
{
    literal.is_case_insensitive() && !all_fold_alone(literal.text())
}

/// Returns whether no character of the text has another case.
pub fn all_fold_alone(text: &str) -> bool
    ensures { IsTrue result ↔ AllFoldAlone (chars text.now) }
{
    for c in text.chars() {
        if !folds_alone(c) {
            return false;
        }
    }
    true
}

// The table has each pair in both orders, so it is enough to search the first places.
fn folds_alone(c: char) -> bool
    ensures { IsTrue result ↔ FoldsAlone c }
{
    let code = c as u32;
    fold_pairs()
        .binary_search_by_key(&code, |&(character, _)| character)
        .is_err()
}
