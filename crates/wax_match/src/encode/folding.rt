//! Comparing texts in any case.
ghost use Rattle.std.specs.Prelude.{◌↔◌, IfOk, IsTrue, chars, true};
ghost use Rattle.wax_token.specs.Meaning.{SameText};

use crate::encode::leaves::characters;
use std::alloc::Global;
use unicode::case::simple_fold;
use wax_query::diagnostics::NoMemory;

/// Returns whether two texts differ only in case: they have equally many characters, and those at
/// the same places have the same simple case folding. Allocates for the characters of both texts.
pub fn case_folded_eq(alloc: Global, left: &str, right: &str) -> Result<bool, NoMemory>
    ensures { IfOk result (λ b. IsTrue b ↔ SameText true (chars left.now) (chars right.now)) }
{
    let left = characters(alloc, left)?;
    let right = characters(alloc, right)?;
    Ok(fold_alike(&left, &right))
}

fn fold_alike(left: &[char], right: &[char]) -> bool
    ensures { IsTrue result ↔ SameText true left.now right.now }
{
    if left.len() != right.len() {
        return false;
    }
    for index in 0..left.len() {
        if simple_fold(left[index]) != simple_fold(right[index]) {
            return false;
        }
    }
    true
}
