//! Searching texts in any case.
ghost use Rattle.std.specs.Prelude.{◌≡◌, ◌≤◌, ◌<◌, ℕ, IsTrue, List, ◌++◌, chars, length, slice_index, true};
ghost use Rattle.wax_prefilter.specs.inner.Forms.{HasAsciiForms};
ghost use Rattle.wax_token.specs.Meaning.{SameText};

use unicode::case::simple_fold;
use wax_program::instruction::folds_to;

/// Returns whether the text begins with `beginning` in any case.
pub fn begins_in_any_case(text: &str, beginning: &str) -> bool
    ensures { (x y : List ℕ) → chars text.now ≡ x ++ y
        → SameText true (chars beginning.now) x → IsTrue result }
{
    let mut left = text.chars();
    let mut wanted = beginning.chars();
    while let Some(d) = wanted.next() {
        let Some(c) = left.next() else {
            return false;
        };
        if !folds_to(c, simple_fold(d)) {
            return false;
        }
    }
    true
}

/// Returns whether the text contains `held` in any case. In the worst case, takes time proportional
/// to the product of their lengths.
pub fn contains_in_any_case(text: &str, held: &str) -> bool
    ensures { (x y z : List ℕ) → chars text.now ≡ x ++ (y ++ z)
        → SameText true (chars held.now) y → IsTrue result }
{
    let mut wanted = held.chars();
    let Some(first) = wanted.next() else {
        return true;
    };
    let folded = simple_fold(first);
    let mut left = text.chars();
    while let Some(c) = left.next() {
        if folds_to(c, folded) && begins_in_any_case(left.as_str(), wanted.as_str()) {
            return true;
        }
    }
    false
}

/// Returns how many of the first bytes are ASCII characters that have no forms in any case past ASCII.
pub fn ascii_forms_len(bytes: &[u8]) -> usize
    ensures inside { result ≤ length bytes.now }
    ensures forms { (k : ℕ) → k < result → HasAsciiForms (slice_index bytes.now k) }
{
    let mut len = 0;
    while len < bytes.len() && has_ascii_forms(bytes[len]) {
        len += 1;
    }
    len
}

// The Kelvin sign is a form of `k`, and the long s is one of `s`.
fn has_ascii_forms(byte: u8) -> bool
    ensures { IsTrue result → HasAsciiForms byte }
{
    let lower = byte.to_ascii_lowercase();
    byte.is_ascii() && lower != b'k' && lower != b's'
}
