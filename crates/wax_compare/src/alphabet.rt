//! Characters that stand for all others.
ghost use Rattle.std.specs.Prelude.{◌≡◌, ◌+◌, ◌<◌, ◌≤◌, ℕ, None, IfOk, IfSome, Contains, length, slice_index};
ghost use Rattle.std.specs.{Prelude.slice_index_or, Char.IsScalar, List.Sorted.IsNonDecreasing};
ghost use Rattle.wax_compare.specs.Cuts.{AreLetters, AreUnlike};
ghost use Rattle.wax_compare.specs.inner.Cutting.{AreKept, HasLetter, IsInBlock, Serve};

use crate::cuts::{AFTER_SURROGATES, cuts};
use crate::merged::merge;
use std::alloc::{AllocError, Global};
use wax_program::CompiledProgram;

/// The characters that are preferred to stand for others, the best ones first.
const FAVOURITES: &str =
    "abcdefghijklmnopqrstuvwxyz0123456789ABCDEFGHIJKLMNOPQRSTUVWXYZ_-.+=@#%~&;'!^|\" éλж中😀";

/// The first surrogate, which is no character.
const SURROGATES: u32 = 0xD800;

/// The number after the greatest character.
const END: u32 = 0x11_0000;

/// Returns characters such that for each character one of them passes the same tests of the two
/// programs, and is `/` only if it is. No two of them pass the same tests. The preferred ones come first.
pub fn alphabet(
    alloc: Global,
    first: &CompiledProgram,
    second: &CompiledProgram,
) -> Result<Vec<char>, AllocError>
    ensures letters { IfOk result (λ v. AreLetters first.now.0 second.now.0 v.items) }
    ensures unlike { IfOk result (λ v. AreUnlike first.now.0 second.now.0 v.items) }
{
    let cuts = cuts(alloc, first, second)?;
    let mut letters = letters_of(alloc, &cuts)?;
    letters.sort_unstable_by_key(|letter| rank(*letter));
    merge(alloc, first, second, &letters)
}

/// Returns a character for each part between two cuts that has one.
fn letters_of(alloc: Global, cuts: &[u32]) -> Result<Vec<char>, AllocError>
    requires rises { IsNonDecreasing cuts.now }
    requires after { Contains cuts.now 57344 }
    ensures { IfOk result (λ v. Serve cuts.now v.items (length cuts.now)) }
{
    let mut letters = Vec::new(alloc);
    for index in 0..cuts.len() {
        add_letter(cuts, index, &mut letters)?;
    }
    Ok(letters)
}

/// Adds a character for the part that begins at a cut, if it has one.
fn add_letter(cuts: &[u32], index: usize, letters: &mut Vec<char>) -> Result<(), AllocError>
    requires within { index < length cuts.now }
    requires rises { IsNonDecreasing cuts.now }
    requires after { Contains cuts.now 57344 }
    ensures kept { IfOk result (λ _. AreKept letters.old.items letters.new.items) }
    ensures serves { IfOk result (λ _. (c : ℕ) → IsScalar c → IsInBlock cuts.now index c
        → HasLetter cuts.now letters.new.items c) }
{
    let low = cuts[index];
    let high = cut_or_end(cuts, index + 1);
    let Some(letter) = letter_between(low, high) else {
        return Ok(());
    };
    letters.push(letter)?;
    Ok(())
}

/// Returns the cut with this number, or the end if there are fewer.
fn cut_or_end(cuts: &[u32], index: usize) -> u32
    ensures { result ≡ slice_index_or cuts.now index 1114112 }
{
    if index < cuts.len() { cuts[index] } else { END }
}

/// Returns a character from `low` on and below `high`: a preferred one, if there is one.
fn letter_between(low: u32, high: u32) -> Option<char>
    requires { 55296 ≤ low → low < 57344 → high ≤ 57344 }
    ensures some { IfSome result (λ d. (low ≤ d) × (d < high)) }
    ensures small { IfSome result (λ d. d < 1114112) }
    ensures none { result ≡ None → (c : ℕ) → IsScalar c → low ≤ c → c < high → ⊥ }
{
    if low >= high || low >= SURROGATES && low < AFTER_SURROGATES {
        return None;
    }
    match favourite_between(low, high) {
        Some(letter) => Some(letter),
        None => char::from_u32(low),
    }
}

fn favourite_between(low: u32, high: u32) -> Option<char>
    ensures { IfSome result (λ d. (low ≤ d) × (d < high)) }
{
    for letter in FAVOURITES.chars() {
        if low <= letter as u32 && (letter as u32) < high {
            return Some(letter);
        }
    }
    None
}

/// Returns the place among the preferred characters, or a greater number.
fn rank(letter: char) -> usize {
    let place = FAVOURITES.chars().position(|favourite| favourite == letter);
    place.unwrap_or(FAVOURITES.len())
}
