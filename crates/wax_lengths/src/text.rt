//! Texts whose characters are read by their places.
ghost use Rattle.std.specs.Prelude.{◌≡◌, ◌+◌, ◌^◌, ◌<◌, ◌≤◌, IfOk, chars, get_or, length};

use std::alloc::{AllocError, Global};
use std::marker::Model;

/// The characters of a text: the bytes of one that is ASCII, or a list.
#[derive(Drop)]
enum Letters<'t> {
    Bytes(&'t [u8]),
    Listed(Vec<char>),
}

/// A text whose characters are read by their places. An ASCII text isn't copied.
#[derive(Drop)]
pub struct Text<'t> {
    letters: Letters<'t>,
}

impl<'t> Model for Text<'t> {
    ghost use Rattle.std.specs.Prelude.{ℕ, ◌^◌, ◌<◌, List, length};
    ghost use Rattle.wax_lengths.specs.inner.Letters.{letters_of};

    ghost Value = { List ℕ };

    ghost view = { λ t. letters_of t.letters };

    ghost invariant = { λ t. length (letters_of t.letters) < 2 ^ 63 };
}

impl<'t> Text<'t> {
    /// Creates the text. Lists its characters if it isn't ASCII.
    pub fn new(alloc: Global, text: &'t str) -> Result<Text<'t>, AllocError>
        ensures { IfOk result (λ t. t ≡ chars text.now) }
    {
        if text.is_ascii() {
            let letters = Letters::Bytes(text.as_bytes());
            return Ok(Text { letters });
        }
        let letters = Letters::Listed(text.chars().collect(alloc)?);
        Ok(Text { letters })
    }

    /// Returns the number of characters.
    #[inline(always)]
    pub fn len(&self) -> usize
        ensures is { result ≡ length self.now }
        ensures fits { result < 2 ^ 63 }
    {
        match &self.letters {
            Letters::Bytes(bytes) => bytes.len(),
            Letters::Listed(characters) => characters.len(),
        }
    }

    /// Returns the character at a place.
    #[inline(always)]
    pub fn char_at(&self, place: usize) -> char
        requires { place < length self.now }
        ensures { result ≡ get_or self.now place result }
    {
        match &self.letters {
            Letters::Bytes(bytes) => bytes[place] as char,
            Letters::Listed(characters) => characters[place],
        }
    }

    /// Returns the character that is `n` places after a place.
    #[inline(always)]
    pub fn char_after(&self, place: usize, n: usize) -> char
        requires { place + n < length self.now }
        ensures { result ≡ get_or self.now (place + n) result }
    {
        self.char_at(self.place_after(place, n))
    }

    /// Returns the place that is `n` characters after a place.
    #[inline(always)]
    pub fn place_after(&self, place: usize, n: usize) -> usize
        requires { place + n ≤ length self.now }
        ensures { result ≡ place + n }
    {
        // each arm knows that the text's length fits into 64 bits
        match &self.letters {
            Letters::Bytes(_) => place + n,
            Letters::Listed(_) => place + n,
        }
    }
}
