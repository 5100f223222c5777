//! Splits of bytes and of text at line feeds.
ghost use Rattle.std.specs.Prelude.{◌≡◌, ◌≤◌, ◌++◌, ◌∷◌, List, ℕ, length, map, MatchOption};
ghost use Rattle.std.specs.{List.position_or_len, Simd.Lanes.mask_l, Str.IsUtf8};
ghost use Rattle.wax_lines.specs.inner.Sifted.{EndsLines, HasNoNewline, IsAfterFeed, is_feed};

use std::simd::prelude::*;

/// How many bytes are compared at once.
const LANES: usize = 32;

/// Splits bytes at the first line feed.
pub fn split_line(bytes: &[u8]) -> Option<(&[u8], &[u8])>
    ensures { MatchOption result (HasNoNewline bytes.now) (λ parts.
        (bytes.now ≡ parts.0.now ++ 10 ∷ parts.1.now) × HasNoNewline parts.0.now) }
{
    let at = first_feed(bytes);
    if at < bytes.len() {
        Some((&bytes[..at], &bytes[at + 1..]))
    } else {
        None
    }
}

/// Splits text at the first line feed.
pub fn split_text_line(text: &str) -> Option<(&str, &str)>
    ensures { MatchOption result (HasNoNewline text.now) (λ parts.
        (text.now ≡ parts.0.now ++ 10 ∷ parts.1.now) × HasNoNewline parts.0.now) }
{
    let at = first_feed(text.as_bytes());
    if at < text.len() {
        Some((&text[..at], &text[at + 1..]))
    } else {
        None
    }
}

/// Returns what is left of a text after whole lines within its first `most` bytes.
pub fn after_lines(text: &str, most: usize) -> &str
    ensures { (front : List ℕ) × (text.now ≡ front ++ result.now) × (length front ≤ most)
        × EndsLines front × IsUtf8 front }
{
    let at = after_last_feed(&text.as_bytes()[..most.min(text.len())]);
    &text[at..]
}

// Returns the index after the last line feed, or 0 if there is none.
fn after_last_feed(bytes: &[u8]) -> usize
    ensures { IsAfterFeed result bytes.now }
{
    let mut end = bytes.len();
    while end >= LANES && feeds(u8x32::from_slice(&bytes[end - LANES..])) == 0 {
        end -= LANES;
    }
    while end > 0 && bytes[end - 1] != b'\n' {
        end -= 1;
    }
    end
}

// Returns the index of the first line feed, or the length if there is none.
fn first_feed(bytes: &[u8]) -> usize
    ensures { result ≡ position_or_len is_feed bytes.now }
{
    let mut at = 0;
    while bytes.len() - at >= LANES {
        let found = feeds(u8x32::from_slice(&bytes[at..]));
        if found != 0 {
            return at + found.trailing_zeros() as usize;
        }
        at += LANES;
    }
    while at < bytes.len() && bytes[at] != b'\n' {
        at += 1;
    }
    at
}

// Returns a mask in which the lowest bit belongs to the first byte, and is set if that is a feed.
#[inline(always)]
fn feeds(bytes: u8x32) -> u64
    ensures { result ≡ mask_l (map is_feed bytes) }
{
    bytes.simd_eq(u8x32::splat(b'\n')).to_bitmask()
}
