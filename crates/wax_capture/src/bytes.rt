//! Converting places in the characters of a text to places in its bytes.
ghost use Rattle.std.specs.{Prelude.{◌≡◌, ◌+◌, ◌^◌, ◌<◌, ◌≤◌, ℕ, IfOk, chars, length, map}, List.All};
ghost use Rattle.wax_token.specs.Reads.{utf8_len};
ghost use Rattle.wax_capture.specs.{inner.Bytes.{byte_at, in_bytes, span_between}, inner.Parts.IsWithin};

use std::alloc::{AllocError, Global};
use wax_lengths::Text;

/// Returns the number of bytes of the characters from one place up to another.
fn byte_len(text: &Text<'_>, from: usize, to: usize) -> usize
    requires ordered { from ≤ to }
    requires within { to ≤ length text.now }
    requires fits { utf8_len text.now < 2 ^ 64 }
    ensures { byte_at text.now from + result ≡ byte_at text.now to }
{
    let mut len = 0;
    for place in from..to {
        len += text.char_at(place).len_utf8();
    }
    len
}

/// Returns the number of bytes before a place. Counts on from the place `known`, before which there
/// are `bytes`, or from the beginning if the place is before `known`.
fn bytes_before(text: &Text<'_>, known: usize, bytes: usize, place: usize) -> usize
    requires known { bytes ≡ byte_at text.now known }
    requires before { known ≤ length text.now }
    requires within { place ≤ length text.now }
    requires fits { utf8_len text.now < 2 ^ 64 }
    ensures { result ≡ byte_at text.now place }
{
    if place < known {
        return byte_len(text, 0, place);
    }
    bytes + byte_len(text, known, place)
}

/// Converts the places of parts to bytes. Takes one pass over the text if the parts are in order.
fn count_bytes(
    alloc: Global,
    text: &Text<'_>,
    parts: &[(usize, usize)],
) -> Result<Vec<(usize, usize)>, AllocError>
    requires within { All (IsWithin text.now) parts.now }
    requires fits { utf8_len text.now < 2 ^ 64 }
    ensures { IfOk result (λ r. r.items ≡ map (in_bytes text.now) parts.now) }
{
    let mut places = Vec::with_capacity(alloc, parts.len())?;
    let mut known = 0;
    let mut bytes = 0;
    for index in 0..parts.len() {
        let (start, end) = parts[index];
        let first = bytes_before(text, known, bytes, start);
        let last = bytes_before(text, start, first, end);
        places.push((first, last))?;
        known = end;
        bytes = last;
    }
    Ok(places)
}

/// Converts the places of parts of a text to bytes. If each of its characters is one byte, the
/// parts are returned as they are.
pub fn to_bytes(
    alloc: Global,
    text: &str,
    characters: &Text<'_>,
    parts: Vec<(usize, usize)>,
) -> Result<Vec<(usize, usize)>, AllocError>
    requires characters { characters.now ≡ chars text.now }
    requires within { All (IsWithin characters.now) parts.items }
    ensures { IfOk result (λ r. r.items ≡ map (in_bytes characters.now) parts.items) }
{
    if text.len() == characters.len() {
        return Ok(parts);
    }
    count_bytes(alloc, characters, parts.as_slice())
}

/// Returns each part as its beginning and its length, instead of its end.
pub fn to_spans(alloc: Global, places: &[(usize, usize)]) -> Result<Vec<(usize, usize)>, AllocError>
    requires { All (λ (p : ℕ × ℕ). p.0 ≤ p.1) places.now }
    ensures { IfOk result (λ r. r.items ≡ map span_between places.now) }
{
    let mut spans = Vec::with_capacity(alloc, places.len())?;
    for index in 0..places.len() {
        let (start, end) = places[index];
        spans.push((start, end - start))?;
    }
    Ok(spans)
}
