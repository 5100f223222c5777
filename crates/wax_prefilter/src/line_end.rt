//! Searching lines for needles at their ends.
ghost use Rattle.std.specs.Prelude.{◌<◌, ◌≤◌, ◌++◌, ◌≡◌, IfSome, IsTrue, List, ℕ, length, slice_index, take};
ghost use Rattle.wax_prefilter.specs.inner.Ends.{ComesBefore, EndsWithOne, IsBeforeEnd, NoneEndsBefore};

use crate::needle::Needle;
use crate::pair::{Pair, rarest_but};

/// The greatest number of bytes of a text that is searched for with the line feed after it, since
/// its own bytes are in many paths, such as those of an extension.
const MOST_SHORT: usize = 5;

/// A pair that is found so many bytes before the end of each line that has one of some needles at its
/// end.
#[derive(Clone, Copy)]
pub struct EndPair {
    pair: Pair,
    back: usize,
}

/// The line feed itself, twice.
pub const FEED: EndPair = EndPair {
    pair: Pair {
        first: b'\n',
        last: b'\n',
        distance: 0,
    },
    back: 0,
};

impl EndPair {
    /// Returns the two rarest bytes of a text or, if it is short, its rarest byte and the line feed
    /// after it. A `.` with which a short text begins doesn't count, since many paths have one so near
    /// their end. Returns `None` if the text has fewer than two bytes.
    pub fn of(bytes: &[u8]) -> Option<EndPair>
        ensures { IfSome result (IsBeforeEnd bytes.now) }
    {
        if bytes.len() > MOST_SHORT {
            let (position, pair) = Pair::rarest_of(bytes, false)?;
            let back = bytes.len() - position;
            return Some(EndPair { pair, back });
        }
        if bytes.len() < 2 {
            return None;
        }
        let at = rarest_but(if bytes[0] == b'.' { 0 } else { bytes.len() }, bytes, false);
        let back = bytes.len() - at;
        let pair = Pair {
            first: bytes[at],
            last: b'\n',
            distance: back,
        };
        Some(EndPair { pair, back })
    }

    /// Returns whether this is the line feed itself.
    pub fn is_feed(self) -> bool {
        self.back == 0
    }
}

/// Returns a position before which no line feed comes after one of the needles: that of the first line
/// feed that may do so, unless it is near the end. Takes time proportional to the position and, for each
/// position before it where the pair is found, to the number of needles.
#[inline(always)]
pub fn find_line_end(end: EndPair, needles: &[Needle], bytes: &[u8]) -> usize
    requires { ComesBefore end needles.now }
    ensures before { NoneEndsBefore needles.now bytes.now result }
    ensures inside { result ≤ length bytes.now }
{
    let mut at = 0;
    while at < bytes.len() {
        let position = at + end.pair.find(&bytes[at..], false);
        if bytes.len() - position <= end.back {
            return position;
        }
        let feed = position + end.back;
        if is_line_end(needles, bytes, feed) {
            return feed;
        }
        at = position + 1;
    }
    at
}

// Returns whether a line may end at the position, with one of the needles before it.
#[inline(always)]
fn is_line_end(needles: &[Needle], bytes: &[u8], feed: usize) -> bool
    requires { feed < length bytes.now }
    ensures { slice_index bytes.now feed ≡ 10 → EndsWithOne needles.now (take feed bytes.now)
        → IsTrue result }
{
    bytes[feed] == b'\n' && has_end(needles, &bytes[..feed])
}

// Returns whether the bytes may end with one of the needles.
#[inline(always)]
fn has_end(needles: &[Needle], bytes: &[u8]) -> bool
    ensures { EndsWithOne needles.now bytes.now → IsTrue result }
{
    for needle in needles {
        if needle.is_at_end(bytes) {
            return true;
        }
    }
    false
}

/// Returns whether the bytes end with others. The last bytes are compared first, since they mostly
/// differ.
#[inline(always)]
pub fn is_end(end: &[u8], bytes: &[u8]) -> bool
    ensures { (x : List ℕ) → bytes.now ≡ x ++ end.now → IsTrue result }
{
    let (len, whole) = (end.len(), bytes.len());
    if len == 0 {
        return true;
    }
    if whole < len || bytes[whole - 1] != end[len - 1] {
        return false;
    }
    bytes.ends_with(end)
}
