//! Searching bytes for two of them at a distance.
ghost use Rattle.std.specs.List.{position_or_len};
ghost use Rattle.std.specs.Prelude.{◌≡◌, ◌<◌, ◌≤◌, ◌+◌, ℕ, All, IfSome, bit_or, length, map, true};
ghost use Rattle.std.specs.{Char.to_ascii_lowercase, Simd.Lanes.mask_l};
ghost use Rattle.wax_prefilter.specs.inner.Pairs.{NoPairBefore, NoPairsBefore, PairIsAt, ZeroWhere, is_zero};
ghost use Rattle.wax_prefilter.specs.inner.Pairs.{lowered, lowered_byte};

use std::simd::prelude::*;

/// How many positions are looked at together.
const LANES: usize = 32;

/// How many bytes are more common than each byte in the paths of a Debian system, which has them in the order
/// `/otsnerlaciu.hp_-ymdg1b6x3vkf842w705z9jqEASMCRPITDLNGVOBQ+FHUWX`, from the most common one on. All others
/// count as equally rare.
const RARITY: [u8; 256] = [
    63, 63, 63, 63, 63, 63, 63, 63, 63, 63, 63, 63, 63, 63, 63, 63, 63, 63, 63, 63, 63, 63, 63, 63,
    63, 63, 63, 63, 63, 63, 63, 63, 63, 63, 63, 63, 63, 63, 63, 63, 63, 63, 63, 57, 63, 16, 12, 0,
    34, 21, 31, 25, 30, 35, 23, 33, 29, 37, 63, 63, 63, 63, 63, 63, 63, 41, 55, 44, 49, 40, 58, 52,
    59, 47, 63, 63, 50, 43, 51, 54, 46, 56, 45, 42, 48, 60, 53, 61, 62, 63, 63, 63, 63, 63, 63, 15,
    63, 8, 22, 9, 19, 5, 28, 20, 13, 10, 38, 27, 7, 18, 4, 1, 14, 39, 6, 3, 2, 11, 26, 32, 24, 17,
    36, 63, 63, 63, 63, 63, 63, 63, 63, 63, 63, 63, 63, 63, 63, 63, 63, 63, 63, 63, 63, 63, 63, 63,
    63, 63, 63, 63, 63, 63, 63, 63, 63, 63, 63, 63, 63, 63, 63, 63, 63, 63, 63, 63, 63, 63, 63, 63,
    63, 63, 63, 63, 63, 63, 63, 63, 63, 63, 63, 63, 63, 63, 63, 63, 63, 63, 63, 63, 63, 63, 63, 63,
    63, 63, 63, 63, 63, 63, 63, 63, 63, 63, 63, 63, 63, 63, 63, 63, 63, 63, 63, 63, 63, 63, 63, 63,
    63, 63, 63, 63, 63, 63, 63, 63, 63, 63, 63, 63, 63, 63, 63, 63, 63, 63, 63, 63, 63, 63, 63, 63,
    63, 63, 63, 63, 63, 63, 63, 63, 63, 63, 63, 63, 63, 63,
];

/// Two bytes at a distance. Few positions have both, and they are found much faster than a whole text
/// that begins and ends with them.
#[derive(Clone, Copy)]
pub struct Pair {
    pub first: u8,
    pub last: u8,
    pub distance: usize,
}

/// Pairs that are searched for together, as they are or in any case: a pair in any case has its letters
/// in lower case, and is found in both cases.
#[derive(Drop)]
pub struct SoughtPairs {
    pub list: Vec<Pair>,
    pub in_any_case: bool,
}

impl SoughtPairs {
    /// Returns a position before which none of the pairs is found: that of the first one, unless it is near
    /// the end. Takes time proportional to the position and to the number of pairs.
    pub fn find_first(&self, bytes: &[u8]) -> usize
        ensures before { NoPairsBefore self.now.list.items (lowered self.now.in_any_case bytes.now) result }
        ensures inside { result ≤ length bytes.now }
    {
        if self.in_any_case {
            find_in_any_case(&self.list, bytes)
        } else {
            find_as_they_are(&self.list, bytes)
        }
    }
}

#[inline(never)]
fn find_in_any_case(pairs: &[Pair], bytes: &[u8]) -> usize
    ensures before { NoPairsBefore pairs.now (lowered true bytes.now) result }
    ensures inside { result ≤ length bytes.now }
{
    find_first(pairs, bytes, true)
}

#[inline(never)]
fn find_as_they_are(pairs: &[Pair], bytes: &[u8]) -> usize
    ensures before { NoPairsBefore pairs.now bytes.now result }
    ensures inside { result ≤ length bytes.now }
{
    find_first(pairs, bytes, false)
}

// Both callers pass a constant, so that each search is compiled by itself.
#[inline(always)]
fn find_first(pairs: &[Pair], bytes: &[u8], in_any_case: bool) -> usize
    ensures before { NoPairsBefore pairs.now (lowered in_any_case bytes.now) result }
    ensures inside { result ≤ length bytes.now }
{
    if pairs.len() == 1 {
        return pairs[0].find(bytes, in_any_case);
    }
    let Some(lasts) = bytes.get(greatest_distance(pairs)..) else {
        return 0;
    };
    let mut at = 0;
    while lasts.len() - at >= LANES {
        let position = first_position(pairs, &bytes[at..], in_any_case);
        if position < LANES {
            return at + position;
        }
        at += LANES;
    }
    at
}

fn greatest_distance(pairs: &[Pair]) -> usize
    ensures { All (λ pair. pair.distance ≤ result) pairs.now }
{
    let mut greatest = 0;
    for pair in pairs {
        greatest = greatest.max(pair.distance);
    }
    greatest
}

// Returns the first of the first positions where one of the pairs stands, or the number of these positions.
#[inline(always)]
fn first_position(pairs: &[Pair], bytes: &[u8], in_any_case: bool) -> usize
    requires lanes { LANES ≤ length bytes.now }
    requires room { All (λ pair. pair.distance + LANES ≤ length bytes.now) pairs.now }
    ensures before { NoPairsBefore pairs.now (lowered in_any_case bytes.now) result }
    ensures inside { result ≤ LANES }
{
    let front = u8x32::from_slice(bytes);
    let mut least = u8x32::splat(1);
    for pair in pairs {
        let back = u8x32::from_slice(&bytes[pair.distance..]);
        least = least.simd_min(pair.differences(front, back, in_any_case));
    }
    first_zero(least)
}

// Returns the first lane that is 0, or the number of lanes.
#[inline(always)]
fn first_zero(lanes: u8x32) -> usize
    ensures { result ≡ position_or_len is_zero lanes }
{
    let zeros = zeros(lanes);
    if zeros == 0 {
        LANES
    } else {
        zeros.trailing_zeros() as usize
    }
}

// Returns a mask in which the lowest bit belongs to the first lane, and is set if that is 0.
#[inline(always)]
fn zeros(lanes: u8x32) -> u64
    ensures { result ≡ mask_l (map is_zero lanes) }
{
    lanes.simd_eq(u8x32::splat(0)).to_bitmask()
}

// Returns how many bytes are more common.
fn rarity(byte: u8) -> usize {
    usize::from(RARITY[usize::from(byte)])
}

// Returns the byte or, in any case, its lower case, which is the more common one.
fn in_case(byte: u8, in_any_case: bool) -> u8
    ensures { result ≡ lowered_byte in_any_case byte }
{
    if in_any_case {
        byte.to_ascii_lowercase()
    } else {
        byte
    }
}

/// Returns the position of the rarest of the bytes, perhaps in any case, apart from the byte at the
/// position `other`.
pub fn rarest_but(other: usize, bytes: &[u8], in_any_case: bool) -> usize
    requires some { 1 ≤ length bytes.now }
    requires more { other ≡ 0 → 2 ≤ length bytes.now }
    ensures inside { result < length bytes.now }
    ensures another { result ≡ other → ⊥ }
{
    let mut rarest = usize::from(other == 0);
    let mut greatest = rarity(in_case(bytes[rarest], in_any_case));
    for at in 0..bytes.len() {
        let rarity = rarity(in_case(bytes[at], in_any_case));
        if at != other && rarity > greatest {
            rarest = at;
            greatest = rarity;
        }
    }
    rarest
}

// Returns the bit by which a letter in lower case differs from its upper case, or 0 for other bytes.
#[inline(always)]
fn case_bit(byte: u8) -> u8
    ensures { (b : ℕ) → b < 256 → to_ascii_lowercase b ≡ byte → bit_or b result ≡ byte }
{
    if byte.is_ascii_lowercase() { 0x20 } else { 0 }
}

impl Pair {
    /// Returns the two of the bytes that are rarest in paths, with the position of the first of them, or
    /// `None` if there are fewer than two. In any case, looks at the bytes in lower case.
    pub fn rarest_of(bytes: &[u8], in_any_case: bool) -> Option<(usize, Pair)>
        ensures { IfSome result (λ found. PairIsAt found.1 (lowered in_any_case bytes.now) found.0) }
    {
        if bytes.len() < 2 {
            return None;
        }
        let rarest = rarest_but(bytes.len(), bytes, in_any_case);
        let other = rarest_but(rarest, bytes, in_any_case);
        let (at, end) = (rarest.min(other), rarest.max(other));
        let pair = Pair {
            first: in_case(bytes[at], in_any_case),
            last: in_case(bytes[end], in_any_case),
            distance: end - at,
        };
        Some((at, pair))
    }

    /// Returns what `SoughtPairs::find_first` does, for one pair.
    #[inline(always)]
    pub fn find(self, bytes: &[u8], in_any_case: bool) -> usize
        ensures before { NoPairBefore self (lowered in_any_case bytes.now) result }
        ensures inside { result ≤ length bytes.now }
    {
        let Some(lasts) = bytes.get(self.distance..) else {
            return 0;
        };
        let mut at = 0;
        while lasts.len() - at >= LANES {
            let front = u8x32::from_slice(&bytes[at..]);
            let back = u8x32::from_slice(&lasts[at..]);
            let lane = first_zero(self.differences(front, back, in_any_case));
            if lane < LANES {
                return at + lane;
            }
            at += LANES;
        }
        at
    }

    // Returns 0 in each lane where the pair is found. `back` has the bytes at the distance from those
    // of `front`.
    #[inline(always)]
    fn differences(self, front: u8x32, back: u8x32, in_any_case: bool) -> u8x32
        ensures lanes { length result ≡ LANES }
        ensures zero { ZeroWhere self (lowered in_any_case front) (lowered in_any_case back) result }
    {
        let first = u8x32::splat(self.first);
        let last = u8x32::splat(self.last);
        if in_any_case {
            let front = front | u8x32::splat(case_bit(self.first));
            let back = back | u8x32::splat(case_bit(self.last));
            return (front ^ first) | (back ^ last);
        }
        (front ^ first) | (back ^ last)
    }
}
