//! Which bytes are neighbors in a text. Most texts that lack a needle lack two of its neighbors, too,
//! which is found out faster than by a search.
ghost use Rattle.std.specs.Prelude.{◌≡◌, ◌<◌, ◌++◌, IsTrue, List, ℕ};
ghost use Rattle.wax_prefilter.specs.inner.Neighbors.{AreNeighbors, neighbors_number};

/// How many numbers two neighbors may have. No two pairs of lower-case letters have the same one.
const NUMBERS: usize = 1024;

/// For each number, whether two neighbors of a text have it.
pub type Neighbors = [bool; NUMBERS];

/// Returns the numbers of all neighbors in the text.
#[inline]
pub fn neighbors_of(text: &[u8]) -> Neighbors
    ensures { AreNeighbors text.now result }
{
    let mut neighbors = [false; NUMBERS];
    for position in 1..text.len() {
        neighbors[number_of(text[position - 1], text[position])] = true;
    }
    neighbors
}

/// Returns `false` only if a text with these neighbors doesn't contain `held`.
#[inline]
pub fn may_contain(neighbors: &Neighbors, held: &[u8]) -> bool
    ensures { (text x z : List ℕ) → AreNeighbors text neighbors.now
        → text ≡ x ++ (held.now ++ z) → IsTrue result }
{
    for position in 1..held.len() {
        if !neighbors[number_of(held[position - 1], held[position])] {
            return false;
        }
    }
    true
}

#[inline]
fn number_of(first: u8, second: u8) -> usize
    ensures number { result ≡ neighbors_number first second }
    ensures inside { result < NUMBERS }
{
    (usize::from(first) + 32 * usize::from(second)) % NUMBERS
}
