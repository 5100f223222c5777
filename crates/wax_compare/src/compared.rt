//! What can be compared: whatever selects texts by a program.
ghost use Rattle.std.specs.Prelude.{◌↔◌, ℕ, List, IfOk};
ghost use Rattle.wax_compare.specs.{Comparison.{IsAnswer, IsWanted}, Limit.KeepsLimitBy};
ghost use Rattle.wax_compare.specs.Selected.{CanSelect, IsSelected};
ghost use Rattle.wax_compare.specs.declared.wanted.Wanted.TheVariants.{Both, FirstOnly, OneOnly};
ghost use Rattle.wax_program.specs.Machine.{Accepts};

use crate::finding::find_selected;
use crate::wanted::{Comparison, Selector, Texts, Wanted};
use std::alloc::Global;
use wax_query::diagnostics::NoMemory;

/// A glob, a set or an ignore list, which can be compared with another one by [`overlap`],
/// [`difference`] and [`compare`]. A list stands for the paths that it ignores.
pub trait Compared {
    // The texts that it selects, each as its characters.
    ghost selects: { Self → List ℕ → Type 0 };

    /// Returns the program that selects these texts.
    fn selector(&self) -> Selector<'_>
        ensures can_select { CanSelect result.criterion result.program.now.0 }
        ensures selects { (text : List ℕ) → IsSelected result.criterion (Accepts result.program.now.0 0) text
            ↔ selects self.now text };
}

/// Finds a shortest text that both select, or `Nothing` if there is none: a path that both globs match,
/// or that a glob matches and a list ignores.
///
/// Takes time in proportion to the states that texts lead to, times the characters that the two match
/// differently. There may be many if several `?` or a long repetition follow a `*`, hence the limit: the
/// result is `Unknown` if more than `most_states` states and pairs of states are reached, or if they
/// take more than 384 bytes for each of so many.
///
/// ```
/// use wax::{Comparison, MOST_STATES, Texts, overlap};
///
/// let sources = Glob::new(alloc, "src/**/*.{go,rs}")?;
/// let tests = Glob::new(alloc, "**/test_*")?;
/// if let Comparison::Text(path) = overlap(alloc, &sources, &tests, Texts::Paths, MOST_STATES)? {
///     println!(rt; "{path}")?; // src/test_.go
/// }
/// ```
pub fn overlap<A: Compared, B: Compared>(
    alloc: Global,
    first: &A,
    second: &B,
    texts: Texts,
    most_states: usize,
) -> Result<Comparison, NoMemory>
    ensures answer { IfOk result (IsAnswer
        (IsWanted Both texts (A.selects first.now) (B.selects second.now))) }
    ensures limit { IfOk result
        (KeepsLimitBy (A.selects first.now) (B.selects second.now) Both texts most_states) }
{
    find(alloc, first, second, Wanted::Both, texts, most_states)
}

/// Finds a shortest text that the first one selects and the second one doesn't, or `Nothing` if the
/// second one selects all that the first one does. Takes the time and memory of [`overlap`].
///
/// ```
/// use wax::{Comparison, MOST_STATES, Texts, difference};
///
/// let go = Glob::new(alloc, "src/*.go")?;
/// let sources = Glob::new(alloc, "src/**/*.{go,rs}")?;
/// let left = difference(alloc, &go, &sources, Texts::Paths, MOST_STATES)?;
/// println!(rt; "{}", matches!(left, Comparison::Nothing))?; // true
/// ```
pub fn difference<A: Compared, B: Compared>(
    alloc: Global,
    first: &A,
    second: &B,
    texts: Texts,
    most_states: usize,
) -> Result<Comparison, NoMemory>
    ensures answer { IfOk result (IsAnswer
        (IsWanted FirstOnly texts (A.selects first.now) (B.selects second.now))) }
    ensures limit { IfOk result
        (KeepsLimitBy (A.selects first.now) (B.selects second.now) FirstOnly texts most_states) }
{
    find(alloc, first, second, Wanted::FirstOnly, texts, most_states)
}

/// Finds a shortest text that exactly one of both selects, or `Nothing` if both select the same texts.
/// Takes the time and memory of [`overlap`].
///
/// ```
/// use wax::{Comparison, MOST_STATES, Texts, compare};
///
/// let old = Glob::new(alloc, "{src,tests}/**/*.rs")?;
/// let new = Glob::new(alloc, "{src,tests,benches}/**/*.rs")?;
/// if let Comparison::Text(path) = compare(alloc, &old, &new, Texts::Paths, MOST_STATES)? {
///     println!(rt; "{path}")?; // benches/.rs
/// }
/// ```
pub fn compare<A: Compared, B: Compared>(
    alloc: Global,
    first: &A,
    second: &B,
    texts: Texts,
    most_states: usize,
) -> Result<Comparison, NoMemory>
    ensures answer { IfOk result (IsAnswer
        (IsWanted OneOnly texts (A.selects first.now) (B.selects second.now))) }
    ensures limit { IfOk result
        (KeepsLimitBy (A.selects first.now) (B.selects second.now) OneOnly texts most_states) }
{
    find(alloc, first, second, Wanted::OneOnly, texts, most_states)
}

/// Finds a shortest text that the two select as is wanted.
fn find<A: Compared, B: Compared>(
    alloc: Global,
    first: &A,
    second: &B,
    wanted: Wanted,
    texts: Texts,
    most_states: usize,
) -> Result<Comparison, NoMemory>
    ensures answer { IfOk result (IsAnswer
        (IsWanted wanted texts (A.selects first.now) (B.selects second.now))) }
    ensures limit { IfOk result
        (KeepsLimitBy (A.selects first.now) (B.selects second.now) wanted texts most_states) }
{
    let (first, second) = (first.selector(), second.selector());
    let found = find_selected(alloc, &first, &second, wanted, texts, most_states)?;
    Ok(found)
}
