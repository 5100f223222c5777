//! Finding a text by which two programs are compared.
ghost use Rattle.std.specs.Prelude.{◌≡◌, ◌+◌, ◌<◌, ◌≤◌, IfOk, IsFalse, IsTrue, ℕ, chars, length, slice_index};
ghost use Rattle.std.specs.Prelude.{string_bytes};
ghost use Rattle.wax_program.specs.Machine.{Accepts};
ghost use Rattle.wax_compare.specs.Cuts.{AreLetters, AreUnlike};
ghost use Rattle.wax_compare.specs.Comparison.{IsAnswer, IsShortest, IsWanted};
ghost use Rattle.wax_compare.specs.{Limit.{KeepsLimit, ReachesMore}, Selected.{CanSelect, IsSelected}};
ghost use Rattle.wax_compare.specs.{declared.finding.Followed.TheVariants.OverLimit, inner.Going.starts};
ghost use Rattle.wax_compare.specs.inner.Reaching.{BeginAsPrograms};
ghost use Rattle.wax_compare.specs.inner.Searching.{AreAutomataOf, IsSameSearch, KeepsBoth, WantedText};
ghost use Rattle.wax_compare.specs.inner.Searching.{readings};
ghost use Rattle.wax_compare.specs.inner.Visiting.{AreKnown, EndsAt, Grow, HasFollowed, IsHeld, IsOverLimit};
ghost use Rattle.wax_compare.specs.inner.Visiting.{IsVisited};

use crate::alphabet::alphabet;
use crate::automaton::Automaton;
use crate::pairs::{Pairs, Reached, StatePair};
use crate::search::Search;
use crate::wanted::{Comparison, Criterion, Selector, Texts, Wanted};
use crate::witness::text_to;
use std::alloc::{AllocError, Global};
use wax_program::CompiledProgram;

/// The usual limit. States and pairs then take at most 64 MiB.
pub const MOST_STATES: usize = 100_000;

/// How many bytes of places and rows the limit allows for each state or pair.
const BYTES_OF_STATE: usize = 384;

/// What came of following every letter from a pair.
#[derive(Drop)]
pub enum Followed {
    /// No text that ends after one of the letters is wanted.
    All,
    /// A text that ends after the letter with this number is wanted.
    Ends(usize),
    /// More was reached than the limit allows.
    OverLimit,
}

/// Finds a shortest text among `texts` that the two programs accept as is wanted. Takes the time and
/// memory of [`find_selected`].
pub fn find_text(
    alloc: Global,
    first: &CompiledProgram,
    second: &CompiledProgram,
    wanted: Wanted,
    texts: Texts,
    most_states: usize,
) -> Result<Comparison, AllocError>
    ensures answer { IfOk result (IsAnswer
        (IsWanted wanted texts (Accepts first.now.0 0) (Accepts second.now.0 0))) }
    ensures limit { IfOk result (KeepsLimit first.now.0 second.now.0 wanted texts most_states) }
{
    let first = Selector {
        program: first,
        criterion: Criterion::Accepted,
    };
    let second = Selector {
        program: second,
        criterion: Criterion::Accepted,
    };
    find_selected(alloc, &first, &second, wanted, texts, most_states)
}

/// Finds a shortest text among `texts` that the two select as is wanted. A text leads to a state of each
/// program, which is a list of places. Each pair of states that texts lead to is followed once by each
/// letter that its states distinguish, and by one of the others.
///
/// Returns `Unknown` if letters are left to follow when the states of both programs and their pairs are
/// more than `most_states`, or the states take more than 384 bytes for each of so many. A state takes 8
/// bytes for each place, and 5 for each letter.
///
/// # Errors
///
/// Returns `AllocError` if allocation fails, or if a program has 2³² instructions or more.
pub fn find_selected(
    alloc: Global,
    first: &Selector<'_>,
    second: &Selector<'_>,
    wanted: Wanted,
    texts: Texts,
    most_states: usize,
) -> Result<Comparison, AllocError>
    requires first { CanSelect first.now.criterion first.now.program.now.0 }
    requires second { CanSelect second.now.criterion second.now.program.now.0 }
    ensures answer { IfOk result (IsAnswer (IsWanted wanted texts
        (IsSelected first.now.criterion (Accepts first.now.program.now.0 0))
        (IsSelected second.now.criterion (Accepts second.now.program.now.0 0)))) }
    ensures limit { IfOk result
        (KeepsLimit first.now.program.now.0 second.now.program.now.0 wanted texts most_states) }
{
    let letters = alphabet(alloc, first.program, second.program)?;
    let first_automaton = Automaton::new(alloc, first.program, first.criterion, &letters)?;
    let second_automaton = Automaton::new(alloc, second.program, second.criterion, &letters)?;
    let mut search = Search {
        wanted,
        texts,
        letters,
        first: first_automaton,
        second: second_automaton,
    };
    begin(
        alloc,
        first.program,
        second.program,
        &mut search,
        most_states,
    )
}

/// Tests the empty text, and then searches.
fn begin(
    alloc: Global,
    first: &CompiledProgram,
    second: &CompiledProgram,
    search: &mut Search,
    most_states: usize,
) -> Result<Comparison, AllocError>
    requires automata { AreAutomataOf first.now.0 second.now.0 search.old }
    requires letters { AreLetters first.now.0 second.now.0 search.old.letters.items }
    requires unlike { AreUnlike first.now.0 second.now.0 search.old.letters.items }
    requires begin { BeginAsPrograms (readings first.now.0 second.now.0 search.old) }
    ensures answer { IfOk result (IsAnswer (WantedText first.now.0 second.now.0 search.old)) }
    ensures limit { IfOk result (KeepsLimit first.now.0 second.now.0
        search.old.wanted search.old.texts most_states) }
{
    let beginning = StatePair {
        first: 0,
        second: 0,
        may_end: begins_all(search.texts),
    };
    if search.is_wanted(first, second, beginning) {
        return Ok(Comparison::Text(String::new(alloc)));
    }
    let mut pairs = Pairs::new(alloc);
    pairs.push(Reached {
        pair: beginning,
        before: 0,
        letter: '/',
        depth: 0,
    })?;
    run(alloc, first, second, search, &mut pairs, most_states)
}

/// Returns whether the empty text is of the kind.
fn begins_all(texts: Texts) -> bool
    ensures { result ≡ starts texts }
{
    matches!(texts, Texts::All)
}

/// Follows pair after pair.
fn run(
    alloc: Global,
    first: &CompiledProgram,
    second: &CompiledProgram,
    search: &mut Search,
    pairs: &mut Pairs,
    most_states: usize,
) -> Result<Comparison, AllocError>
    requires held { IsHeld first.now.0 second.now.0 search.old pairs.old.reached.items 0 }
    requires known { AreKnown pairs.old.reached.items pairs.old.known }
    ensures answer { IfOk result (IsAnswer (WantedText first.now.0 second.now.0 search.old)) }
    ensures limit { IfOk result (KeepsLimit first.now.0 second.now.0
        search.old.wanted search.old.texts most_states) }
{
    for at in 0..most_states {
        if at >= pairs.reached.len() {
            return Ok(Comparison::Nothing);
        }
        match follow(first, second, search, pairs, at, most_states)? {
            Followed::All => {}
            Followed::Ends(number) => {
                let text = text_at(alloc, first, second, search, pairs, at, number)?;
                return Ok(Comparison::Text(text));
            }
            Followed::OverLimit => return Ok(Comparison::Unknown),
        }
    }
    if pairs.reached.len() <= most_states {
        return Ok(Comparison::Nothing);
    }
    Ok(Comparison::Unknown)
}

/// Returns the text that led to a pair, followed by a letter after which it is wanted.
fn text_at(
    alloc: Global,
    first: &CompiledProgram,
    second: &CompiledProgram,
    search: &Search,
    pairs: &Pairs,
    at: usize,
    number: usize,
) -> Result<String, AllocError>
    requires held { IsHeld first.now.0 second.now.0 search.now pairs.now.reached.items at }
    requires at { at < length pairs.now.reached.items }
    requires number { number < length search.now.letters.items }
    requires ends { EndsAt (readings first.now.0 second.now.0 search.now) pairs.now.reached.items at
        (slice_index search.now.letters.items number) }
    ensures shortest { IfOk result (λ t.
        IsShortest (WantedText first.now.0 second.now.0 search.now) (chars (string_bytes t))) }
    ensures short { IfOk result (λ t. length (chars (string_bytes t)) ≤ at + 1) }
{
    text_to(alloc, &pairs.reached, at, search.letters[number])
}

/// Follows the pair with this number by every letter, until the text that ends after one is wanted or
/// more was reached than the limit allows. Of the letters that the pair doesn't distinguish it follows
/// only the first.
fn follow(
    first: &CompiledProgram,
    second: &CompiledProgram,
    search: &mut Search,
    pairs: &mut Pairs,
    at: usize,
    most_states: usize,
) -> Result<Followed, AllocError>
    requires held { IsHeld first.now.0 second.now.0 search.old pairs.old.reached.items at }
    requires known { AreKnown pairs.old.reached.items pairs.old.known }
    requires at { at < length pairs.old.reached.items }
    ensures same { IfOk result (λ _. IsSameSearch search.old search.new) }
    ensures known { IfOk result (λ _. AreKnown pairs.new.reached.items pairs.new.known) }
    ensures followed { IfOk result
        (HasFollowed first.now.0 second.now.0 search.new pairs.new.reached.items at) }
    ensures over { IfOk result (λ followed. followed ≡ OverLimit
        → ReachesMore first.now.0 second.now.0 search.old.texts most_states) }
{
    let pair = pairs.reached[at].pair;
    let mut has_alike = false;
    for number in 0..search.letters.len() {
        let is_alike = search.is_undistinguished(pair, number);
        if is_alike && has_alike {
            continue;
        }
        if is_over(search, pairs, most_states) {
            return Ok(Followed::OverLimit);
        }
        has_alike = has_alike || is_alike;
        let letter = search.letters[number];
        if visit(first, second, search, pairs, at, number, letter)? {
            return Ok(Followed::Ends(number));
        }
    }
    Ok(Followed::All)
}

/// Returns whether states and pairs are more than the limit allows.
fn is_over(search: &Search, pairs: &Pairs, most_states: usize) -> bool
    ensures { IsTrue result → IsOverLimit most_states search.now pairs.now.reached.items }
{
    let states = search
        .first
        .states
        .len()
        .saturating_add(search.second.states.len());
    let bytes = search.first.bytes.saturating_add(search.second.bytes);
    states.saturating_add(pairs.reached.len()) > most_states
        || bytes > most_states.saturating_mul(BYTES_OF_STATE)
}

/// Follows a letter from the pair with this number. Returns whether the text is wanted then, and if
/// not, adds the pair to which the letter leads, unless it was reached.
fn visit(
    first: &CompiledProgram,
    second: &CompiledProgram,
    search: &mut Search,
    pairs: &mut Pairs,
    at: usize,
    number: usize,
    letter: char,
) -> Result<bool, AllocError>
    requires held { IsHeld first.now.0 second.now.0 search.old pairs.old.reached.items at }
    requires known { AreKnown pairs.old.reached.items pairs.old.known }
    requires at { at < length pairs.old.reached.items }
    requires number { number < length search.old.letters.items }
    requires letter { letter ≡ slice_index search.old.letters.items number }
    ensures held { IfOk result (λ _. IsHeld first.now.0 second.now.0 search.new pairs.new.reached.items at) }
    ensures known { IfOk result (λ _. AreKnown pairs.new.reached.items pairs.new.known) }
    ensures same { IfOk result (λ _. IsSameSearch search.old search.new) }
    ensures states { IfOk result (λ _. KeepsBoth search.old search.new) }
    ensures grows { IfOk result (λ _. Grow pairs.old.reached.items pairs.new.reached.items) }
    ensures keeps { IfOk result (λ _. (l : ℕ)
        → IsVisited (readings first.now.0 second.now.0 search.old) pairs.old.reached.items at l
        → IsVisited (readings first.now.0 second.now.0 search.new) pairs.new.reached.items at l) }
    ensures ends { IfOk result (λ found. IsTrue found
        → EndsAt (readings first.now.0 second.now.0 search.new) pairs.new.reached.items at
        (slice_index search.old.letters.items number)) }
    ensures visited { IfOk result (λ found. IsFalse found
        → IsVisited (readings first.now.0 second.now.0 search.new) pairs.new.reached.items at
        (slice_index search.old.letters.items number)) }
{
    let from = pairs.reached[at];
    let Some(pair) = search.step(first, second, from.pair, number)? else {
        return Ok(false);
    };
    if search.is_wanted(first, second, pair) {
        return Ok(true);
    }
    if pairs.contains(pair) {
        return Ok(false);
    }
    pairs.push(Reached {
        pair,
        before: at,
        letter,
        depth: from.depth.saturating_add(1),
    })?;
    Ok(false)
}
