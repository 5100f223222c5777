//! Steps of two programs at once.
ghost use Rattle.std.specs.Prelude.{◌≡◌, ◌≢◌, ◌<◌, ◌↔◌, [], IfOk, IsTrue, length, slice_index};
ghost use Rattle.wax_compare.specs.{Comparison.AsWanted, declared.wanted.Wanted.TheVariants.{Both, OneOnly}};
ghost use Rattle.wax_compare.specs.{inner.Going.{IsAllowed, begun_after}, inner.Automata.state_places};
ghost use Rattle.wax_compare.specs.inner.Reaching.{GoesFrom};
ghost use Rattle.wax_compare.specs.inner.Searching.{AreAutomataOf, IsNextOrNone, IsSameSearch};
ghost use Rattle.wax_compare.specs.inner.Searching.{IsUndistinguished, KeepsBoth, readings};

use crate::automaton::Automaton;
use crate::pairs::StatePair;
use crate::wanted::{Texts, Wanted};
use std::alloc::AllocError;
use wax_program::CompiledProgram;

/// The states of two programs, and what is looked for.
#[derive(Drop)]
pub struct Search {
    pub wanted: Wanted,
    pub texts: Texts,
    pub letters: Vec<char>,
    pub first: Automaton,
    pub second: Automaton,
}

impl Search {
    /// Returns the pair to which a letter leads, unless no wanted text goes on with it.
    pub fn step(
        &mut self,
        first: &CompiledProgram,
        second: &CompiledProgram,
        from: StatePair,
        number: usize,
    ) -> Result<Option<StatePair>, AllocError>
        requires automata { AreAutomataOf first.now.0 second.now.0 self.old }
        requires first { from.first < length self.old.first.states.items }
        requires second { from.second < length self.old.second.states.items }
        requires number { number < length self.old.letters.items }
        ensures automata { IfOk result (λ _. AreAutomataOf first.now.0 second.now.0 self.new) }
        ensures same { IfOk result (λ _. IsSameSearch self.old self.new) }
        ensures keeps { IfOk result (λ _. KeepsBoth self.old self.new) }
        ensures next { IfOk result (IsNextOrNone (readings first.now.0 second.now.0 self.new)
            (slice_index self.old.letters.items number) from) }
    {
        let letter = self.letters[number];
        if !is_allowed(self.texts, from.may_end, letter) {
            return Ok(None);
        }
        let to = self.first.follow(first, &self.letters, from.first, number)?;
        if self.ends_first(to) {
            return Ok(None);
        }
        let other = self
            .second
            .follow(second, &self.letters, from.second, number)?;
        if self.ends_second(other) {
            return Ok(None);
        }
        Ok(Some(StatePair {
            first: to,
            second: other,
            may_end: begun_after(self.texts, from.may_end, letter),
        }))
    }

    /// Returns whether a text that ends with the pair is wanted.
    pub fn is_wanted(
        &self,
        first: &CompiledProgram,
        second: &CompiledProgram,
        pair: StatePair,
    ) -> bool
        requires automata { AreAutomataOf first.now.0 second.now.0 self.now }
        requires first { pair.first < length self.now.first.states.items }
        requires second { pair.second < length self.now.second.states.items }
        ensures { IsTrue result ↔ GoesFrom (readings first.now.0 second.now.0 self.now) pair [] }
    {
        if !pair.may_end {
            return false;
        }
        let by_first = self.first.selects(first, &self.letters, pair.first);
        let by_second = self.second.selects(second, &self.letters, pair.second);
        is_as_wanted(self.wanted, by_first, by_second)
    }

    /// Returns whether a pair doesn't distinguish a letter: it isn't `/`, and neither state marks it. All
    /// such letters lead to the same pair.
    pub fn is_undistinguished(&self, pair: StatePair, number: usize) -> bool
        requires first { pair.first < length self.now.first.states.items }
        requires second { pair.second < length self.now.second.states.items }
        requires number { number < length self.now.letters.items }
        ensures { IsTrue result → IsUndistinguished self.now pair number }
    {
        self.letters[number] != '/'
            && self.first.is_unmarked(pair.first, number)
            && self.second.is_unmarked(pair.second, number)
    }

    /// Returns whether the search ends in a state of the first program, since no text goes on from there
    /// that the program has to select.
    fn ends_first(&self, state: usize) -> bool
        requires { state < length self.now.first.states.items }
        ensures { IsTrue result → (self.now.wanted ≢ OneOnly)
            × (state_places self.now.first.states.items state ≡ []) }
    {
        match self.wanted {
            Wanted::Both | Wanted::FirstOnly => self.first.is_dead(state),
            Wanted::OneOnly => false,
        }
    }

    /// Returns whether the search ends in a state of the second program, for the same reason.
    fn ends_second(&self, state: usize) -> bool
        requires { state < length self.now.second.states.items }
        ensures { IsTrue result → (self.now.wanted ≡ Both)
            × (state_places self.now.second.states.items state ≡ []) }
    {
        match self.wanted {
            Wanted::Both => self.second.is_dead(state),
            Wanted::FirstOnly | Wanted::OneOnly => false,
        }
    }
}

/// Returns whether a text is wanted that these of both programs select.
fn is_as_wanted(wanted: Wanted, by_first: bool, by_second: bool) -> bool
    ensures { IsTrue result ↔ AsWanted wanted (IsTrue by_first) (IsTrue by_second) }
{
    match wanted {
        Wanted::Both => by_first && by_second,
        Wanted::FirstOnly => by_first && !by_second,
        Wanted::OneOnly => by_first != by_second,
    }
}

/// Returns whether the letter may come next.
fn is_allowed(texts: Texts, begun: bool, letter: char) -> bool
    ensures { IsTrue result ↔ IsAllowed texts begun letter }
{
    match texts {
        Texts::All => true,
        Texts::Paths => begun || letter != '/',
    }
}

/// Returns whether a text that goes on with the letter may end then.
fn begun_after(texts: Texts, begun: bool, letter: char) -> bool
    ensures { result ≡ begun_after texts begun letter }
{
    match texts {
        Texts::All => begun,
        Texts::Paths => letter != '/',
    }
}
