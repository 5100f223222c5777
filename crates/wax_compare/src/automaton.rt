//! The states of a program that texts lead to.
ghost use Rattle.std.specs.Prelude.{◌≡◌, ◌+◌, ◌*◌, ◌<◌, ◌≤◌, ◌↔◌, ◌⊎◌, [], Contains, IfOk, IsTrue, length};
ghost use Rattle.std.specs.{Prelude.{slice_index, slice_set}, Char.IsScalar};
ghost use Rattle.std.specs.List.Sorted.{IsStrictlyIncreasing};
ghost use Rattle.wax_program.specs.Threads.{AnyAmong};
ghost use Rattle.wax_states.specs.Indexed.{HasNone};
ghost use Rattle.wax_compare.specs.inner.Automata.{BeginsAsProgram, HasLearned, IsAutomatonOf, LeadsToState};
ghost use Rattle.wax_compare.specs.inner.Automata.{StatesStay, all_places, state_marks, state_places};
ghost use Rattle.wax_compare.specs.{inner.Distinctions.IsUnmarked, Limit.IsReachedState};
ghost use Rattle.wax_compare.specs.Selected.{CanSelect, HasOddLast, IsSelected};

use crate::distinctions::Distinctions;
use crate::wanted::Criterion;
use std::alloc::{AllocError, Global};
use wax_program::{CompiledProgram, Meter};
use wax_states::{HasPlaces, Index, Stepper};

/// The number of states for which there is room in the index from the beginning.
const FEW_STATES: usize = 256;

/// A state: places of the program that a text leads to.
#[derive(Drop)]
pub struct ProgramState {
    /// The places, ascending.
    pub places: Vec<usize>,
    /// True if a text that ends here is selected.
    pub is_selected: bool,
    /// Which letters are marked. All others lead to the same.
    pub marked: Vec<bool>,
    /// For each letter, the number of the next state plus 1, or 0 if it isn't known.
    pub next: Vec<u32>,
}

impl HasPlaces for ProgramState {
    ghost places_of = { λ s. s.places.items };

    fn places(&self) -> &[usize] {
        &self.places
    }
}

/// The states of a program, and where letters lead from them.
#[derive(Drop)]
pub struct Automaton {
    pub alloc: Global,
    /// Which texts the program selects.
    pub criterion: Criterion,
    pub stepper: Stepper,
    pub distinctions: Distinctions,
    pub states: Vec<ProgramState>,
    /// Finds the states by their places.
    pub index: Index,
    /// The places that the last step reached.
    pub reached: Vec<usize>,
    /// The numbers with which the program accepts a text that leads to the last state.
    pub numbers: Vec<usize>,
    /// The number of bytes that the states' places and rows take.
    pub bytes: usize,
    pub meter: Meter,
}

impl Automaton {
    /// Creates an automaton with one state, that of the program's beginning.
    pub fn new(
        alloc: Global,
        program: &CompiledProgram,
        criterion: Criterion,
        letters: &[char],
    ) -> Result<Automaton, AllocError>
        requires { CanSelect criterion program.now.0 }
        ensures automaton { IfOk result (IsAutomatonOf program.now.0 letters.now) }
        ensures begins { IfOk result (λ r. BeginsAsProgram program.now.0 r.states.items) }
        ensures criterion { IfOk result (λ r. r.criterion ≡ criterion) }
    {
        let stepper = Stepper::new(alloc, program)?;
        let distinctions = Distinctions::new(alloc, program, letters)?;
        let index = Index::new(alloc, FEW_STATES)?;
        let mut automaton = Automaton {
            alloc,
            criterion,
            stepper,
            distinctions,
            states: Vec::new(alloc),
            index,
            reached: vec![in alloc; 0usize]?,
            numbers: Vec::new(alloc),
            bytes: 0,
            meter: Meter::new(),
        };
        automaton.intern(program, letters)?;
        Ok(automaton)
    }

    /// Returns the number of the state to which the letter with a number leads.
    pub fn follow(
        &mut self,
        program: &CompiledProgram,
        letters: &[char],
        state: usize,
        number: usize,
    ) -> Result<usize, AllocError>
        requires automaton { IsAutomatonOf program.now.0 letters.now self.old }
        requires state { state < length self.old.states.items }
        requires number { number < length letters.now }
        ensures automaton { IfOk result (λ _. IsAutomatonOf program.now.0 letters.now self.new) }
        ensures kept { IfOk result (λ _. StatesStay self.old.states.items self.new.states.items) }
        ensures criterion { IfOk result (λ _. self.new.criterion ≡ self.old.criterion) }
        ensures step { IfOk result (LeadsToState program.now.0 self.new.states.items
            (state_places self.old.states.items state) (slice_index letters.now number)) }
    {
        let known = self.states[state].next[number];
        if known != 0 {
            return Ok(known as usize - 1);
        }
        let letter = letter_at(letters, number);
        self.stepper.reach(
            program,
            &self.states[state].places,
            letter,
            &mut self.reached,
            &mut self.meter,
        )?;
        let next = self.intern(program, letters)?;
        learn(&mut self.states, state, number, next);
        Ok(next)
    }

    /// Finds or adds the state with the places that were reached.
    fn intern(&mut self, program: &CompiledProgram, letters: &[char]) -> Result<usize, AllocError>
        requires automaton { IsAutomatonOf program.now.0 letters.now self.old }
        requires state { IsReachedState program.now.0 self.old.reached.items }
        ensures automaton { IfOk result (λ _. IsAutomatonOf program.now.0 letters.now self.new) }
        ensures kept { IfOk result (λ _. StatesStay self.old.states.items self.new.states.items) }
        ensures criterion { IfOk result (λ _. self.new.criterion ≡ self.old.criterion) }
        ensures zeroth { IfOk result (λ n. length self.old.states.items ≡ 0 → n ≡ 0) }
        ensures within { IfOk result (λ n. n < length self.new.states.items) }
        ensures places { IfOk result (λ n.
            state_places self.new.states.items n ≡ self.old.reached.items) }
    {
        match self.index.find(&self.states, &self.reached) {
            Some(number) => Ok(number),
            None => self.add(program, letters),
        }
    }

    /// Returns whether no text is selected from a state on, since it has no places.
    pub fn is_dead(&self, state: usize) -> bool
        requires { state < length self.now.states.items }
        ensures { IsTrue result ↔ (state_places self.now.states.items state ≡ []) }
    {
        self.states[state].places.is_empty()
    }

    /// Returns whether a text that ends in the state is selected. The program and the letters are
    /// there for the contract only.
    pub fn selects(&self, _program: &CompiledProgram, _letters: &[char], state: usize) -> bool
        requires automaton { IsAutomatonOf _program.now.0 _letters.now self.now }
        requires state { state < length self.now.states.items }
        ensures { IsTrue result ↔ IsSelected self.now.criterion
            (AnyAmong _program.now.0 (state_places self.now.states.items state)) [] }
    {
        self.states[state].is_selected
    }

    /// Returns whether a state doesn't mark a letter.
    pub fn is_unmarked(&self, state: usize, number: usize) -> bool
        requires { state < length self.now.states.items }
        ensures { IsTrue result → IsUnmarked (state_marks self.now.states.items state) number }
    {
        let marked = &self.states[state].marked;
        number < marked.len() && !marked[number]
    }

    /// Adds a state with the places that were reached, and returns its number.
    fn add(&mut self, program: &CompiledProgram, letters: &[char]) -> Result<usize, AllocError>
        requires automaton { IsAutomatonOf program.now.0 letters.now self.old }
        requires state { IsReachedState program.now.0 self.old.reached.items }
        requires absent { HasNone (all_places self.old.states.items) self.old.reached.items }
        ensures automaton { IfOk result (λ _. IsAutomatonOf program.now.0 letters.now self.new) }
        ensures kept { IfOk result (λ _. StatesStay self.old.states.items self.new.states.items) }
        ensures criterion { IfOk result (λ _. self.new.criterion ≡ self.old.criterion) }
        ensures number { IfOk result (λ n. n ≡ length self.old.states.items) }
        ensures within { IfOk result (λ n. n < length self.new.states.items) }
        ensures places { IfOk result (λ n.
            state_places self.new.states.items n ≡ self.old.reached.items) }
    {
        let number = self.states.len();
        let is_selected = selects(
            program,
            self.criterion,
            &self.reached,
            &mut self.stepper,
            &mut self.numbers,
            &mut self.meter,
        )?;
        let marked = self
            .distinctions
            .mark(self.alloc, program, letters, &self.reached)?;
        let next = vec![in self.alloc; 0u32; letters.len()]?;
        self.bytes = self
            .bytes
            .saturating_add(bytes_of(self.reached.len(), letters.len()));
        let places = Vec::from_slice(self.alloc, &self.reached)?;
        let state = ProgramState {
            places,
            is_selected,
            marked,
            next,
        };
        self.index.enter(&self.states, &state)?;
        self.states.push(state)?;
        Ok(number)
    }
}

/// Returns the letter with a number.
fn letter_at(letters: &[char], number: usize) -> char
    requires { number < length letters.now }
    ensures letter { result ≡ slice_index letters.now number }
    ensures scalar { IsScalar result }
{
    letters[number]
}

/// Notes where a letter leads from a state.
fn learn(states: &mut Vec<ProgramState>, state: usize, number: usize, next: usize)
    requires { state < length states.old.items }
    ensures { HasLearned states.old.items states.new.items state number next }
{
    fill_row(&mut states[state].next, number, next);
}

/// Returns whether a text that leads to the places and ends there is selected. Writes into `numbers`.
fn selects(
    program: &CompiledProgram,
    criterion: Criterion,
    places: &[usize],
    stepper: &mut Stepper,
    numbers: &mut Vec<usize>,
    meter: &mut Meter,
) -> Result<bool, AllocError>
    requires size { stepper.old ≡ length program.now.0 }
    requires can_select { CanSelect criterion program.now.0 }
    ensures same { stepper.new ≡ stepper.old }
    ensures selected { IfOk result
        (λ b. IsTrue b ↔ IsSelected criterion (AnyAmong program.now.0 places.now) []) }
{
    match criterion {
        Criterion::Accepted => Ok(stepper.accepts(program, places, meter)),
        Criterion::OddLast => {
            stepper.list_ends(program, places, numbers, meter)?;
            Ok(ends_odd(numbers))
        }
    }
}

/// Returns whether the last number is odd, if there is one.
fn ends_odd(numbers: &[usize]) -> bool
    requires { IsStrictlyIncreasing numbers.now }
    ensures { IsTrue result ↔ HasOddLast (Contains numbers.now) }
{
    match numbers.last() {
        Some(number) => *number % 2 == 1,
        None => false,
    }
}

fn fill_row(row: &mut Vec<u32>, number: usize, next: usize)
    ensures { (row.new.items ≡ row.old.items) ⊎ (row.new.items ≡ slice_set row.old.items number (next + 1)) }
{
    if number < row.len() && next < u32::MAX as usize {
        row[number] = next as u32 + 1;
    }
}

/// Returns how many bytes a state with so many places and a row of so many letters takes.
fn bytes_of(places: usize, letters: usize) -> usize
    ensures { result ≤ 8 * places + 5 * letters }
{
    places
        .saturating_mul(8)
        .saturating_add(letters.saturating_mul(5))
}
