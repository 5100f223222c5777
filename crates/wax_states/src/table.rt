//! The table of states, with the next state for each ASCII character.
ghost use Rattle.std.specs.Prelude.{◌≡◌, ◌+◌, ◌*◌, ◌/◌, ◌<◌, ◌≤◌, ◌++◌, ◌∷◌, ◌⊎◌, ℕ, [], List, IfOk, IfSome};
ghost use Rattle.std.specs.Prelude.{IsTrue, Some, length, replicate, slice_get, slice_index, slice_set};
ghost use Rattle.wax_states.specs.declared.table.State.{State};
ghost use Rattle.wax_states.specs.States.{AreEmpty, HasWide, IsSettled, IsTransition, IsWrittenWide};
ghost use Rattle.wax_states.specs.States.{LeadsNext, cell_of_next, places_at, places_or_none, state_of};
ghost use Rattle.wax_program.specs.declared.instruction.Instruction.{Instruction};

use crate::index::{HasPlaces, Index};
use std::alloc::{AllocError, Global};

/// The number of cells of a state: one for each ASCII character.
const COLUMNS: usize = 128;

/// A cell that is still empty.
const UNKNOWN: u16 = 0;

/// The cell of a character after which no text is accepted.
pub const DEAD: u16 = 1;

/// The cell of a character after which every text is accepted. Each greater cell is the number of
/// the next state, plus [`FIRST`].
pub const ALL: u16 = 2;

/// The cell of a character that leads to the first state.
pub const FIRST: u16 = 3;

/// The number of cells for characters past ASCII, for all states together.
const WIDE_CELLS: usize = 16_384;

/// The number of a state.
pub type StateId = usize;

/// Where a character leads from a state.
#[derive(Clone, Copy)]
pub enum Next {
    /// To this state.
    To(StateId),
    /// To none: no text that goes on with the character is accepted.
    Nothing,
    /// To none, since every text that goes on with the character is accepted.
    Everything,
}

impl Next {
    /// Returns the next state, if there is one.
    pub fn state(self) -> Option<StateId>
        ensures { result ≡ state_of self }
    {
        match self {
            Next::To(state) => Some(state),
            _ => None,
        }
    }
}

/// Returns what a cell says, unless it is empty.
#[inline(always)]
pub fn next_of(cell: u16) -> Option<Next>
    ensures { (code : List Instruction) → (states : List State) → (places : List ℕ) → (c : ℕ)
        → IsTransition code states places c cell → IfSome result (LeadsNext code states places c) }
{
    if cell >= FIRST {
        return Some(Next::To(usize::from(cell - FIRST)));
    }
    if cell == ALL {
        return Some(Next::Everything);
    }
    if cell == DEAD {
        return Some(Next::Nothing);
    }
    None
}

/// Returns the cell of a character that leads there.
pub fn cell_of(next: Next) -> u16
    requires { IfSome (state_of next) (λ state. state < 65533) }
    ensures { result ≡ cell_of_next next }
{
    match next {
        Next::To(state) => state as u16 + FIRST,
        Next::Nothing => DEAD,
        Next::Everything => ALL,
    }
}

/// The cell of a character past ASCII in a state.
#[derive(Clone, Copy)]
pub struct WideCell {
    pub state: StateId,
    pub character: char,
    pub cell: u16,
}

impl WideCell {
    /// A cell that is still empty.
    const EMPTY: WideCell = WideCell {
        state: 0,
        character: '\0',
        cell: UNKNOWN,
    };
}

/// A state: places that were reached.
#[derive(Drop)]
pub struct State {
    /// The places, ascending.
    pub places: Vec<usize>,
    /// Those that aren't places of `failure`, or more of them. Empty if there is no such state.
    pub own: Vec<usize>,
    /// A state with some of the places, if one is known: where its own places don't lead on, a state
    /// goes on as this one does.
    pub failure: Option<StateId>,
    /// True if a text that ends here is accepted, and `None` if no text has ended here.
    pub accepts: Option<bool>,
    /// The numbers of the patterns that match a text that ends here, ascending, and `None` if nobody
    /// has asked for them.
    pub numbers: Option<Vec<usize>>,
}

impl HasPlaces for State {
    ghost places_of = { λ s. s.places.items };

    fn places(&self) -> &[usize] {
        &self.places
    }
}

/// All states by their numbers, with their cells.
#[derive(Drop)]
pub struct Table {
    pub states: Vec<State>,
    /// The cells of each state, one state after another.
    pub cells: Vec<u16>,
    /// Cells of characters past ASCII, each where the hash of its state and its character says. A
    /// later one replaces an earlier one. There are none before the first such character.
    pub wide_cells: Vec<WideCell>,
    index: Index,
}

impl Table {
    /// Creates a table without states, whose index has room for `most` states before it grows.
    /// Allocates 8 to 32 bytes for each of them.
    pub fn new(alloc: Global, most: usize) -> Result<Table, AllocError>
        ensures states { IfOk result (λ t. t.states.items ≡ []) }
        ensures cells { IfOk result (λ t. t.cells.items ≡ []) }
        ensures wide { IfOk result (λ t. t.wide_cells.items ≡ []) }
    {
        let index = Index::new(alloc, most)?;
        Ok(Table {
            states: Vec::new(alloc),
            cells: Vec::new(alloc),
            wide_cells: Vec::new(alloc),
            index,
        })
    }

    /// Returns the places of a state.
    #[inline]
    pub fn places(&self, state: StateId) -> &[usize]
        requires { state < length self.now.states.items }
        ensures { places_at self.now.states.items state ≡ result.now }
    {
        &self.states[state].places
    }

    /// Returns the places of a state, if there is one.
    pub fn places_or_none(&self, state: Option<StateId>) -> &[usize]
        requires { IfSome state (λ state. state < length self.now.states.items) }
        ensures { places_or_none self.now.states.items state ≡ result.now }
    {
        match state {
            Some(state) => self.places(state),
            None => &[],
        }
    }

    /// Returns what is kept of a state.
    #[inline]
    pub fn state(&self, state: StateId) -> &State
        requires { state < length self.now.states.items }
        ensures { slice_get self.now.states.items state ≡ Some result.now }
    {
        &self.states[state]
    }

    /// Remembers whether a text that ends in the state is accepted.
    pub fn settle(&mut self, state: StateId, accepts: bool)
        requires { state < length self.old.states.items }
        ensures states { IsSettled self.old.states.items self.new.states.items state
            (λ _. Some accepts) (λ s. s.numbers) }
        ensures cells { self.new.cells ≡ self.old.cells }
        ensures wide { self.new.wide_cells ≡ self.old.wide_cells }
    {
        self.states[state].accepts = Some(accepts);
    }

    /// Remembers the numbers of the patterns that match a text that ends in the state.
    pub fn settle_numbers(&mut self, state: StateId, numbers: Vec<usize>)
        requires { state < length self.old.states.items }
        ensures states { IsSettled self.old.states.items self.new.states.items state
            (λ s. s.accepts) (λ _. Some numbers) }
        ensures cells { self.new.cells ≡ self.old.cells }
        ensures wide { self.new.wide_cells ≡ self.old.wide_cells }
    {
        self.states[state].numbers = Some(numbers);
    }

    /// Finds a state by its places.
    pub fn find(&self, places: &[usize]) -> Option<StateId>
        ensures { IfSome result (λ t. (t < length self.now.states.items)
            × (places_at self.now.states.items t ≡ places.now)) }
    {
        self.index.find(&self.states, places)
    }

    /// Adds a state with empty cells.
    ///
    /// # Errors
    ///
    /// Returns `AllocError` if allocation fails. The table then has to be cleared.
    pub fn push(&mut self, state: State) -> Result<StateId, AllocError>
        requires few { length self.old.states.items < 65533 }
        requires room { length self.old.cells.items ≡ 128 * length self.old.states.items }
        ensures number { IfOk result (λ t. t ≡ length self.old.states.items) }
        ensures states { IfOk result (λ _. self.new.states.items ≡ self.old.states.items ++ state ∷ []) }
        ensures cells { IfOk result (λ _. self.new.cells.items ≡ self.old.cells.items ++ replicate 128 0) }
        ensures wide { self.new.wide_cells ≡ self.old.wide_cells }
    {
        let number = self.states.len();
        self.cells.extend_from_slice(&[UNKNOWN; COLUMNS])?;
        self.index.enter(&self.states, &state)?;
        self.states.push(state)?;
        Ok(number)
    }

    /// Makes room for the cells of characters past ASCII, unless there is some. Allocates 256 KiB.
    pub fn prepare_wide(&mut self, alloc: Global) -> Result<(), AllocError>
        ensures states { self.new.states ≡ self.old.states }
        ensures cells { self.new.cells ≡ self.old.cells }
        ensures wide { (self.new.wide_cells ≡ self.old.wide_cells) ⊎ AreEmpty self.new.wide_cells.items }
    {
        if self.wide_cells.is_empty() {
            self.wide_cells = vec![in alloc; WideCell::EMPTY; WIDE_CELLS]?;
        }
        Ok(())
    }

    /// Returns the cell of an ASCII character, passed as its byte, in a state.
    #[inline(always)]
    pub fn ascii_cell(&self, state: StateId, c: u8) -> u16
        requires { 128 * state + c < length self.now.cells.items }
        ensures { result ≡ slice_index self.now.cells.items (128 * state + c) }
    {
        self.cells[state * COLUMNS + usize::from(c)]
    }

    /// Returns the cell of a character past ASCII in a state, or an empty one if another has replaced
    /// it.
    #[inline]
    pub fn wide_cell(&self, state: StateId, c: char) -> u16
        ensures { (result ≡ 0) ⊎ HasWide self.now.wide_cells.items state c result }
    {
        match self.wide_cells.get(wide_slot(state, c)) {
            Some(wide) if wide.state == state && wide.character == c => wide.cell,
            _ => UNKNOWN,
        }
    }

    /// Fills the cell of a character in a state. Does nothing if the character is past ASCII and there
    /// is no room for such cells.
    #[inline]
    pub fn write(&mut self, state: StateId, c: char, cell: u16)
        requires { c < 128 → 128 * state + c < length self.old.cells.items }
        ensures states { self.new.states ≡ self.old.states }
        ensures filled { c < 128
            → self.new.cells.items ≡ slice_set self.old.cells.items (128 * state + c) cell }
        ensures unfilled { 128 ≤ c → self.new.cells.items ≡ self.old.cells.items }
        ensures wide { IsWrittenWide self.old.wide_cells.items self.new.wide_cells.items state c cell }
    {
        if c.is_ascii() {
            self.cells[state * COLUMNS + c as usize] = cell;
            return;
        }
        self.write_wide(WideCell {
            state,
            character: c,
            cell,
        });
    }

    /// Writes the cell of a character past ASCII, if there is room for such cells.
    fn write_wide(&mut self, wide: WideCell)
        ensures states { self.new.states ≡ self.old.states }
        ensures cells { self.new.cells ≡ self.old.cells }
        ensures wide { IsWrittenWide self.old.wide_cells.items self.new.wide_cells.items
            wide.state wide.character wide.cell }
    {
        let slot = wide_slot(wide.state, wide.character);
        if slot < self.wide_cells.len() {
            self.wide_cells[slot] = wide;
        }
    }

    /// Removes a state and returns it. The table then has to be cleared.
    pub fn take(&mut self, state: StateId) -> State
        requires { state < length self.old.states.items }
        ensures { slice_get self.old.states.items state ≡ Some result }
    {
        self.states.swap_remove(state)
    }

    /// Removes all states.
    pub fn clear(&mut self)
        ensures states { self.new.states.items ≡ [] }
        ensures cells { self.new.cells.items ≡ [] }
        ensures wide { AreEmpty self.new.wide_cells.items }
    {
        self.states.clear();
        self.cells.clear();
        self.wide_cells.fill(WideCell::EMPTY);
        self.index.clear();
    }
}

/// Returns where the cell of a character past ASCII is among the cells of such characters.
#[inline]
fn wide_slot(state: StateId, c: char) -> usize {
    let key = (state as u64).wrapping_mul(1 << 21) ^ u64::from(c);
    (key.wrapping_mul(0x9E37_79B9_7F4A_7C15) >> 50) as usize
}
