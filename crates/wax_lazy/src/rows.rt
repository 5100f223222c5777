//! Rows of cells, which lead on by the bytes of a text, so that no character is decoded.
ghost use Rattle.std.specs.Char.{encode_utf8};
ghost use Rattle.std.specs.Prelude.{◌≡◌, ◌+◌, ◌-◌, ◌*◌, ◌/◌, ◌<◌, ◌≤◌, ◌⊎◌, ◌↔◌, ◌∷◌, ◌++◌, ℕ, [], IfOk};
ghost use Rattle.std.specs.Prelude.{IfSome, IsTrue, OnErr, Some, length, replicate, take};
ghost use Rattle.wax_lazy.specs.inner.Rows.{AreRows, HasRow, IsCellTo, IsRowCell, begun_bytes};
ghost use Rattle.wax_states.specs.States.{HasState, LeadsNext, places_at};

use std::alloc::{AllocError, Global};
use wax_program::CompiledProgram;
use wax_states::{ALL, DEAD, Next, StateId, Table};

/// The number of cells of a row: one for each byte. A cell has the number of the next row plus
/// [`FIRST_ROW`], or says that the rest of the text doesn't matter.
pub const ROW: usize = 256;

/// The cell that names the first row.
pub const FIRST_ROW: usize = 3;

/// A cell that is still empty.
const UNKNOWN: u16 = 0;

/// The size of a row in bytes, about.
const ROW_BYTES: usize = 540;

/// How many times a state is met before it gets a row. Most states are met only a few times.
const LEAST_VISITS: u16 = 16;

/// The greatest number of rows that a cell can name.
const MOST_ROWS: usize = 65_000;

/// The bytes of a character that were read, if it has more.
#[derive(Clone, Copy)]
pub enum PartialChar {
    Zero,
    One(u8),
    Two(u8, u8),
    Three(u8, u8, u8),
}

impl PartialChar {
    /// Returns the first bytes of a character, of which it has more than `count`.
    fn of(bytes: &[u8], count: usize) -> PartialChar
        requires few { count < 4 }
        requires within { count < length bytes.now }
        ensures { begun_bytes result ≡ take count bytes.now }
    {
        if count == 0 {
            return PartialChar::Zero;
        }
        if count == 1 {
            return PartialChar::One(bytes[0]);
        }
        if count == 2 {
            return PartialChar::Two(bytes[0], bytes[1]);
        }
        PartialChar::Three(bytes[0], bytes[1], bytes[2])
    }

    /// Returns how many bytes were read.
    pub fn len(self) -> usize
        ensures { result ≡ length (begun_bytes self) }
    {
        match self {
            PartialChar::Zero => 0,
            PartialChar::One(_) => 1,
            PartialChar::Two(_, _) => 2,
            PartialChar::Three(_, _, _) => 3,
        }
    }

    /// Returns whether no byte was read.
    fn is_zero(self) -> bool
        ensures { IsTrue result ↔ begun_bytes self ≡ [] }
    {
        match self {
            PartialChar::Zero => true,
            _ => false,
        }
    }
}

/// What a row is for: a state, and the bytes that were read after it.
#[derive(Clone, Copy)]
pub struct RowKey {
    pub state: StateId,
    pub begun: PartialChar,
}

/// Rows of states that were met often, and of the characters that begin there.
#[derive(Drop)]
pub struct Rows {
    pub keys: Vec<RowKey>,
    /// The cells of each row, one row after another.
    pub cells: Vec<u16>,
    /// For each state how many times it was met, up to [`LEAST_VISITS`]. If it has a row, the number
    /// of the row is added.
    visits: Vec<u16>,
}

impl Rows {
    /// Creates no rows. Doesn't allocate.
    pub fn new(alloc: Global) -> Rows
        ensures keys { result.keys.items ≡ [] }
        ensures cells { result.cells.items ≡ [] }
    {
        Rows {
            keys: Vec::new(alloc),
            cells: Vec::new(alloc),
            visits: Vec::new(alloc),
        }
    }

    /// Removes all rows.
    pub fn clear(&mut self)
        ensures keys { self.new.keys.items ≡ [] }
        ensures cells { self.new.cells.items ≡ [] }
    {
        self.keys.clear();
        self.cells.clear();
        self.visits.clear();
    }

    /// Returns how many bytes the rows take, about.
    pub fn size(&self) -> usize {
        self.keys.len().saturating_mul(ROW_BYTES)
    }

    /// Returns the row of a state, if it has one.
    #[inline]
    pub fn find(&self, state: StateId) -> Option<usize>
        ensures { IfSome result (λ r. HasRow self.now.keys.items r state []) }
    {
        let row = match self.visits.get(state) {
            Some(visits) => usize::from(*visits).wrapping_sub(usize::from(LEAST_VISITS)),
            None => return None,
        };
        match self.keys.get(row) {
            Some(key) if key.state == state && key.begun.is_zero() => Some(row),
            _ => None,
        }
    }

    /// Fills the cells along the bytes of a character that leads from one state to the next, if both
    /// were met often. Allocates at most five rows.
    pub(crate) fn record(
        &mut self,
        program: &CompiledProgram,
        table: &Table,
        state: StateId,
        c: char,
        next: Next,
    ) -> Result<(), AllocError>
        requires has_state { HasState table.now.states.items state }
        requires rows { let states = table.now.states.items in
            AreRows program.now.0 states self.old.keys.items self.old.cells.items }
        requires leads { let places = places_at table.now.states.items state in
            LeadsNext program.now.0 table.now.states.items places c next }
        ensures { let states = table.now.states.items in
            AreRows program.now.0 states self.new.keys.items self.new.cells.items }
    {
        let Some(row) = self.row_of(program, table, state)? else {
            return Ok(());
        };
        if self.cell_to(next) == UNKNOWN {
            return Ok(());
        }
        let mut room = [0u8; 4];
        let bytes = c.encode_utf8(&mut room).as_bytes();
        let end = bytes.len() - 1;
        let row = self.link_all(program, table, state, row, bytes)?;
        let cell = self.cell_to(next);
        self.cells[row * ROW + usize::from(bytes[end])] = cell;
        Ok(())
    }

    /// Returns the cell that leads to the row of the next state, or an empty one if it has no row.
    fn cell_to(&self, next: Next) -> u16
        ensures { IsCellTo self.now.keys.items next result }
    {
        match next {
            Next::Nothing => DEAD,
            Next::Everything => ALL,
            Next::To(state) => match self.find(state) {
                Some(row) => cell_of_row(row),
                None => UNKNOWN,
            },
        }
    }

    /// Counts that the state is met. Returns whether it was met often, or its visits aren't counted
    /// yet.
    #[inline]
    pub fn is_often_met(&mut self, state: StateId) -> bool
        ensures keys { self.new.keys ≡ self.old.keys }
        ensures cells { self.new.cells ≡ self.old.cells }
    {
        if state >= self.visits.len() || self.visits[state] >= LEAST_VISITS {
            return true;
        }
        self.visits[state] += 1;
        false
    }

    /// Returns the row of a state. Creates it if the state was met often, and begins to count visits
    /// if it is new.
    fn row_of(
        &mut self,
        _program: &CompiledProgram,
        _table: &Table,
        state: StateId,
    ) -> Result<Option<usize>, AllocError>
        requires has_state { HasState _table.now.states.items state }
        requires rows { let states = _table.now.states.items in
            AreRows _program.now.0 states self.old.keys.items self.old.cells.items }
        ensures rows { let states = _table.now.states.items in
            AreRows _program.now.0 states self.new.keys.items self.new.cells.items }
        ensures found { IfOk result (λ found. IfSome found (λ r. HasRow self.new.keys.items r state [])) }
    {
        if let Some(row) = self.find(state) {
            return Ok(Some(row));
        }
        if !self.is_counted(state)? {
            return Ok(None);
        }
        let row = self.push(RowKey {
            state,
            begun: PartialChar::Zero,
        })?;
        self.name(state, row);
        Ok(Some(row))
    }

    /// Returns whether a state was met often. Begins to count its visits if it is new.
    fn is_counted(&mut self, state: StateId) -> Result<bool, AllocError>
        ensures keys { self.new.keys ≡ self.old.keys }
        ensures cells { self.new.cells ≡ self.old.cells }
    {
        if state < self.visits.len() {
            return Ok(self.visits[state] >= LEAST_VISITS);
        }
        self.visits.resize(state.saturating_add(1), 1)?;
        Ok(false)
    }

    /// Remembers the row of a state.
    fn name(&mut self, state: StateId, row: usize)
        ensures keys { self.new.keys ≡ self.old.keys }
        ensures cells { self.new.cells ≡ self.old.cells }
    {
        if state < self.visits.len() && row < MOST_ROWS {
            self.visits[state] = row as u16 + LEAST_VISITS;
        }
    }

    /// Returns the row of all bytes of a character but the last, and creates rows on the way there.
    fn link_all(
        &mut self,
        program: &CompiledProgram,
        table: &Table,
        state: StateId,
        row: usize,
        bytes: &[u8],
    ) -> Result<usize, AllocError>
        requires has_state { HasState table.now.states.items state }
        requires rows { let states = table.now.states.items in
            AreRows program.now.0 states self.old.keys.items self.old.cells.items }
        requires row { HasRow self.old.keys.items row state [] }
        requires some { 1 ≤ length bytes.now }
        requires few { length bytes.now ≤ 4 }
        ensures rows { let states = table.now.states.items in
            AreRows program.now.0 states self.new.keys.items self.new.cells.items }
        ensures row { let bytes = take (length bytes.now - 1) bytes.now in
            IfOk result (λ r. HasRow self.new.keys.items r state bytes) }
    {
        let mut row = row;
        let mut count = 0;
        while count + 1 < bytes.len() {
            row = self.link(program, table, state, row, bytes, count)?;
            count += 1;
        }
        Ok(row)
    }

    /// Returns the row to which the byte leads that follows `count` bytes of a character, which has
    /// more. Creates it if there is none.
    fn link(
        &mut self,
        _program: &CompiledProgram,
        _table: &Table,
        state: StateId,
        row: usize,
        bytes: &[u8],
        count: usize,
    ) -> Result<usize, AllocError>
        requires has_state { HasState _table.now.states.items state }
        requires rows { let states = _table.now.states.items in
            AreRows _program.now.0 states self.old.keys.items self.old.cells.items }
        requires row { HasRow self.old.keys.items row state (take count bytes.now) }
        requires few { count < 3 }
        requires more { count + 1 < length bytes.now }
        ensures rows { let states = _table.now.states.items in
            AreRows _program.now.0 states self.new.keys.items self.new.cells.items }
        ensures row { IfOk result (λ r. HasRow self.new.keys.items r state (take (count + 1) bytes.now)) }
    {
        let index = row * ROW + usize::from(bytes[count]);
        let found = usize::from(self.cells[index]);
        if found >= FIRST_ROW && self.is_within(found - FIRST_ROW) {
            return Ok(found - FIRST_ROW);
        }
        let made = self.push(RowKey {
            state,
            begun: PartialChar::of(bytes, count + 1),
        })?;
        self.cells[index] = cell_of_row(made);
        Ok(made)
    }

    /// Returns whether the row is within a character.
    fn is_within(&self, row: usize) -> bool
        ensures { (state : ℕ) → IsTrue result → HasRow self.now.keys.items row state [] → ⊥ }
    {
        match self.keys.get(row) {
            Some(key) => !key.begun.is_zero(),
            None => false,
        }
    }

    /// Adds a row with empty cells, and returns its number. If allocation fails, removes all rows.
    fn push(&mut self, key: RowKey) -> Result<usize, AllocError>
        ensures number { IfOk result (λ r. r ≡ length self.old.keys.items) }
        ensures keys { IfOk result (λ _. self.new.keys.items ≡ self.old.keys.items ++ key ∷ []) }
        ensures cells { IfOk result (λ _. self.new.cells.items ≡ self.old.cells.items ++ replicate 256 0) }
        ensures no_keys { OnErr result (self.new.keys.items ≡ []) }
        ensures no_cells { OnErr result (self.new.cells.items ≡ []) }
    {
        let number = self.keys.len();
        let added = self.keys.push(key);
        match (added, self.cells.extend_from_slice(&[UNKNOWN; ROW])) {
            (Ok(()), Ok(())) => Ok(number),
            _ => {
                self.clear();
                Err(AllocError)
            }
        }
    }
}

/// Returns the cell that leads to a row, or an empty one if no cell can name the row.
fn cell_of_row(row: usize) -> u16
    ensures { (result ≡ 0) ⊎ (result ≡ row + 3) }
{
    if row < MOST_ROWS {
        return (row + FIRST_ROW) as u16;
    }
    UNKNOWN
}
