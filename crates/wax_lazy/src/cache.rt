//! The cache of a program's states, which outlives a text.
ghost use Rattle.std.specs.Prelude.{◌≡◌, ◌+◌, ◌*◌, ◌<◌, ◌≤◌, List, IfOk, IfSome, length};
ghost use Rattle.wax_lazy.specs.{Cost.fill_visits, inner.Cached.{KeepsCache, KnowsState, IsCacheOf}};
ghost use Rattle.wax_lazy.specs.inner.Table.{BeginsTexts};
ghost use Rattle.wax_program.specs.declared.instruction.Instruction.{Instruction};
ghost use Rattle.wax_states.specs.States.{HasState, LeadsNext, places_at};

mod chains;
mod ends;
mod filling;
mod interning;
mod memory;
mod numbers;
mod wide;

use crate::cache::memory::{least_read, most_states};
use crate::rows::Rows;
use std::alloc::{AllocError, Global};
use wax_program::{CompiledProgram, Meter};
use wax_states::{Letters, Next, StateId, Stepper, Table, next_of};

/// The least number of instructions of a program whose states are followed in two parts. In smaller
/// ones, all instructions behind the loops are soon read.
const LEAST_PARTED: usize = 256;

/// How many states may be followed one after another to find where a character leads from one.
const MOST_PARTS: usize = 64;

/// The states that texts led to so far, and a stepper that finds the next ones.
#[derive(Drop)]
pub struct Cache {
    alloc: Global,
    stepper: Stepper,
    pub table: Table,
    /// Rows of the states that texts past ASCII led to often.
    pub rows: Rows,
    /// The letters of a large program. `None` before the first text past ASCII.
    letters: Option<Letters>,
    /// The places that the last step reached.
    reached: Vec<usize>,
    /// Those of these places that aren't due to a state that is known.
    others: Vec<usize>,
    /// Those of them that are loops.
    loops: Vec<usize>,
    /// The place at which texts begin.
    start: usize,
    /// The state in which texts begin, if there is one.
    first: Option<StateId>,
    /// How many bytes states may take, about.
    most_bytes: usize,
    /// How many bytes the states take, about.
    bytes: usize,
    /// How many bytes of texts a state has to serve, on average, to be worth the cost of building it.
    least_read: usize,
    /// How many bytes of texts were read since all states were last removed.
    read: usize,
    /// True if states were removed before they had served enough text.
    pub gives_up: bool,
}

impl Cache {
    /// Creates an empty cache for texts that begin at the place `start`. It keeps at most about
    /// `most_bytes` bytes.
    pub(crate) fn new(
        alloc: Global,
        program: &CompiledProgram,
        start: usize,
        most_bytes: usize,
    ) -> Result<Cache, AllocError>
        requires { start ≤ length program.now.0 }
        ensures cache { IfOk result (IsCacheOf program.now.0) }
        ensures start { IfOk result (λ c. c.start ≡ start) }
    {
        let stepper = Stepper::new(alloc, program)?;
        let table = Table::new(alloc, most_states(most_bytes))?;
        Ok(Cache {
            alloc,
            stepper,
            table,
            rows: Rows::new(alloc),
            letters: None,
            reached: Vec::new(alloc),
            others: Vec::new(alloc),
            loops: Vec::new(alloc),
            start,
            first: None,
            most_bytes,
            bytes: 0,
            least_read: least_read(program.size()),
            read: 0,
            gives_up: false,
        })
    }

    /// Begins a text of `len` bytes. Returns its first state.
    pub(crate) fn begin(
        &mut self,
        program: &CompiledProgram,
        len: usize,
    ) -> Result<StateId, AllocError>
        requires { IsCacheOf program.now.0 self.old }
        ensures kept { KeepsCache program.now.0 self.old self.new }
        ensures begins { IfOk result (BeginsTexts program.now.0 self.new.table.states.items self.old.start) }
    {
        self.read = self.read.saturating_add(len);
        if let Some(state) = self.first {
            return Ok(state);
        }
        self.clear();
        self.reached.clear();
        self.reached.push(self.start)?;
        let state = self.intern(program, None)?;
        self.first = Some(state);
        Ok(state)
    }

    /// Follows a character from a state, by its letter. If the state is met often, fills cells of rows for
    /// the character itself, as long as there is room for rows.
    #[inline(never)]
    pub(crate) fn advance(
        &mut self,
        program: &CompiledProgram,
        state: StateId,
        c: char,
        meter: &mut Meter,
    ) -> Result<Next, AllocError>
        requires here { KnowsState program.now.0 self.old state }
        ensures kept { KeepsCache program.now.0 self.old self.new }
        ensures leads { let places = places_at self.old.table.states.items state in
            IfOk result (LeadsNext program.now.0 self.new.table.states.items places c) }
        ensures above { meter.new ≤ meter.old + fill_visits program.now.0 }
        ensures steady { meter.old ≤ meter.new }
    {
        let letter = self.letter(program, c);
        if self.is_full() {
            return match self.cached_next(state, letter) {
                Some(next) => Ok(next),
                None => self.fill(program, state, letter, meter),
            };
        }
        let next = self.follow_cell(program, state, letter, meter)?;
        if self.rows.is_often_met(state) && self.has_row_room(letter == c) {
            self.rows.record(program, &self.table, state, c, next)?;
        }
        Ok(next)
    }

    /// Returns where a character leads, if its cell is filled.
    #[inline]
    fn cached_next(&self, state: StateId, c: char) -> Option<Next>
        requires has_state { HasState self.now.table.states.items state }
        requires room { length self.now.table.cells.items ≡ 128 * length self.now.table.states.items }
        ensures { (code : List Instruction) → IsCacheOf code self.now → IfSome result
            (LeadsNext code self.now.table.states.items
            (places_at self.now.table.states.items state) c) }
    {
        if c.is_ascii() {
            return self.cached_ascii_next(state, c as u8);
        }
        next_of(self.table.wide_cell(state, c))
    }

    /// Returns where an ASCII character leads, passed as its byte, if its cell is filled. Takes one
    /// load and one comparison if it leads to a state.
    #[inline(always)]
    pub fn cached_ascii_next(&self, state: StateId, c: u8) -> Option<Next>
        requires has_state { HasState self.now.table.states.items state }
        requires room { length self.now.table.cells.items ≡ 128 * length self.now.table.states.items }
        requires ascii { c < 128 }
        ensures { (code : List Instruction) → IsCacheOf code self.now → IfSome result
            (LeadsNext code self.now.table.states.items
            (places_at self.now.table.states.items state) c) }
    {
        next_of(self.table.ascii_cell(state, c))
    }
}
