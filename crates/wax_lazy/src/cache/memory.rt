//! How many bytes states may take, and removing them.
ghost use Rattle.std.specs.Prelude.{◌≡◌, ◌*◌, ◌<◌, None, IfOk, IsFalse, OnErr, Some, length, slice_get};
ghost use Rattle.wax_lazy.specs.inner.Cached.{IsAdded, IsCleared, IsRestarted};
ghost use Rattle.wax_states.specs.declared.table.State.{State};

use crate::cache::Cache;
use std::alloc::{AllocError, Global};
use wax_states::{State, StateId};

/// The size of a state in bytes, without its places: that of its cells, and about fifty more.
const STATE_BYTES: usize = 306;

/// The size of a place in bytes.
const PLACE_BYTES: usize = 8;

/// The number of states that are kept however many bytes they take.
const LEAST_STATES: usize = 16;

/// The greatest number of states that are kept. A cell of 16 bits can name some more.
const MOST_STATES: usize = 60_000;

impl Cache {
    /// Returns whether rows may become more. They take at most half of the bytes that the cache may keep,
    /// or an eighth if the next one is for a character that shares its letter with others.
    pub(super) fn has_row_room(&self, is_letter: bool) -> bool {
        let parts = if is_letter { 2 } else { 8 };
        self.rows.size() < self.most_bytes / parts
    }

    /// Returns whether the greatest number of states is reached.
    #[inline]
    pub(super) fn is_full(&self) -> bool
        ensures { IsFalse result → length self.now.table.states.items < 60000 }
    {
        let states = self.table.states.len();
        let bytes = self.bytes.saturating_add(self.rows.size());
        states >= MOST_STATES || states >= LEAST_STATES && bytes >= self.most_bytes
    }

    /// Adds a state. If that fails, removes all states.
    pub(super) fn keep(&mut self, state: State) -> Result<StateId, AllocError>
        requires few { length self.old.table.states.items < 65533 }
        requires room { length self.old.table.cells.items ≡ 128 * length self.old.table.states.items }
        ensures ok { IfOk result (IsAdded self.old self.new state) }
        ensures err { OnErr result (IsCleared self.old self.new) }
    {
        self.bytes = self.bytes.saturating_add(bytes_of(&state));
        match self.table.push(state) {
            Ok(id) => Ok(id),
            Err(error) => {
                self.clear();
                Err(error)
            }
        }
    }

    /// Removes all states but one, which then is the first one.
    pub(super) fn restart(&mut self, state: StateId) -> Result<(), AllocError>
        requires { state < length self.old.table.states.items }
        ensures ok { (s : State) → slice_get self.old.table.states.items state ≡ Some s
            → IfOk result (λ _. IsRestarted self.old self.new s) }
        ensures err { OnErr result (IsCleared self.old self.new) }
    {
        let least = self.table.states.len().saturating_mul(self.least_read);
        self.gives_up = self.gives_up || self.read < least;
        self.read = 0;
        let left = whole(self.alloc, self.table.take(state));
        self.clear();
        self.keep(left)?;
        Ok(())
    }

    /// Removes all states.
    pub(super) fn clear(&mut self)
        ensures { IsCleared self.old self.new }
    {
        self.table.clear();
        self.rows.clear();
        self.bytes = 0;
        self.first = None;
    }
}

/// Returns the state without its failure state and its numbers.
fn whole(alloc: Global, state: State) -> State
    ensures places { result.places ≡ state.places }
    ensures failure { result.failure ≡ None }
    ensures accepts { result.accepts ≡ state.accepts }
    ensures numbers { result.numbers ≡ None }
{
    let State {
        places,
        own: _,
        failure: _,
        accepts,
        numbers: _,
    } = state;
    State {
        places,
        own: Vec::new(alloc),
        failure: None,
        accepts,
        numbers: None,
    }
}

/// Returns how many states fit in `bytes`, if they have no places.
pub(super) fn most_states(bytes: usize) -> usize {
    (bytes / STATE_BYTES).max(LEAST_STATES).min(MOST_STATES)
}

/// Returns how many bytes a state takes, about.
fn bytes_of(state: &State) -> usize {
    state
        .places
        .len()
        .saturating_mul(PLACE_BYTES)
        .saturating_add(STATE_BYTES)
}

/// Returns how many bytes a state of a program of `size` instructions has to serve: from 64 for a
/// small program to 2 for a large one. These are estimates. With 1,000 names, folders or inner texts
/// over paths of a file system, a state served 53 bytes and more.
pub(super) fn least_read(size: usize) -> usize {
    (4_096 / size.max(1)).max(2).min(64)
}
