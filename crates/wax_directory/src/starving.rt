//! A directory for which memory runs out once.

ghost use Rattle.std.specs.Prelude.{◌≡◌, Some, Err};
ghost use Rattle.wax_directory.specs.Calls.{KindCall, OpenCall, NextCall};
ghost use Rattle.wax_directory.specs.Turns.{starves_after, starving_inside, after_call};

use crate::directory::{Directory, DirectoryFault, FileType, ListItem};
use crate::tally::Tally;
use crate::turn::Turn;
use std::alloc::Global;
use wax_query::diagnostics::NoMemory;

/// A directory that forwards each call of `kind`, `open` and `next` but one, which returns that
/// memory ran out, without a call of the directory inside. It shows, counts and reports what the
/// directory inside does.
#[derive(Drop)]
pub struct Starving<D> {
    directory: D,
    turn: Turn,
}

impl<D: Directory> Starving<D> {
    /// Wraps a directory: the first `calls` calls are forwarded, the next one fails, and all later
    /// ones are forwarded.
    pub fn new(directory: D, calls: u64) -> Starving<D>
        ensures inside { starving_inside result ≡ directory }
        ensures left { starves_after result ≡ Some calls }
    {
        Starving {
            directory,
            turn: Turn {
                calls,
                is_over: false,
            },
        }
    }

    /// Returns the directory inside.
    pub fn into_inner(self) -> D
        ensures { result ≡ starving_inside self }
    {
        self.directory
    }
}

impl<D: Directory> Directory for Starving<D> {
    ghost use Rattle.wax_directory.specs.Starved.{starved_law};

    type Cursor = D::Cursor;

    ghost law = { starved_law D.law };

    fn kind(&mut self, alloc: Global, path: &str) -> Result<Option<FileType>, DirectoryFault>
        ensures starves { starves_after self.old ≡ Some 0
            → (result ≡ Err DirectoryFault.Memory) × (starving_inside self.new ≡ starving_inside self.old) }
        ensures left { starves_after self.new ≡ after_call (starves_after self.old) }
        ensures inside { KindCall (starved_law D.law) self.old path.now result self.new }
    {
        if self.turn.comes() {
            return Err(DirectoryFault::Memory);
        }
        self.directory.kind(alloc, path)
    }

    fn open(&mut self, alloc: Global, path: &str) -> Result<D::Cursor, DirectoryFault>
        ensures starves { starves_after self.old ≡ Some 0
            → (result ≡ Err DirectoryFault.Memory) × (starving_inside self.new ≡ starving_inside self.old) }
        ensures left { starves_after self.new ≡ after_call (starves_after self.old) }
        ensures inside { OpenCall (starved_law D.law) self.old path.now result self.new }
    {
        if self.turn.comes() {
            return Err(DirectoryFault::Memory);
        }
        self.directory.open(alloc, path)
    }

    fn next(&mut self, alloc: Global, cursor: &mut D::Cursor) -> Result<Option<ListItem>, NoMemory>
        ensures starves { starves_after self.old ≡ Some 0 → (result ≡ Err (record {}))
            × (starving_inside self.new ≡ starving_inside self.old) × (cursor.new ≡ cursor.old) }
        ensures left { starves_after self.new ≡ after_call (starves_after self.old) }
        ensures inside { NextCall (starved_law D.law) self.old cursor.old result self.new cursor.new }
    {
        if self.turn.comes() {
            return Err(NoMemory);
        }
        self.directory.next(alloc, cursor)
    }

    fn tally(&self) -> Tally {
        self.directory.tally()
    }

    ghost tells_some = { λ s. D.tells_some s.directory };

    ghost none_open = { λ s path t h. D.none_open s.directory path t h };

    ghost dropped = { λ s cursors ls cursor l h. D.dropped s.directory cursors ls cursor l h };

    ghost inner = { λ s path l h. D.inner s.directory path l h };

    ghost child = { λ d path x s h p. D.child d.directory path x s h p };

    ghost distinct = { λ d path s h. D.distinct d.directory path s h };
}
