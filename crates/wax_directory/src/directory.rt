//! The trait of directories, and its law.

ghost use Rattle.std.specs.Prelude.{◌≡◌, [], ◌∷◌, ◌++◌, ℕ, List};
ghost use Rattle.wax_directory.specs.Shown.{Items, Shown, a_folder, ShowsIn, IsPlain, join, child_shown};
ghost use Rattle.wax_directory.specs.Shown.{IsDistinct};

use crate::tally::Tally;
use std::alloc::Global;
use thiserror::Error;
use wax_query::diagnostics::NoMemory;

/// What is at a path. Whatever is neither a folder nor a link is a file.
#[derive(Clone, Copy, Debug, Eq, Hash, PartialEq)]
pub enum FileType {
    File,
    Link,
    Folder,
}

/// Why a directory returned no answer.
#[derive(Clone, Copy, Debug, Error)]
pub enum DirectoryFault {
    /// Something couldn't be read.
    #[error("cannot be read")]
    Failed,
    /// Allocation failed.
    #[error("no memory")]
    Memory,
}

/// An item of a folder.
#[derive(Debug, Drop)]
pub enum ListItem {
    /// A name and what is there. A directory may return names that no path can hold: an empty one,
    /// `.`, `..`, and those with a `/`.
    Name(String, FileType),
    /// An item that couldn't be read.
    Failed,
    /// An item whose name isn't text.
    NotText,
}

/// A tree of folders that returns what is at a path and what is in a folder.
///
/// A path is text with `/` between its names. One that begins with `/` starts at the root, any
/// other at the working folder, and the empty path is the working folder itself.
///
/// The law: a directory shows one tree that no call changes. `kind`, `open` and `next` return what
/// is in that tree, count what they return, and add it to what was answered. A directory of which
/// nothing can be known, such as the real file system, shows nothing; then only the counts and the
/// answers are claimed. A cursor may be a mere handle: what is open is known of all cursors
/// together.
pub trait Directory: Drop {
    ghost use Rattle.wax_directory.specs.{Answers.{KindIs, ListIs}, Calls.{OpensAt, Nexts, ReportsOpened}};
    ghost use Rattle.wax_directory.specs.Counting.{Counts, kind_counts, opening_counts, next_counts};
    ghost use Rattle.wax_directory.specs.History.{kind_answers, opening_answers, next_answers};
    ghost use Rattle.wax_directory.specs.Law.{Law, ShowsSame, HoldsSame, HoldsLast};
    ghost use Rattle.wax_directory.specs.Listing.{HeldWhereShown, ReportsListed, CountsListed};

    /// A folder that is being listed.
    type Cursor: Drop;

    /// What the directory shows, which cursors are open, which folders were opened, the counts, and
    /// what was answered.
    ghost law: { Law Self Self.Cursor };

    /// Returns what is at `path`, or `None` if nothing is there. A link isn't followed.
    ///
    /// # Errors
    ///
    /// Returns `Failed` if the path can't be read, and `Memory` if allocation fails.
    fn kind(&mut self, alloc: Global, path: &str) -> Result<Option<FileType>, DirectoryFault>
        ensures kind { (s : Shown) → law.shows self.old path.now s → KindIs s result }
        ensures shown { ShowsSame law self.old self.new }
        ensures held { HoldsSame law self.old self.new }
        ensures told { (t : List (List ℕ)) → law.tells self.old t → law.tells self.new t }
        ensures counted { Counts (kind_counts result) (law.tally self.old) (law.tally self.new) }
        ensures answered { law.answered self.new ≡ law.answered self.old ++ kind_answers path.now result };

    /// Begins to list the folder at `path`.
    ///
    /// # Errors
    ///
    /// Returns `Failed` if the folder can't be listed, and `Memory` if allocation fails.
    fn open(&mut self, alloc: Global, path: &str) -> Result<Self::Cursor, DirectoryFault>
        ensures opens { OpensAt law self.old path.now result self.new }
        ensures shown { ShowsSame law self.old self.new }
        ensures held { HoldsSame law self.old self.new }
        ensures told { (t : List (List ℕ)) → law.tells self.old t
            → ReportsOpened (law.tells self.new) path.now result t }
        ensures counted { Counts (opening_counts result) (law.tally self.old) (law.tally self.new) }
        ensures answered { law.answered self.new ≡ law.answered self.old ++ opening_answers path.now result };

    /// Returns the next item of a folder, in the directory's own order, or `None` at the end. The
    /// cursor is the one that was opened last, of those that aren't dropped yet.
    ///
    /// # Errors
    ///
    /// Returns `NoMemory` if allocation fails. The cursor still has the items that it had before.
    fn next(
        &mut self,
        alloc: Global,
        cursor: &mut Self::Cursor,
    ) -> Result<Option<ListItem>, NoMemory>
        ensures nexts { Nexts law self.old cursor.old result self.new cursor.new }
        ensures shown { ShowsSame law self.old self.new }
        ensures told { (t : List (List ℕ)) → law.tells self.old t → law.tells self.new t }
        ensures counted { Counts (next_counts result) (law.tally self.old) (law.tally self.new) }
        ensures answered { law.answered self.new ≡ law.answered self.old ++ next_answers result };

    /// Returns the counts of the calls so far.
    fn tally(&self) -> Tally
        ensures { result ≡ law.tally self.now };

    /// Lists the folder at `path`: returns its first `most` items in order, or all of them if it
    /// has no more.
    ///
    /// # Errors
    ///
    /// Returns `Failed` if the folder can't be listed, and `Memory` if allocation fails. Items that
    /// were already taken are lost then.
    final fn list(
        &mut self,
        alloc: Global,
        path: &str,
        most: u64,
    ) -> Result<Vec<ListItem>, DirectoryFault>
        ensures list { (s : Shown) → law.shows self.old path.now s → ListIs most s result }
        ensures shown { ShowsSame law self.old self.new }
        ensures held { HeldWhereShown law path.now self.old self.new }
        ensures told { (t : List (List ℕ)) → law.tells self.old t
            → ReportsListed (law.tells self.new) path.now result t }
        ensures counted { CountsListed most result (law.tally self.old) (law.tally self.new) }
    {
        let mut cursor = self.open(alloc, path)?;
        let mut items = Vec::new(alloc);
        for _ in 0..most {
            let item = match self.next(alloc, &mut cursor) {
                Ok(Some(item)) => item,
                Ok(None) => return Ok(items),
                Err(NoMemory) => return Err(DirectoryFault::Memory),
            };
            let Ok(()) = items.push(item) else {
                return Err(DirectoryFault::Memory);
            };
        }
        Ok(items)
    }

    /// Returns how often `kind` found nothing at a path; at most `u64::MAX`.
    final fn misses(&self) -> u64
        ensures { result ≡ (law.tally self.now).misses }
    {
        self.tally().misses
    }

    /// Returns how many calls returned `DirectoryFault::Failed` and how many items were `Failed` or
    /// `NotText`, in all; at most `u64::MAX`.
    final fn failures(&self) -> u64
        ensures { result ≡ (law.tally self.now).failures }
    {
        self.tally().failures
    }

    /// There is a list of folders that the directory can report.
    ghost tells_some: { (d : Self) → (t : List (List ℕ)) × law.tells d t };

    /// At first no folder is open.
    ghost none_open: { (d : Self) (path : List ℕ) (s : Shown) → law.shows d path s → law.holds d [] [] };

    /// The cursor that was opened last may be dropped.
    ghost dropped: { (d : Self) (cursors : List Self.Cursor) (ls : List Items) (cursor : Self.Cursor)
        (l : Items)
        → HoldsLast law d cursors ls cursor l → law.holds d cursors ls };

    /// What is in a folder is shown at its path, and a name is one that a path can hold exactly if
    /// it is plain.
    ghost inner: { (d : Self) (path : List ℕ) (l : Items) → law.shows d path (a_folder l)
        → ShowsIn (law.shows d) path l };

    /// Below what is shown at a path, each name that a path can hold leads to what is there. It
    /// leads to nothing if no entry has the name, and below a file, a link or nothing. Below a
    /// folder that can't be listed, and below a failure, every call fails.
    ghost child: { (d : Self) (path x : List ℕ) (s : Shown) → law.shows d path s → IsPlain x
        → law.shows d (join path x) (child_shown x s) };

    /// The names in each folder are distinct, except for those that no path can hold.
    ghost distinct: { (d : Self) (path : List ℕ) (s : Shown) → law.shows d path s → IsDistinct s };
}
