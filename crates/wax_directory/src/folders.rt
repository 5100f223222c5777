//! The directory of the real system.

ghost use Rattle.std.specs.Prelude.{◌≡◌, []};
ghost use Rattle.wax_directory.specs.Counting.{no_counts};

use crate::directory::{Directory, DirectoryFault, FileType, ListItem};
use crate::history::History;
use crate::names::{FolderNames, ReadAhead};
use crate::path::is_open;
use crate::tally::Tally;
use std::alloc::{AllocError, Global};
use std::fs::Files;
use std::io::ErrorKind;
use std::{fs, io};
use wax_query::diagnostics::NoMemory;

/// The real file system. Links aren't followed, and items come in the system's order. Each item
/// costs one system call. A folder stays open only while it has names that weren't read ahead.
/// Nothing is claimed of what is shown, only of the counts and the answers.
#[derive(Drop)]
pub struct Folders {
    runtime: HostRuntime,
    tally: Tally,
    history: History,
    // The path of the item whose kind was looked at last: its text is used again for the next one.
    item_path: String,
    ahead: ReadAhead,
}

impl Folders {
    /// Wraps the runtime that `main` receives. The working folder is that of the process.
    pub fn new(runtime: HostRuntime) -> Folders
        ensures counts { ⟦<Self as Directory>⟧.law.tally result ≡ no_counts }
        ensures unasked { ⟦<Self as Directory>⟧.law.answered result ≡ [] }
    {
        let item_path = String::new(runtime.alloc());
        let ahead = ReadAhead::new(runtime.alloc());
        Folders {
            runtime,
            tally: Tally::none(),
            history: History::new(),
            item_path,
            ahead,
        }
    }

    // Returns the next item of a folder, or `None` at its end.
    fn next_item(
        &mut self,
        alloc: Global,
        listing: &mut FolderListing,
    ) -> Result<Option<ListItem>, NoMemory>
        ensures tally { self.new.tally ≡ self.old.tally }
        ensures history { self.new.history ≡ self.old.history }
    {
        let FolderListing { path, names } = listing;
        match names.next() {
            Ok(Some(name)) => Ok(Some(self.item(alloc, path.as_str(), name)?)),
            Ok(None) => Ok(None),
            Err(error) => Ok(Some(unread(&error)?)),
        }
    }

    // Returns the item with this name in a folder. The name has room for the path that a walk makes
    // of it.
    fn item(&mut self, alloc: Global, folder: &str, name: &[u8]) -> Result<ListItem, NoMemory>
        ensures tally { self.new.tally ≡ self.old.tally }
        ensures history { self.new.history ≡ self.old.history }
    {
        let Ok(name) = str::from_utf8(name) else {
            return Ok(ListItem::NotText);
        };
        self.item_path.clear();
        self.item_path.push_str(folder)?;
        self.item_path.push_str(name)?;
        match fs::symlink_metadata(&self.runtime, self.item_path.as_str()) {
            Ok(metadata) => {
                let mut text = String::with_capacity(alloc, self.item_path.len())?;
                text.push_str(name)?;
                Ok(ListItem::Name(text, type_of(metadata.file_type())))
            }
            Err(error) => unread(&error),
        }
    }
}

/// A folder of the real file system that is being listed.
#[derive(Drop)]
pub struct FolderListing {
    // The path of the folder, to which a name can be appended.
    path: String,
    names: FolderNames,
}

// Replaces the empty path, which the system doesn't know.
fn system_path(path: &str) -> &str {
    if path.is_empty() { "." } else { path }
}

fn type_of(kind: fs::FileType) -> FileType {
    if kind.is_symlink() {
        FileType::Link
    } else if kind.is_dir() {
        FileType::Folder
    } else {
        FileType::File
    }
}

fn fault_of(error: &io::Error) -> DirectoryFault {
    if error.kind() == ErrorKind::OutOfMemory {
        DirectoryFault::Memory
    } else {
        DirectoryFault::Failed
    }
}

// Returns what is at a path. Nothing is at a path through a file.
fn kind_at(runtime: &HostRuntime, path: &str) -> Result<Option<FileType>, DirectoryFault> {
    match fs::symlink_metadata(runtime, system_path(path)) {
        Ok(metadata) => Ok(Some(type_of(metadata.file_type()))),
        Err(error) => match error.kind() {
            ErrorKind::NotFound | ErrorKind::NotADirectory => Ok(None),
            _ => Err(fault_of(&error)),
        },
    }
}

// Begins to list a folder. The system refuses to open a link.
fn opened_at(
    alloc: Global,
    runtime: &HostRuntime,
    ahead: &mut ReadAhead,
    path: &str,
) -> Result<Box<FolderListing>, DirectoryFault> {
    match runtime.open_dir(system_path(path)) {
        Ok(folder) => match listing_of(alloc, ahead, folder, path) {
            Ok(listing) => Ok(listing),
            Err(_) => Err(DirectoryFault::Memory),
        },
        Err(error) => Err(fault_of(&error)),
    }
}

// The listing is in a box, so that little is moved with it.
fn listing_of(
    alloc: Global,
    ahead: &mut ReadAhead,
    folder: <HostRuntime as Files>::Dir,
    path: &str,
) -> Result<Box<FolderListing>, AllocError> {
    let mut text = String::with_capacity(alloc, path.len() + 1)?;
    text.push_str(path)?;
    if !is_open(path) {
        text.push('/')?;
    }
    let names = ahead.names_of(alloc, folder)?;
    Ok(Box::new(alloc, FolderListing { path: text, names })?)
}

// Converts an error of the system into an item.
fn unread(error: &io::Error) -> Result<ListItem, NoMemory> {
    match error.kind() {
        ErrorKind::OutOfMemory => Err(NoMemory),
        _ => Ok(ListItem::Failed),
    }
}

impl Directory for Folders {
    ghost use Rattle.std.specs.Prelude.{⊤, []};

    type Cursor = Box<FolderListing>;

    ghost law = { record {
      shows = λ _ _ _. ⊥;
      holds = λ _ _ _. ⊥;
      tells = λ _ _. ⊤;
      tally = λ s. s.tally;
      answered = λ s. s.history.answers;
    } };

    fn kind(&mut self, _alloc: Global, path: &str) -> Result<Option<FileType>, DirectoryFault> {
        let answer = kind_at(&self.runtime, path);
        self.tally.add(Tally::of_kind(&answer));
        self.history.add_kind(path, &answer);
        answer
    }

    fn open(&mut self, alloc: Global, path: &str) -> Result<Box<FolderListing>, DirectoryFault> {
        let answer = opened_at(alloc, &self.runtime, &mut self.ahead, path);
        self.tally.add(Tally::of_opening(&answer));
        self.history.add_opening(path, &answer);
        answer
    }

    fn next(
        &mut self,
        alloc: Global,
        cursor: &mut Box<FolderListing>,
    ) -> Result<Option<ListItem>, NoMemory> {
        let answer = self.next_item(alloc, &mut **cursor);
        self.tally.add(Tally::of_next(&answer));
        self.history.add_next(&answer);
        answer
    }

    fn tally(&self) -> Tally {
        self.tally
    }

    ghost tells_some = { λ d. ([], tt) };

    ghost none_open = { λ d path s h. elim h [ ] };

    ghost dropped = { λ d cursors ls cursor l h. elim h [ ] };

    ghost inner = { λ d path l h. elim h [ ] };

    ghost child = { λ d path x s h p. elim h [ ] };

    ghost distinct = { λ d path s h. elim h [ ] };
}
