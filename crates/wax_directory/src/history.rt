//! What a directory answered so far: a list that exists only in proofs.

ghost use Rattle.std.specs.{Prelude.{◌≡◌, List, [], ◌++◌}, Borrow.ftrue};
ghost use Rattle.wax_directory.specs.History.{Answer, kind_answers, opening_answers, next_answers};
ghost use Rattle.wax_directory.specs.{inner.Coding.answers_code, inner.Noted.noted};

use crate::directory::{DirectoryFault, FileType, ListItem};
use std::marker::Model;
use wax_query::diagnostics::NoMemory;

/// What a directory answered so far, in order. It has no data and costs no time: only contracts can
/// read it.
#[derive(Drop)]
pub struct History {
    pub ghost answers: { List Answer } by { answers_code },
}

impl Model for History {
    ghost also_owns = { λ _. ftrue };
}

/// One answer, or `Nothing` where allocation failed.
#[derive(Clone, Copy, Drop)]
pub(crate) enum Note<'a> {
    Found(&'a str, FileType),
    Absent(&'a str),
    Unseen(&'a str),
    Opened(&'a str),
    Refused(&'a str),
    Listed(&'a ListItem),
    AtEnd,
    Nothing,
}

impl<'a> Note<'a> {
    fn of_kind(path: &'a str, answer: &Result<Option<FileType>, DirectoryFault>) -> Note<'a>
        ensures { noted result ≡ kind_answers path.now answer.now }
    {
        match answer {
            Ok(Some(kind)) => Note::Found(path, *kind),
            Ok(None) => Note::Absent(path),
            Err(DirectoryFault::Failed) => Note::Unseen(path),
            Err(DirectoryFault::Memory) => Note::Nothing,
        }
    }

    fn of_opening<C>(path: &'a str, answer: &Result<C, DirectoryFault>) -> Note<'a>
        ensures { noted result ≡ opening_answers path.now answer.now }
    {
        match answer {
            Ok(_) => Note::Opened(path),
            Err(DirectoryFault::Failed) => Note::Refused(path),
            Err(DirectoryFault::Memory) => Note::Nothing,
        }
    }

    fn of_next(answer: &'a Result<Option<ListItem>, NoMemory>) -> Note<'a>
        ensures { noted result ≡ next_answers answer.now }
    {
        match answer {
            Ok(Some(item)) => Note::Listed(item),
            Ok(None) => Note::AtEnd,
            Err(NoMemory) => Note::Nothing,
        }
    }
}

impl History {
    /// Creates the history of a directory that wasn't asked yet.
    pub fn new() -> History
        ensures { result.answers ≡ [] }
    {
        History {}
    }

    #[inline(always)]
    fn then(&self, _note: &Note<'_>) -> History
        ensures { result.answers ≡ self.now.answers ++ noted _note.now }
    {
        History {}
    }

    /// Adds a result of `kind` at `path`. Nothing is added if allocation failed.
    #[inline(always)]
    pub fn add_kind(&mut self, path: &str, answer: &Result<Option<FileType>, DirectoryFault>)
        ensures { self.new.answers ≡ self.old.answers ++ kind_answers path.now answer.now }
    {
        *self = self.then(&Note::of_kind(path, answer));
    }

    /// Adds a result of `open` at `path`. Nothing is added if allocation failed.
    #[inline(always)]
    pub fn add_opening<C>(&mut self, path: &str, answer: &Result<C, DirectoryFault>)
        ensures { self.new.answers ≡ self.old.answers ++ opening_answers path.now answer.now }
    {
        *self = self.then(&Note::of_opening(path, answer));
    }

    /// Adds a result of `next`. Nothing is added if allocation failed.
    #[inline(always)]
    pub fn add_next(&mut self, answer: &Result<Option<ListItem>, NoMemory>)
        ensures { self.new.answers ≡ self.old.answers ++ next_answers answer.now }
    {
        *self = self.then(&Note::of_next(answer));
    }
}
