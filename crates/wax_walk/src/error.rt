//! Errors of walks.

ghost use Rattle.std.specs.{Prelude.◌≡◌, Option.option_map};
ghost use Rattle.wax_walk.specs.Entries.{kind_of_fault, error_kind, error_path, error_depth, io_kind_of};

use std::io;
use std::io::ErrorKind;
use thiserror::Error;

/// What couldn't be read, and why.
#[derive(Clone, Copy, Debug, Eq, Error, PartialEq)]
pub enum FaultKind {
    /// Nothing is there (11). The walk has ended.
    #[error("not found")]
    NotFound,
    /// A file or a link is where a folder should be (12). The walk has ended.
    #[error("not a folder")]
    NotAFolder,
    /// What is there couldn't be read (13). The walk goes on with the rest.
    #[error("cannot be listed")]
    Listing,
    /// A folder has an item with a name that no path can hold (14). The walk goes on.
    #[error("bad name")]
    BadName,
    /// A folder has an item whose name isn't text (15). The walk goes on.
    #[error("name is not text")]
    NotText,
    /// A folder has more items than the walk may take (16). The walk has ended.
    #[error("budget reached")]
    Budget,
}

/// The kind of an error: a `FaultKind`, or `Memory`.
#[derive(Clone, Copy, Debug, Eq, Error, PartialEq)]
pub enum WalkErrorKind {
    /// Number 11, as `FaultKind::NotFound`.
    #[error("not found")]
    NotFound,
    /// Number 12, as `FaultKind::NotAFolder`.
    #[error("not a folder")]
    NotAFolder,
    /// Number 13, as `FaultKind::Listing`.
    #[error("cannot be listed")]
    Listing,
    /// Number 14, as `FaultKind::BadName`.
    #[error("bad name")]
    BadName,
    /// Number 15, as `FaultKind::NotText`.
    #[error("name is not text")]
    NotText,
    /// Number 16, as `FaultKind::Budget`.
    #[error("budget reached")]
    Budget,
    /// Allocation failed (17). The walk has ended.
    #[error("no memory")]
    Memory,
}

impl FaultKind {
    /// Converts a kind of fault into the kind of its error.
    pub fn error_kind(self) -> WalkErrorKind
        ensures { result ≡ kind_of_fault self }
    {
        match self {
            FaultKind::NotFound => WalkErrorKind::NotFound,
            FaultKind::NotAFolder => WalkErrorKind::NotAFolder,
            FaultKind::Listing => WalkErrorKind::Listing,
            FaultKind::BadName => WalkErrorKind::BadName,
            FaultKind::NotText => WalkErrorKind::NotText,
            FaultKind::Budget => WalkErrorKind::Budget,
        }
    }
}

/// An error that a walk yields, at its place among the entries.
#[derive(Debug, Drop, Error)]
pub enum WalkError {
    /// Something couldn't be read. The fields are the kind, the path, and the number of names that
    /// lead there from the start. If an item of a folder couldn't be read, the path is that of the
    /// folder.
    #[error("{1}: {0}")]
    Fault(FaultKind, String, usize),
    /// Allocation failed.
    #[error("no memory")]
    Memory,
}

impl WalkError {
    /// Returns which error it is.
    pub fn kind(&self) -> WalkErrorKind
        ensures { result ≡ error_kind self.now }
    {
        match self {
            WalkError::Fault(kind, _, _) => kind.error_kind(),
            WalkError::Memory => WalkErrorKind::Memory,
        }
    }

    /// Returns the path where the error occurred; `None` if allocation failed.
    pub fn path(&self) -> Option<&str>
        ensures { option_map (λ p. p.now) result ≡ error_path self.now }
    {
        match self {
            WalkError::Fault(_, path, _) => Some(path.as_str()),
            WalkError::Memory => None,
        }
    }

    /// Returns the number of names that lead from the start of the walk to the error's path; 0 if
    /// allocation failed.
    pub fn depth(&self) -> usize
        ensures { result ≡ error_depth self.now }
    {
        match self {
            WalkError::Fault(_, _, depth) => *depth,
            WalkError::Memory => 0,
        }
    }
}

/// The error has a kind of std that is nearest, and the text of the walk's kind, without the path.
impl From<WalkError> for io::Error {
    ghost use Rattle.std.specs.IoError.{error_kind as io_kind};

    ghost from_gives = { λ e r. io_kind r ≡ io_kind_of (error_kind e) };

    fn from(error: WalkError) -> Self {
        match error.kind() {
            WalkErrorKind::NotFound => io::Error::new(ErrorKind::NotFound, "not found"),
            WalkErrorKind::NotAFolder => io::Error::new(ErrorKind::NotADirectory, "not a folder"),
            WalkErrorKind::Listing => io::Error::other("cannot be listed"),
            WalkErrorKind::BadName => io::Error::other("bad name"),
            WalkErrorKind::NotText => io::Error::new(ErrorKind::InvalidData, "name is not text"),
            WalkErrorKind::Budget => io::Error::other("budget reached"),
            WalkErrorKind::Memory => io::Error::new(ErrorKind::OutOfMemory, "no memory"),
        }
    }
}
