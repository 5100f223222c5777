//! The names in a folder of the real system. They are read ahead, so that a small folder is closed
//! before its names are returned.

use std::alloc::{AllocError, Global};
use std::fs::Files;
use std::io::Read;
use std::{io, mem};

/// How many bytes of a folder's names are read ahead.
const READ_AHEAD: usize = 32768;

/// How many bytes have room for any entry of a folder.
const ENTRY_ROOM: usize = 4096;

type OpenFolder = <HostRuntime as Files>::Dir;

// What is left of a folder after the names that were read.
#[derive(Drop)]
enum Rest {
    Unread(OpenFolder),
    Failed(io::Error),
    Nothing,
}

/// A buffer for the names of a folder that is opened. All folders share it.
#[derive(Drop)]
pub(crate) struct ReadAhead {
    // Empty, or READ_AHEAD bytes.
    buffer: Vec<u8>,
}

impl ReadAhead {
    /// Makes an empty buffer. It doesn't allocate.
    pub(crate) fn new(alloc: Global) -> ReadAhead {
        ReadAhead {
            buffer: Vec::new(alloc),
        }
    }

    /// Begins to read a folder. If its names fit, it is closed, and only they are kept. Otherwise
    /// it keeps the buffer.
    pub(crate) fn names_of(
        &mut self,
        alloc: Global,
        folder: OpenFolder,
    ) -> Result<FolderNames, AllocError> {
        if self.buffer.is_empty() {
            self.buffer.resize(READ_AHEAD, 0)?;
        }
        let (end, rest) = read_ahead(folder, self.buffer.as_mut_slice());
        let buffer = match rest {
            Rest::Unread(_) => mem::replace(&mut self.buffer, Vec::new(alloc)),
            _ => Vec::from_slice(alloc, self.buffer.get(..end).unwrap_or(&[]))?,
        };
        Ok(FolderNames {
            buffer,
            start: 0,
            end,
            rest,
        })
    }
}

/// The names of a folder, each with a NUL at its end, of which some are yet to be read.
#[derive(Drop)]
pub(crate) struct FolderNames {
    buffer: Vec<u8>,
    // Where the names in the buffer that weren't returned yet begin and end.
    start: usize,
    end: usize,
    rest: Rest,
}

impl FolderNames {
    /// Returns the next name, without `.` and `..`, or `None` at the end.
    ///
    /// # Errors
    ///
    /// Returns the error that the system reported, after all names that it returned before.
    pub(crate) fn next(&mut self) -> io::Result<Option<&[u8]>> {
        for _ in 0..u64::MAX {
            if self.start < self.end {
                let (start, end) = self.pass_name();
                if !is_dots(self.buffer.get(start..end).unwrap_or(&[])) {
                    return Ok(self.buffer.get(start..end));
                }
            } else if !self.read_on()? {
                return Ok(None);
            }
        }
        Ok(None)
    }

    // Returns where the next name begins and ends in the buffer, and passes over it.
    fn pass_name(&mut self) -> (usize, usize) {
        let start = self.start;
        let rest = self.buffer.get(start..self.end).unwrap_or(&[]);
        let len = rest
            .iter()
            .position(|byte| *byte == 0)
            .unwrap_or(rest.len());
        let end = start.saturating_add(len);
        self.start = end.saturating_add(1);
        (start, end)
    }

    // Reads the next names into the buffer, in place of those that were returned. Returns whether
    // the folder wasn't at its end.
    fn read_on(&mut self) -> io::Result<bool> {
        match mem::replace(&mut self.rest, Rest::Nothing) {
            Rest::Unread(folder) => {
                (self.end, self.rest) = read_ahead(folder, self.buffer.as_mut_slice());
                self.start = 0;
                Ok(true)
            }
            Rest::Failed(error) => Err(error),
            Rest::Nothing => Ok(false),
        }
    }
}

// Reads names until the folder is at its end, or the buffer may not have room for the next one.
// Returns where the names in the buffer end, and what is left of the folder.
fn read_ahead(mut folder: OpenFolder, buffer: &mut [u8]) -> (usize, Rest) {
    let mut end: usize = 0;
    for _ in 0..READ_AHEAD {
        let room = buffer.get_mut(end..).unwrap_or(&mut []);
        if room.len() < ENTRY_ROOM {
            break;
        }
        match folder.read(room) {
            Ok(0) => return (end, Rest::Nothing),
            Ok(count) => end = end.saturating_add(count),
            Err(error) => return (end, Rest::Failed(error)),
        }
    }
    (end, Rest::Unread(folder))
}

// Returns whether a name is that of the folder itself or of the one above.
fn is_dots(name: &[u8]) -> bool {
    matches!(name, [b'.'] | [b'.', b'.'])
}
