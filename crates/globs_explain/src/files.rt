//! Files with text, and with ignore lists.

use std::fs;
use std::io::{self, ErrorKind};
use wax::walk::{IgnoreError, IgnoreList};

/// An ignore list, and the text of its file.
#[derive(Drop)]
pub struct ListFile {
    pub text: String,
    pub list: IgnoreList,
}

impl ListFile {
    /// Reads the ignore list in a file. Prints what is wrong with it and returns `None` if it can't be
    /// read, isn't UTF-8, or has a line with an error.
    ///
    /// # Errors
    ///
    /// Returns an error if memory runs out or a write fails.
    pub fn read(rt: &HostRuntime, file: &str) -> io::Result<Option<ListFile>> {
        let Some(text) = text_in(rt, file)? else {
            return Ok(None);
        };
        match IgnoreList::parse(rt.alloc(), &text) {
            Ok(list) => Ok(Some(ListFile { text, list })),
            Err(IgnoreError::BadLine { line, error }) => {
                eprintln!(rt; "globs_explain: {file}:{line}: {error}")?;
                Ok(None)
            }
            Err(IgnoreError::Memory) => Err(io::Error::from(ErrorKind::OutOfMemory)),
        }
    }
}

/// Reads the text of a file. Prints what is wrong with the file if it has none.
///
/// # Errors
///
/// Returns an error if memory runs out or a write fails.
pub fn text_in(rt: &HostRuntime, file: &str) -> io::Result<Option<String>> {
    let bytes = match fs::read(rt, file) {
        Ok(bytes) => bytes,
        Err(error) if error.kind() == ErrorKind::OutOfMemory => return Err(error),
        Err(_) => return fail(rt, file, "read failed"),
    };
    match String::from_utf8(bytes) {
        Ok(text) => Ok(Some(text)),
        Err(_) => fail(rt, file, "not text"),
    }
}

/// Prints what is wrong with a file.
fn fail(rt: &HostRuntime, file: &str, fault: &str) -> io::Result<Option<String>> {
    eprintln!(rt; "globs_explain: {file}: {fault}")?;
    Ok(None)
}
