//! Paths from standard input.

use std::io::{self, BufRead, BufReader};

/// What standard input has.
#[derive(Drop)]
pub struct Input {
    /// The lines that are UTF-8.
    pub paths: Vec<String>,
    /// How many lines aren't, at most `u64::MAX`.
    pub not_text: u64,
}

/// Reads all of standard input. A line ends at a line feed or, if it isn't empty, at the end of the
/// input.
///
/// # Errors
///
/// Returns an error if memory runs out or a read fails.
pub fn read_input(rt: &HostRuntime) -> io::Result<Input> {
    let alloc = rt.alloc();
    let mut paths = Vec::new(alloc);
    let mut not_text: u64 = 0;
    for line in BufReader::new(alloc, rt.stdin())?.split(alloc, b'\n') {
        match String::from_utf8(line?) {
            Ok(path) => paths.push(path)?,
            Err(_) => not_text = not_text.saturating_add(1),
        }
    }
    Ok(Input { paths, not_text })
}
