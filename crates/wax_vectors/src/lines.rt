//! Calls of `filter_lines`, `capture_lines` and `filter_unignored`, over a reader that yields one byte
//! at a time.

use crate::kinds::LinesCall;
use std::alloc::{AllocError, Global};
use std::io::{self, Cursor, Read};
use wax::walk::IgnoreList;
use wax::{
    CandidatePath, Counted, Glob, LinesError, NoMemory, Program, capture_lines, filter_lines,
    filter_unignored,
};
use wax_test_kit::answer::Answer;
use wax_test_kit::rows::DataRow;

/// The greatest length, in bytes, of all lines that are written.
const ROOM: usize = 1_024;

/// A reader that yields one byte at a time.
#[derive(Drop)]
struct Bytes<'a> {
    left: &'a [u8],
}

impl Read for Bytes<'_> {
    fn read(&mut self, buf: &mut [u8]) -> io::Result<usize> {
        match (self.left.split_first(), buf.first_mut()) {
            (Some((byte, rest)), Some(place)) => {
                *place = *byte;
                self.left = rest;
                Ok(1)
            }
            _ => Ok(0),
        }
    }
}

/// Adds the lines that a call writes. Then adds, each after a `=`, how the call ended and whether
/// the glob matches the row's path afterwards.
pub fn add_lines(
    alloc: Global,
    call: LinesCall,
    glob: &Glob<'_>,
    row: &DataRow,
    made: &mut Answer,
) -> Result<(), NoMemory> {
    let bytes = bytes_of(alloc, row.input(1))?;
    let mut input = Counted::new(Bytes { left: &bytes });
    let mut output = Counted::new(Cursor::new([0; ROOM]));
    let ended = match call {
        LinesCall::Filter => filter_lines(alloc, &mut input, &mut output, glob),
        LinesCall::Capture => capture_lines(alloc, &mut input, &mut output, glob),
    };
    add_written(&output.into_inner(), made);
    add_end(ended, made);
    add_after(
        glob.is_match(alloc, &CandidatePath::from(row.input(2))),
        made,
    );
    Ok(())
}

/// Adds the lines that a list doesn't ignore. Then adds, each after a `=`, how the call ended and
/// whether the list ignores the row's path afterwards.
///
/// # Errors
///
/// Returns `NoMemory` if allocation fails, or if the row has no list.
pub fn add_unignored(alloc: Global, row: &DataRow, made: &mut Answer) -> Result<(), NoMemory> {
    let Ok(mut list) = IgnoreList::parse(alloc, row.input(0)) else {
        return Err(NoMemory);
    };
    let bytes = bytes_of(alloc, row.input(1))?;
    let mut input = Counted::new(Bytes { left: &bytes });
    let mut output = Counted::new(Cursor::new([0; ROOM]));
    let ended = filter_unignored(alloc, &mut input, &mut output, &mut list);
    add_written(&output.into_inner(), made);
    add_end(ended, made);
    add_after(
        list.is_ignored_cached(alloc, &CandidatePath::from(row.input(2))),
        made,
    );
    Ok(())
}

/// Returns the bytes of a text. Each U+FFFD becomes a byte that isn't valid UTF-8.
fn bytes_of(alloc: Global, text: &str) -> Result<Vec<u8>, AllocError> {
    let mut bytes = Vec::new(alloc);
    for (index, part) in text.split('\u{fffd}').enumerate() {
        if index > 0 {
            bytes.push(0xff)?;
        }
        bytes.extend_from_slice(part.as_bytes())?;
    }
    Ok(bytes)
}

fn add_written(output: &Cursor<[u8; ROOM]>, made: &mut Answer) {
    let count = usize::try_from(output.position()).unwrap_or(0).min(ROOM);
    made.add(str::from_utf8(&output.get_ref()[..count]).unwrap_or("not text"));
}

fn add_end(ended: Result<u64, LinesError>, made: &mut Answer) {
    made.add("= ");
    match ended {
        Ok(count) => {
            made.show(&count);
            made.add(" not text");
        }
        Err(error) => made.show(&error),
    }
    made.add("\n= ");
}

fn add_after(answer: Result<bool, NoMemory>, made: &mut Answer) {
    match answer {
        Ok(answer) => made.digit(answer),
        Err(error) => made.show(&error),
    }
}
