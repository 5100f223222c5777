//! An ignore list without the lines that decide nothing.

use crate::files::ListFile;
use crate::idle::add_idle_line;
use crate::page::{Page, print_both};
use std::alloc::{AllocError, Global};
use std::io;
use wax::walk::{IdleLine, IdleReason, TidyList, WrittenLine, written_lines};
use wax::{MOST_STATES, NoMemory};

/// Prints the ignore list in a file without the lines of which it is known that they decide nothing; and to
/// standard error, these lines and those of which it isn't known whether they decide. Returns the status.
///
/// # Errors
///
/// Returns an error if memory runs out or a write fails.
pub fn print_tidied(rt: &HostRuntime, file: &str) -> io::Result<u8> {
    let Some(file) = ListFile::read(rt, file)? else {
        return Ok(1);
    };
    let mut list = Page::new(rt.alloc());
    let mut idle = Page::new(rt.alloc());
    let added = add_tidied(rt.alloc(), &file, &mut list, &mut idle);
    list.lose_unless(added);
    print_both(rt, &list, &idle)
}

/// Adds the lines that stay to one page as they are, and to the other each line that was removed, and then
/// each of which it isn't known whether it decides: its number, its text and why.
fn add_tidied(
    alloc: Global,
    file: &ListFile,
    list: &mut Page,
    idle: &mut Page,
) -> Result<(), NoMemory> {
    let tidy = file.list.tidied(alloc, MOST_STATES)?;
    let written = written_lines(alloc, &file.text)?;
    for line in &tidy.removed {
        add_idle_line(&written, line.index, &line.reason, idle);
    }
    add_unknown(&written, &tidy, idle);
    let numbers = numbers_of(alloc, &written, &tidy.removed)?;
    add_other_lines(&file.text, &numbers, list);
    Ok(())
}

/// Adds the lines of which it isn't known whether they decide.
fn add_unknown(written: &[WrittenLine<'_>], tidy: &TidyList, page: &mut Page) {
    for place in &tidy.unknown {
        if let Some(index) = tidy.indexes.get(*place) {
            add_idle_line(written, *index, &IdleReason::Unknown, page);
        }
    }
}

/// Returns the numbers of lines in their file, ascending.
fn numbers_of(
    alloc: Global,
    written: &[WrittenLine<'_>],
    lines: &[IdleLine],
) -> Result<Vec<usize>, AllocError> {
    let mut numbers = Vec::new(alloc);
    for line in lines {
        if let Some(line) = written.get(line.index) {
            numbers.push(line.number)?;
        }
    }
    numbers.sort_unstable();
    Ok(numbers)
}

/// Adds the lines of a text as they are, without those with these numbers, which ascend.
fn add_other_lines(text: &str, numbers: &[usize], page: &mut Page) {
    for (index, line) in text.split_inclusive('\n').enumerate() {
        if numbers.binary_search(&index.saturating_add(1)).is_err() {
            page.add(line);
        }
    }
}
