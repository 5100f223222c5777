//! Lines of an ignore list, with their numbers in its file.

use crate::page::Page;
use wax::walk::WrittenLine;

/// Adds the number of the line with an index in the list, and its text.
pub fn add_line(written: &[WrittenLine<'_>], index: usize, page: &mut Page) {
    add_number(written, index, page);
    page.add(": ");
    if let Some(line) = written.get(index) {
        page.add(if line.ignores { "" } else { "!" });
        page.whole(line.expression);
    }
}

/// Adds the number in the file of the line with an index in the list.
pub fn add_number(written: &[WrittenLine<'_>], index: usize, page: &mut Page) {
    if let Some(line) = written.get(index) {
        page.show(&line.number);
    }
}

/// Adds the line that decides about a path: its number and its text, or `-` if no line matches the
/// path.
pub fn add_deciding_line(written: &[WrittenLine<'_>], index: Option<usize>, page: &mut Page) {
    match index {
        Some(index) => add_line(written, index, page),
        None => page.add("-"),
    }
}
