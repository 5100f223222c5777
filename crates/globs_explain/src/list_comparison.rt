//! Two ignore lists compared: a path that exactly one of both ignores.

use crate::comparison::add_found;
use crate::files::ListFile;
use crate::numbered_lines::add_deciding_line;
use crate::page::Page;
use std::alloc::Global;
use wax::walk::written_lines;
use wax::{CandidatePath, NoMemory, Texts, compare};

/// How many states may be reached. Lists of a thousand lines can take more than `wax::MOST_STATES`.
const LIST_STATES: usize = 1_000_000;

/// Adds the answer for plain paths: `none`, `unknown`, or a shortest path that exactly one of both
/// ignores, and then the line of each that decides about it.
pub fn add_answer(
    alloc: Global,
    first: &ListFile,
    second: &ListFile,
    page: &mut Page,
) -> Result<(), NoMemory> {
    let found = compare(alloc, &first.list, &second.list, Texts::Paths, LIST_STATES)?;
    if let Some(path) = add_found(&found, page) {
        add_line_of(alloc, first, path, page)?;
        add_line_of(alloc, second, path, page)?;
    }
    Ok(())
}

/// Adds the line of a list that decides about the path.
fn add_line_of(
    alloc: Global,
    file: &ListFile,
    path: &str,
    page: &mut Page,
) -> Result<(), NoMemory> {
    let index = file.list.deciding_line(alloc, &CandidatePath::from(path))?;
    let written = written_lines(alloc, &file.text)?;
    add_deciding_line(&written, index, page);
    page.add("\n");
    Ok(())
}
