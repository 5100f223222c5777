//! The line of an ignore list that decides about each of many paths.

use crate::files::ListFile;
use crate::input::read_input;
use crate::numbered_lines::add_deciding_line;
use crate::page::Page;
use std::alloc::Global;
use std::io;
use wax::walk::{DecidingLines, WrittenLine, written_lines};
use wax::{CandidatePath, NoMemory};

/// Prints for each path the line of the ignore list in a file that decides about it, a tab and the path.
/// If there are no paths, reads them from standard input, one per line. Returns the status.
///
/// # Errors
///
/// Returns an error if memory runs out, or if a write or a read of standard input fails.
pub fn print_lines(rt: &HostRuntime, file: &str, paths: &[String]) -> io::Result<u8> {
    let Some(file) = ListFile::read(rt, file)? else {
        return Ok(1);
    };
    if paths.is_empty() {
        print_lines_for_input(rt, &file)
    } else {
        print_lines_for(rt, &file, paths)
    }
}

fn print_lines_for_input(rt: &HostRuntime, file: &ListFile) -> io::Result<u8> {
    let input = read_input(rt)?;
    let status = print_lines_for(rt, file, &input.paths)?;
    let count = input.not_text;
    if count == 0 {
        return Ok(status);
    }
    eprintln!(rt; "globs_explain: {count} lines are not text")?;
    Ok(1)
}

fn print_lines_for(rt: &HostRuntime, file: &ListFile, paths: &[String]) -> io::Result<u8> {
    let mut page = Page::new(rt.alloc());
    let added = add_lines(rt.alloc(), file, paths, &mut page);
    page.lose_unless(added);
    page.print(rt, 0)
}

fn add_lines(
    alloc: Global,
    file: &ListFile,
    paths: &[String],
    page: &mut Page,
) -> Result<(), NoMemory> {
    let written = written_lines(alloc, &file.text)?;
    let mut deciding = file.list.deciding_lines(alloc)?;
    for path in paths {
        add_line(&written, &mut deciding, path, page)?;
    }
    Ok(())
}

fn add_line(
    written: &[WrittenLine<'_>],
    deciding: &mut DecidingLines,
    path: &str,
    page: &mut Page,
) -> Result<(), NoMemory> {
    let index = deciding.deciding_line(&CandidatePath::from(path))?;
    add_deciding_line(written, index, page);
    page.add("\t");
    page.whole(path);
    page.add("\n");
    Ok(())
}
