//! The lines of an ignore list that decide nothing.

use crate::files::ListFile;
use crate::numbered_lines::{add_line, add_number};
use crate::page::Page;
use std::alloc::Global;
use wax::walk::{IdleReason, WrittenLine, written_lines};
use wax::{MOST_STATES, NoMemory};

/// Adds each line that decides nothing about plain paths: its number, its text and why.
pub fn add_idle(alloc: Global, file: &ListFile, page: &mut Page) -> Result<(), NoMemory> {
    let written = written_lines(alloc, &file.text)?;
    for line in file.list.idle_lines(alloc, MOST_STATES)? {
        add_idle_line(&written, line.index, &line.reason, page);
    }
    Ok(())
}

/// Adds a line: its number, its text and why it decides nothing.
pub fn add_idle_line(
    written: &[WrittenLine<'_>],
    index: usize,
    reason: &IdleReason,
    page: &mut Page,
) {
    add_line(written, index, page);
    add_reason(written, reason, page);
}

/// Adds why a line decides nothing.
fn add_reason(written: &[WrittenLine<'_>], reason: &IdleReason, page: &mut Page) {
    match reason {
        IdleReason::TakesNothingBack => page.add(": takes nothing back\n"),
        IdleReason::Unknown => page.add(": unknown\n"),
        IdleReason::Covered(later) if later.is_empty() => page.add(": matches no path\n"),
        IdleReason::Covered(later) => {
            page.add(": covered by ");
            for (place, index) in later.iter().enumerate() {
                page.add(if place > 0 { ", " } else { "" });
                add_number(written, *index, page);
            }
            page.add("\n");
        }
    }
}
