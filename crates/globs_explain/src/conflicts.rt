//! Rules that match one path.

use crate::numbered_lines::add_number;
use crate::page::Page;
use crate::rules::RuleFile;
use std::alloc::Global;
use wax::walk::written_lines;
use wax::{MOST_STATES, NoMemory};

/// Adds a line for each two rules that both match some plain path: the numbers of their lines and a shortest
/// such path; or `unknown` in its place, if it isn't known whether there is one.
pub fn add_conflicts(alloc: Global, file: &RuleFile, page: &mut Page) -> Result<(), NoMemory> {
    let written = written_lines(alloc, &file.text)?;
    for conflict in &file.rules.conflicts(alloc, MOST_STATES)? {
        add_number(&written, conflict.first, page);
        page.add(" ");
        add_number(&written, conflict.second, page);
        page.add(" ");
        match &conflict.path {
            Some(path) => page.whole(path),
            None => page.add("unknown"),
        }
        page.add("\n");
    }
    Ok(())
}
