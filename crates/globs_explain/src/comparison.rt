//! Two globs compared: a path that both match, or one that only the first matches.

use crate::captured;
use crate::page::Page;
use std::alloc::Global;
use wax::{Comparison, Glob, MOST_STATES, NoMemory, Texts, difference, overlap};

/// A question about two globs.
#[derive(Clone, Copy)]
pub enum Question {
    /// A path that both match.
    Overlap,
    /// A path that the first matches, and the second doesn't.
    Difference,
}

/// Adds the answer for plain paths: `none`, `unknown`, or a shortest path with what each glob captures
/// of it.
pub fn add_answer(
    alloc: Global,
    question: Question,
    first: &Glob<'_>,
    second: &Glob<'_>,
    page: &mut Page,
) -> Result<(), NoMemory> {
    let found = match question {
        Question::Overlap => overlap(alloc, first, second, Texts::Paths, MOST_STATES)?,
        Question::Difference => difference(alloc, first, second, Texts::Paths, MOST_STATES)?,
    };
    if let Some(path) = add_found(&found, page) {
        add_match(alloc, first, path, page)?;
        add_match(alloc, second, path, page)?;
    }
    Ok(())
}

/// Adds the first line: `none`, `unknown`, or `witness` and the path that was found. Returns the path.
pub fn add_found<'c>(found: &'c Comparison, page: &mut Page) -> Option<&'c str> {
    match found {
        Comparison::Nothing => {
            page.add("none\n");
            None
        }
        Comparison::Unknown => {
            page.add("unknown\n");
            None
        }
        Comparison::Text(path) => {
            page.add("witness ");
            page.whole(path);
            page.add("\n");
            Some(path.as_str())
        }
    }
}

/// Adds the expression, and what it captures of the path.
fn add_match(alloc: Global, glob: &Glob<'_>, path: &str, page: &mut Page) -> Result<(), NoMemory> {
    let expression = glob.expression();
    page.add("\n");
    page.whole(expression);
    captured::add_match(alloc, glob, path, page)
}
