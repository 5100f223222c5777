//! The lines of an ignore list's text.
ghost use Rattle.std.specs.Prelude.{◌≡◌, ◌++◌, ◌∷◌, [], IfOk, map, option_to_list};
ghost use Rattle.wax_exclude.specs.Lines.{between_feeds, is_skipped, line_at, without_return, written_lines};
ghost use Rattle.wax_exclude.specs.Lines.{written_of};

use std::alloc::{AllocError, Global};
use wax_query::diagnostics::NoMemory;

/// A line of an ignore list, other than one that is skipped.
#[derive(Clone, Copy, Debug)]
pub struct WrittenLine<'t> {
    /// The number of the line, from 1. Lines that are skipped count.
    pub number: usize,
    /// False if the line begins with `!`: it stops ignoring what its glob matches then.
    pub ignores: bool,
    /// The expression of its glob.
    pub expression: &'t str,
}

/// Splits the text of an ignore list into lines, without those that are skipped. A line ends at a
/// line feed or at the end of the text, and one carriage return at its end is dropped. A line that
/// is empty, or that begins with `#`, is skipped. If a line begins with `!`, the glob after the `!`
/// stops ignoring what it matches. Every other line is a glob that ignores what it matches.
pub fn written_lines<'t>(alloc: Global, text: &'t str) -> Result<Vec<WrittenLine<'t>>, NoMemory>
    ensures { IfOk result (λ lines. map written_of lines.items ≡ written_lines text.now) }
{
    let parts = parts_between_feeds(alloc, text)?;
    let mut lines = Vec::new(alloc);
    for (index, part) in parts.iter().enumerate() {
        if let Some(line) = line_in(index + 1, part) {
            lines.push(line)?;
        }
    }
    Ok(lines)
}

fn parts_between_feeds<'t>(alloc: Global, text: &'t str) -> Result<Vec<&'t str>, AllocError>
    ensures { IfOk result (λ parts. map (λ part. part.now) parts.items ≡ between_feeds text.now) }
{
    text.split('\n').collect(alloc)
}

// Reads one line; returns `None` if it is skipped.
fn line_in<'t>(number: usize, part: &'t str) -> Option<WrittenLine<'t>>
    ensures { map written_of (option_to_list result) ≡ line_at number part.now }
{
    let line = without_return(part);
    if is_skipped(line) {
        return None;
    }
    match line.strip_prefix('!') {
        Some(expression) => Some(WrittenLine {
            number,
            ignores: false,
            expression,
        }),
        None => Some(WrittenLine {
            number,
            ignores: true,
            expression: line,
        }),
    }
}

fn is_skipped(line: &str) -> bool
    ensures { result ≡ is_skipped line.now }
{
    line.is_empty() || line.starts_with('#')
}

fn without_return(text: &str) -> &str
    ensures { result.now ≡ without_return text.now }
{
    match text.strip_suffix('\r') {
        Some(front) => front,
        None => text,
    }
}
