//! Ignore lists and single paths.
ghost use Rattle.std.specs.{List.AllZip, Prelude.{◌≡◌, List, IfOk, chars}};
ghost use Rattle.wax.specs.{Ignoring.{is_ignored, IsReadAs, Line, written_lines}, Language.Span};

use std::alloc::Global;
use wax::CandidatePath;
use wax::walk::{IgnoreError, IgnoreList};

/// Returns whether an ignore list ignores the path, from the text of the list. It shows a contract
/// about the lines that are written in a list.
///
/// # Errors
///
/// Returns the errors of `IgnoreList::parse`.
pub fn is_ignored_by(alloc: Global, list: &str, path: &str) -> Result<bool, IgnoreError>
    ensures { IfOk result (λ answer. (lines : List (Line Span))
        × AllZip IsReadAs (written_lines list.now) lines × (answer ≡ is_ignored lines (chars path.now))) }
{
    let list = IgnoreList::parse(alloc, list)?;
    Ok(list.is_ignored(alloc, &CandidatePath::from(path))?)
}
