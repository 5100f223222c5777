//! Folders as rules see them, and what rules exclude with everything below.
ghost use Rattle.std.specs.{Prelude.{◌≡◌, ◌==◌, ◌↔◌, IsTrue, chars, nat_lt, not}, List.list_any};
ghost use Rattle.wax_walk.specs.{Given.with_tree, Said.mark_of};
ghost use Rattle.wax_exclude.specs.Candidates.{folder_at};

use wax_query::matching::CandidatePath;
use wax_walk::{Candidate, EntryResidue};

/// Returns the candidate of a folder with this path. Its depth is 1 if the path has a name, and
/// otherwise 0: rules ask for no more.
pub fn folder_candidate<'c>(path: &'c CandidatePath<'_>) -> Candidate<'c>
    ensures text { chars result.path.now ≡ path.now }
    ensures named { nat_lt 0 result.depth ≡ nat_lt 0 (folder_at path.now).depth }
{
    let text = path.as_str();
    Candidate {
        path: text,
        depth: usize::from(has_name(text)),
    }
}

fn has_name(text: &str) -> bool
    ensures { result ≡ list_any (λ c. not (c == 47)) (chars text.now) }
{
    text.chars().any(|character| character != '/')
}

/// Returns whether an entry is excluded with everything below it.
pub fn is_tree(residue: Option<EntryResidue>) -> bool
    ensures { IsTrue result ↔ (mark_of residue ≡ with_tree) }
{
    matches!(residue, Some(EntryResidue::Tree))
}
