//! Entries that a glob matches.

ghost use Rattle.std.specs.Prelude.{◌≡◌, chars};
ghost use Rattle.wax_tree.specs.Matches.{tree_entry, match_of};
ghost use Rattle.wax_walk.specs.Entries.{facts_of};

use wax_directory::directory::FileType;
use wax_query::matching::{CandidatePath, MatchedText};
use wax_walk::{Entry, TreeEntry};

/// An entry that a glob matches, with what the match captured of the entry's candidate.
#[derive(Debug, Drop)]
pub struct GlobEntry {
    pub(crate) entry: TreeEntry,
    matched: MatchedText<'static>,
}

impl GlobEntry {
    pub(crate) fn new(entry: TreeEntry, matched: MatchedText<'static>) -> Self
        ensures entry { tree_entry result ≡ entry }
        ensures matched { match_of result ≡ matched.entry }
    {
        GlobEntry { entry, matched }
    }

    /// Returns the captures of the entry's candidate.
    pub fn matched(&self) -> &MatchedText<'static>
        ensures { result.now ≡ match_of self.now }
    {
        &self.matched
    }

    /// Returns the candidate: the names that lead from the start of the walk to the entry, with `/`
    /// between.
    pub fn to_candidate_path(&self) -> CandidatePath<'_>
        ensures { result ≡ chars (⟦<GlobEntry as Entry>⟧.facts self.now).candidate }
    {
        let (_, candidate) = self.entry.root_relative_paths();
        CandidatePath::from(candidate)
    }
}

impl Entry for GlobEntry {
    ghost facts = { λ e. facts_of (tree_entry e) };

    fn as_tree_entry(&self) -> &TreeEntry {
        &self.entry
    }

    fn path(&self) -> &str {
        self.entry.path()
    }

    fn into_path(self) -> String {
        self.entry.into_path()
    }

    fn root_relative_paths(&self) -> (&str, &str) {
        self.entry.root_relative_paths()
    }

    fn file_type(&self) -> FileType {
        self.entry.file_type()
    }

    fn depth(&self) -> usize {
        self.entry.depth()
    }
}

impl From<GlobEntry> for TreeEntry {
    ghost from_gives = { λ entry tree. tree ≡ tree_entry entry };

    fn from(entry: GlobEntry) -> TreeEntry {
        entry.entry
    }
}
