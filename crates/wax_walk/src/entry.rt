//! Entries of walks.

ghost use Rattle.std.specs.Prelude.{◌≡◌, string_bytes};
ghost use Rattle.wax_walk.specs.{Given.Facts, Entries.{facts_of, entry_texts}};

use crate::candidate::Candidate;
use crate::walked_path::WalkedPath;
use std::alloc::AllocError;
use std::fmt;
use std::fmt::{Debug, Formatter};
use wax_directory::directory::FileType;

/// An entry of a plain walk. A walk of a glob wraps one and adds the captures.
#[derive(Drop)]
pub struct TreeEntry {
    at: WalkedPath,
    depth: usize,
    kind: FileType,
}

impl TreeEntry {
    /// Builds the entry at `path`, to which the names of `candidate` lead from `root`. `depth` is
    /// the number of these names.
    pub fn new(path: String, root: String, candidate: String, depth: usize, kind: FileType) -> Self
        ensures { ⟦<Self as Entry>⟧.facts result ≡ record {
          path = string_bytes path;
          root = string_bytes root;
          candidate = string_bytes candidate;
          depth = depth;
          kind = kind;
        } }
    {
        TreeEntry {
            at: WalkedPath::new(path, root, candidate),
            depth,
            kind,
        }
    }

    /// Builds the entry at a path. `depth` is the number of the names of the candidate.
    pub fn from_path(at: WalkedPath, depth: usize, kind: FileType) -> Self
        ensures { ⟦<Self as Entry>⟧.facts result ≡ record {
          path = at.path;
          root = at.root;
          candidate = at.candidate;
          depth = depth;
          kind = kind;
        } }
    {
        TreeEntry { at, depth, kind }
    }

    /// Returns the path with its start and its candidate.
    pub fn walked_path(&self) -> &WalkedPath
        ensures { result.now ≡ entry_texts (⟦<Self as Entry>⟧.facts self.now) }
    {
        &self.at
    }
}

/// Prints the texts of the entry, its depth and its kind.
impl Debug for TreeEntry {
    fn fmt<W: fmt::Write>(&self, f: &mut Formatter<W>) -> fmt::Result {
        f.debug_struct("TreeEntry")
            .field("path", &self.at.as_str())
            .field("root", &self.at.root())
            .field("candidate", &self.at.candidate())
            .field("depth", &self.depth)
            .field("kind", &self.kind)
            .finish()
    }
}

/// Copies the texts of the entry.
impl Clone for TreeEntry {
    ghost use Rattle.std.specs.Prelude.{◌≡◌};
    ghost use Rattle.wax_walk.specs.Entries.{facts_of};

    ghost is_clone = { λ entry copy. facts_of copy ≡ facts_of entry };

    fn clone(&self) -> Result<Self, AllocError> {
        Ok(TreeEntry {
            at: self.at.clone()?,
            depth: self.depth,
            kind: self.kind,
        })
    }
}

/// An entry of a walk.
pub trait Entry: Drop {
    /// The entry's path, start, candidate, depth and kind, as contracts see them.
    ghost facts: { Self → Facts };

    /// Returns the entry as one of a plain walk.
    fn as_tree_entry(&self) -> &TreeEntry
        ensures { ⟦<TreeEntry as Entry>⟧.facts result.now ≡ facts self.now };

    /// Returns the path: that of the start, a `/` if one is needed, and the candidate.
    fn path(&self) -> &str
        ensures { result.now ≡ (facts self.now).path };

    /// Converts the entry into its path.
    fn into_path(self) -> String
    where
        Self: Sized,
        ensures { string_bytes result ≡ (facts self).path };

    /// Returns the path of the start of the walk, and the candidate: the names that lead from there
    /// to the entry, with `/` between. The candidate of the start is empty, except if the walk
    /// begins at the root: candidates begin with `/` then.
    fn root_relative_paths(&self) -> (&str, &str)
        ensures root { result.0.now ≡ (facts self.now).root }
        ensures candidate { result.1.now ≡ (facts self.now).candidate };

    /// Returns the kind that the directory reported: a file, a link or a folder.
    fn file_type(&self) -> FileType
        ensures { result ≡ (facts self.now).kind };

    /// Returns the number of names that lead here from the start; 0 for the start.
    fn depth(&self) -> usize
        ensures { result ≡ (facts self.now).depth };

    /// Returns what rules see of the entry: its candidate and its depth.
    final fn candidate(&self) -> Candidate<'_>
        ensures path { result.path.now ≡ (facts self.now).candidate }
        ensures depth { result.depth ≡ (facts self.now).depth }
    {
        let (_, path) = self.root_relative_paths();
        Candidate {
            path,
            depth: self.depth(),
        }
    }
}

impl Entry for TreeEntry {
    ghost facts = { facts_of };

    fn as_tree_entry(&self) -> &TreeEntry {
        self
    }

    fn path(&self) -> &str {
        self.at.as_str()
    }

    fn into_path(self) -> String {
        self.at.into_string()
    }

    fn root_relative_paths(&self) -> (&str, &str) {
        (self.at.root(), self.at.candidate())
    }

    fn file_type(&self) -> FileType {
        self.kind
    }

    fn depth(&self) -> usize {
        self.depth
    }
}
