//! Paths of walks with their starts and candidates.

ghost use Rattle.std.specs.Prelude.{◌≡◌, IfOk, IfSome, string_bytes};
ghost use Rattle.wax_walk.specs.{Paths.{PathTexts, item_texts}, inner.Shared.IsShared};

use std::alloc::{AllocError, Global};
use std::marker::Model;
use wax_directory::path::{into_path, join};

/// The start and the candidate of a path.
#[derive(Drop)]
enum Texts {
    /// Parts of the path: up to the first of these bytes, and from the second on.
    Within(usize, usize),
    /// Texts of their own.
    Own(String, String),
}

/// A path with the path of the walk's start and the candidate. It is one text, unless these aren't
/// parts of the path.
#[derive(Drop)]
pub struct WalkedPath {
    path: String,
    texts: Texts,
}

impl Model for WalkedPath {
    ghost use Rattle.std.specs.Prelude.{string_bytes};
    ghost use Rattle.wax_walk.specs.{Paths.PathTexts, inner.Texts.{FitsPath, candidate_text, root_text}};

    ghost Value = { PathTexts };

    ghost view = { λ p. record {
      path = string_bytes p.path;
      root = root_text p.texts (string_bytes p.path);
      candidate = candidate_text p.texts (string_bytes p.path);
    } };

    ghost invariant = { λ p. FitsPath p.texts (string_bytes p.path) };
}

// Returns where the candidate begins in the path, if the path begins with that of the start and ends
// with the candidate.
fn shared_start(path: &str, root: &str, candidate: &str) -> Option<usize>
    ensures { IfSome result (IsShared path.now root.now candidate.now) }
{
    let (begin, _) = path.split_at_checked(root.len())?;
    let start = path.len().checked_sub(candidate.len())?;
    let (_, end) = path.split_at_checked(start)?;
    if begin == root && end == candidate {
        Some(start)
    } else {
        None
    }
}

impl WalkedPath {
    /// Puts three texts together. If the start and the candidate are parts of the path, only the
    /// path is kept.
    pub fn new(path: String, root: String, candidate: String) -> WalkedPath
        ensures { result ≡ record {
          path = string_bytes path;
          root = string_bytes root;
          candidate = string_bytes candidate;
        } }
    {
        let texts = match shared_start(path.as_str(), root.as_str(), candidate.as_str()) {
            Some(start) => Texts::Within(root.len(), start),
            None => Texts::Own(root, candidate),
        };
        WalkedPath { path, texts }
    }

    /// Builds the path of an item of a folder. It doesn't allocate if the name has room for the
    /// path, and the start and the candidate of the folder are parts of the folder's path.
    pub fn in_folder(
        alloc: Global,
        folder: &WalkedPath,
        name: String,
    ) -> Result<WalkedPath, AllocError>
        ensures { IfOk result (λ p. p ≡ item_texts folder.now (string_bytes name)) }
    {
        match &folder.texts {
            Texts::Within(root_end, start) => {
                let name_len = name.len();
                let path = into_path(name, folder.as_str())?;
                let candidate_start = if folder.candidate().is_empty() {
                    path.len() - name_len
                } else {
                    *start
                };
                Ok(WalkedPath {
                    path,
                    texts: Texts::Within(*root_end, candidate_start),
                })
            }
            Texts::Own(root, candidate) => {
                let root = root.clone()?;
                let candidate = join(alloc, candidate.as_str(), name.as_str())?;
                let path = into_path(name, folder.as_str())?;
                Ok(WalkedPath {
                    path,
                    texts: Texts::Own(root, candidate),
                })
            }
        }
    }

    /// Returns the path.
    pub fn as_str(&self) -> &str
        ensures { result.now ≡ self.now.path }
    {
        self.path.as_str()
    }

    /// Converts it into the text of the path.
    pub fn into_string(self) -> String
        ensures { string_bytes result ≡ self.path }
    {
        self.path
    }

    /// Returns the path of the walk's start.
    pub fn root(&self) -> &str
        ensures { result.now ≡ self.now.root }
    {
        match &self.texts {
            Texts::Within(end, _) => &self.path.as_str()[..*end],
            Texts::Own(root, _) => root.as_str(),
        }
    }

    /// Returns the candidate: the names that lead from the start to the path, with `/` between.
    pub fn candidate(&self) -> &str
        ensures { result.now ≡ self.now.candidate }
    {
        match &self.texts {
            Texts::Within(_, start) => &self.path.as_str()[*start..],
            Texts::Own(_, candidate) => candidate.as_str(),
        }
    }
}

/// Copies the texts.
impl Clone for WalkedPath {
    ghost use Rattle.std.specs.Prelude.{◌≡◌};

    ghost is_clone = { λ path copy. copy ≡ path };

    fn clone(&self) -> Result<Self, AllocError> {
        let texts = match &self.texts {
            Texts::Within(end, start) => Texts::Within(*end, *start),
            Texts::Own(root, candidate) => Texts::Own(root.clone()?, candidate.clone()?),
        };
        Ok(WalkedPath {
            path: self.path.clone()?,
            texts,
        })
    }
}
