//! The texts that globs are matched against.
ghost use Rattle.std.specs.Prelude.{◌≡◌, ℕ, List, Some, IfOk, chars, encode_utf8_all, nat_eq};
ghost use Rattle.std.specs.{Cmp.partial_equiv_from_equiv, Cmp.Lexicographic.{pointwise, nat_list_eq_equiv}};
ghost use Rattle.std.specs.{Cow.cow_str_bytes, Fmt.debug_str, Path.path_bytes};

use crate::diagnostics::NoMemory;
use std::alloc::{AllocError, Global};
use std::borrow::CowStr;
use std::convert::AsStr;
use std::fmt;
use std::marker::Model;
use std::path::Path;

/// A text that may be a path. Contracts see its characters.
#[derive(Drop)]
pub struct CandidatePath<'t> {
    text: CowStr<'t>,
}

impl<'t> Model for CandidatePath<'t> {
    ghost Value = { List ℕ };

    ghost view = { λ path. chars (cow_str_bytes path.text) };
}

impl<'t> CandidatePath<'t> {
    /// Returns the text.
    pub fn as_str(&self) -> &str
        ensures { chars result.now ≡ self.now }
    {
        self.text.as_str()
    }

    /// Converts the path into one that owns its text.
    pub fn into_owned(self, alloc: Global) -> Result<CandidatePath<'static>, NoMemory>
        ensures { IfOk result (λ path. path ≡ self.entry) }
    {
        let text = self.text.into_owned(alloc)?;
        Ok(CandidatePath {
            text: CowStr::Owned(text),
        })
    }

    /// Copies the path into one that owns its text.
    pub fn to_owned(&self, alloc: Global) -> Result<CandidatePath<'static>, NoMemory>
        ensures { IfOk result (λ copy. copy ≡ self.now) }
    {
        Ok(CandidatePath {
            text: CowStr::Owned(String::from_str(alloc, self.as_str())?),
        })
    }
}

/// Copies the path. A borrowed text is borrowed again, which doesn't allocate.
impl Clone for CandidatePath<'_> {
    ghost is_clone = { λ path copy. copy ≡ path };

    fn clone(&self) -> Result<Self, AllocError> {
        Ok(CandidatePath {
            text: self.text.clone()?,
        })
    }
}

/// Compares the texts: a path that is written in another way is another path.
impl PartialEq for CandidatePath<'_> {
    ghost eq = { pointwise nat_eq };

    ghost laws = { partial_equiv_from_equiv nat_list_eq_equiv };

    fn eq(&self, other: &Self) -> bool {
        self.as_str() == other.as_str()
    }
}

impl Eq for CandidatePath<'_> {
    ghost laws = { nat_list_eq_equiv };
}

impl AsStr for CandidatePath<'_> {
    ghost text = { encode_utf8_all };

    fn as_str(&self) -> &str {
        self.as_str()
    }
}

impl<'t> From<&'t str> for CandidatePath<'t> {
    ghost from_gives = { λ text path. path ≡ chars text.now };

    fn from(text: &'t str) -> Self {
        CandidatePath {
            text: CowStr::Borrowed(text),
        }
    }
}

impl<'t> From<Path<'t>> for CandidatePath<'t> {
    ghost from_gives = { λ text path. path ≡ chars (path_bytes text) };

    fn from(text: Path<'t>) -> Self {
        CandidatePath::from(text.as_str())
    }
}

impl fmt::Display for CandidatePath<'_> {
    ghost output = { λ path. Some (encode_utf8_all path) };

    fn fmt<W: fmt::Write>(&self, f: &mut fmt::Formatter<W>) -> fmt::Result {
        fmt::Display::fmt(AsStr::as_str(self), f)
    }
}

/// Prints the text between quotes, as `{:?}` of a `&str` does.
impl fmt::Debug for CandidatePath<'_> {
    ghost debug_output = { λ path. debug_str (encode_utf8_all path) };

    fn fmt<W: fmt::Write>(&self, f: &mut fmt::Formatter<W>) -> fmt::Result {
        fmt::Debug::fmt(&AsStr::as_str(self), f)
    }
}
