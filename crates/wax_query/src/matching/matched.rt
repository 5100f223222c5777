//! What a match captures.
ghost use Rattle.std.specs.Prelude.{◌≡◌, [], MatchOption, IfOk, None, Some, chars, map, slice_get};
ghost use Rattle.std.specs.List.{All};
ghost use Rattle.wax_query.specs.{Matched.texts, Parts.{IsPart, cut}};

use crate::diagnostics::NoMemory;
use crate::matching::candidate::CandidatePath;
use std::alloc::{AllocError, Global};
use std::borrow::CowStr;
use std::marker::Model;

/// A text that matched, and its captures. Contracts see the characters of the text and of the
/// captures.
#[derive(Debug, Drop)]
pub struct MatchedText<'t> {
    text: CowStr<'t>,
    /// The start and the end of each capture, in bytes.
    captures: Vec<(usize, usize)>,
}

impl<'t> Model for MatchedText<'t> {
    ghost use Rattle.std.specs.{Prelude.map, List.All, Str.chars, Cow.cow_str_bytes};
    ghost use Rattle.wax_query.specs.{Matched.{MatchedView, matched_code}, Parts.{cut, IsPart}};

    ghost Value = { MatchedView };

    ghost coded = { matched_code };

    ghost view = { λ m. record {
      text = chars (cow_str_bytes m.text);
      captures = map (cut (cow_str_bytes m.text)) m.captures.items;
    } };

    ghost invariant = { λ m. All (IsPart (cow_str_bytes m.text)) m.captures.items };
}

impl<'t> MatchedText<'t> {
    /// Builds a match from a text and its captures, each as the place of its first byte and the
    /// place after its last.
    pub fn new(text: &'t str, captures: Vec<(usize, usize)>) -> MatchedText<'t>
        requires { All (IsPart text.now) captures.items }
        ensures text { result.text ≡ chars text.now }
        ensures captures { result.captures ≡ map (cut text.now) captures.items }
    {
        MatchedText {
            text: CowStr::Borrowed(text),
            captures,
        }
    }

    /// Builds a match without captures. It doesn't allocate.
    pub fn whole(alloc: Global, text: &'t str) -> MatchedText<'t>
        ensures text { result.text ≡ chars text.now }
        ensures captures { result.captures ≡ [] }
    {
        MatchedText::new(text, Vec::new(alloc))
    }

    /// Returns the whole text.
    pub fn complete(&self) -> &str
        ensures { chars result.now ≡ self.now.text }
    {
        self.text.as_str()
    }

    /// Returns the whole text for 0, the captures in order from 1 on, and `None` after the last.
    pub fn get(&self, index: usize) -> Option<&str>
        ensures { MatchOption result (slice_get (texts self.now) index ≡ None)
            (λ part. slice_get (texts self.now) index ≡ Some (chars part.now)) }
    {
        if index == 0 {
            return Some(self.complete());
        }
        let (start, end) = *self.captures.get(index - 1)?;
        Some(&self.text.as_str()[start..end])
    }

    /// Returns the whole text as a path.
    pub fn to_candidate_path(&self) -> CandidatePath<'_>
        ensures { result ≡ self.now.text }
    {
        CandidatePath::from(self.complete())
    }

    /// Converts the match into one that owns its text.
    pub fn into_owned(self, alloc: Global) -> Result<MatchedText<'static>, NoMemory>
        ensures { IfOk result (λ m. m ≡ self.entry) }
    {
        let MatchedText { text, captures } = self;
        let text = CowStr::Owned(text.into_owned(alloc)?);
        Ok(MatchedText { text, captures })
    }

    /// Copies the match into one that owns its text.
    pub fn to_owned(&self, alloc: Global) -> Result<MatchedText<'static>, NoMemory>
        ensures { IfOk result (λ m. m ≡ self.now) }
    {
        let captures = self.captures.clone()?;
        let text = CowStr::Owned(String::from_str(alloc, self.text.as_str())?);
        Ok(MatchedText { text, captures })
    }
}

/// Copies the match. A borrowed text is borrowed again.
impl Clone for MatchedText<'_> {
    ghost is_clone = { λ m copy. copy ≡ m };

    fn clone(&self) -> Result<Self, AllocError> {
        Ok(MatchedText {
            text: self.text.clone()?,
            captures: self.captures.clone()?,
        })
    }
}
