//! Needles: texts that others begin with, end with, or contain.
ghost use Rattle.std.specs.Prelude.{◌≡◌, ℕ, IsTrue, IfOk, IfSome, List, [], ◌∷◌, ◌++◌, chars, true, false};
ghost use Rattle.std.specs.Str.{IsUtf8};
ghost use Rattle.wax_token.specs.Meaning.{SameText};
ghost use Rattle.wax_prefilter.specs.{Facts.ContainsAt, declared.needle.Anchor.Anchor};
ghost use Rattle.wax_prefilter.specs.{inner.Ends.{ComesBefore, EndsWith}, inner.Neighbors.AreNeighbors};
ghost use Rattle.wax_prefilter.specs.inner.Pairs.{IsPairOf};

use crate::any_case::{ascii_forms_len, begins_in_any_case, contains_in_any_case};
use crate::line_end::{EndPair, is_end};
use crate::neighbors::{Neighbors, may_contain};
use crate::pair::Pair;
use std::alloc::{AllocError, Global};
use std::marker::Model;

/// Where in a text a needle is.
#[derive(Clone, Copy)]
pub enum Anchor {
    Beginning,
    End,
    Anywhere,
}

/// A text that is searched for in others, exactly or in any case. Contracts see whether in any
/// case, and its characters.
#[derive(Drop)]
pub struct Needle {
    text: String,
    is_case_insensitive: bool,
}

impl Model for Needle {
    ghost use Rattle.std.specs.Prelude.{Bool, List, ℕ, chars, string_bytes};

    ghost Value = { Bool × List ℕ };

    ghost view = { λ n. (n.is_case_insensitive, chars (string_bytes n.text)) };
}

impl Needle {
    pub fn new(alloc: Global, text: &str, is_case_insensitive: bool) -> Result<Self, AllocError>
        ensures { IfOk result (λ n. n ≡ (is_case_insensitive, chars text.now)) }
    {
        Ok(Needle {
            text: String::from_str(alloc, text)?,
            is_case_insensitive,
        })
    }

    /// Returns whether the needle is searched for in any case.
    pub fn is_case_insensitive(&self) -> bool {
        self.is_case_insensitive
    }

    /// Returns `false` only if a text with these neighbors doesn't contain the needle. Always returns
    /// `true` for a needle in any case.
    #[inline]
    pub fn may_be_among(&self, neighbors: &Neighbors) -> bool
        ensures { (text : List ℕ) → IsUtf8 text → AreNeighbors text neighbors.now
            → ContainsAt Anchor.Anywhere self.now (chars text) → IsTrue result }
    {
        self.is_case_insensitive || may_contain(neighbors, self.text.as_str().as_bytes())
    }

    /// Returns the number of bytes.
    pub fn len(&self) -> usize {
        self.text.len()
    }

    /// Returns whether the needle has at most two bytes.
    pub fn is_short(&self) -> bool {
        self.text.len() <= 2
    }

    /// Returns a pair, perhaps in any case, that each text has which has the needle anywhere: the two
    /// rarest bytes of the needle. For a needle in any case, looks only at the bytes before the first
    /// that has forms past ASCII. Returns `None` if there are fewer than two, or if the needle is
    /// searched for in any case and the pair isn't.
    pub fn rarest_pair(&self, in_any_case: bool) -> Option<Pair>
        ensures { IfSome result (IsPairOf self.now in_any_case) }
    {
        let bytes = self.text.as_str().as_bytes();
        if !self.is_case_insensitive {
            let (_, pair) = Pair::rarest_of(bytes, in_any_case)?;
            return Some(pair);
        }
        if !in_any_case {
            return None;
        }
        let (_, pair) = Pair::rarest_of(&bytes[..ascii_forms_len(bytes)], true)?;
        Some(pair)
    }

    /// Returns a pair that is found before the end of all lines that have the needle at their end.
    /// Returns `None` if the needle has fewer than two bytes, or is searched for in any case.
    pub fn end_pair(&self) -> Option<EndPair>
        ensures { IfSome result (λ end. ComesBefore end (self.now ∷ [])) }
    {
        if self.is_case_insensitive {
            return None;
        }
        EndPair::of(self.text.as_str().as_bytes())
    }

    /// Returns whether the text may have the needle at the anchor. Always returns `true` for a
    /// needle in any case at the end.
    #[inline]
    pub fn may_be_at(&self, anchor: Anchor, text: &str) -> bool
        ensures { ContainsAt anchor self.now (chars text.now) → IsTrue result }
    {
        match anchor {
            Anchor::Beginning => self.begins(text),
            Anchor::End => self.ends(text),
            Anchor::Anywhere => self.may_be_in(text),
        }
    }

    /// Returns whether the bytes may have the needle at their end. Always returns `true` for a needle
    /// in any case.
    #[inline]
    pub fn is_at_end(&self, bytes: &[u8]) -> bool
        ensures { EndsWith self.now bytes.now → IsTrue result }
    {
        self.is_case_insensitive || is_end(self.text.as_str().as_bytes(), bytes)
    }

    fn begins(&self, text: &str) -> bool
        ensures { (x y : List ℕ) → chars text.now ≡ x ++ y
            → SameText self.now.0 self.now.1 x → IsTrue result }
    {
        let beginning = self.text.as_str();
        if self.is_case_insensitive {
            return begins_in_any_case(text, beginning);
        }
        text.as_bytes().starts_with(beginning.as_bytes())
    }

    fn ends(&self, text: &str) -> bool
        ensures { (x y : List ℕ) → chars text.now ≡ x ++ y
            → SameText self.now.0 self.now.1 y → IsTrue result }
    {
        self.is_case_insensitive || text.as_bytes().ends_with(self.text.as_str().as_bytes())
    }

    fn may_be_in(&self, text: &str) -> bool
        ensures { (x y z : List ℕ) → chars text.now ≡ x ++ (y ++ z)
            → SameText self.now.0 self.now.1 y → IsTrue result }
    {
        let held = self.text.as_str();
        if self.is_case_insensitive {
            return contains_in_any_case(text, held);
        }
        text.contains(held)
    }
}

/// Returns the number of bytes of the shortest of the needles, or the greatest number if there is
/// none.
pub fn least_len(needles: &[Needle]) -> usize {
    let mut least = usize::MAX;
    for needle in needles {
        least = least.min(needle.len());
    }
    least
}
