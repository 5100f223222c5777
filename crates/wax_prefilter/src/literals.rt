//! Literals of which each text that one of many patterns matches contains at least one.
ghost use Rattle.std.specs.Prelude.{ℕ, IfOk, IfSome, IsTrue, List, OnOk, chars, false};
ghost use Rattle.wax_token.specs.{Meaning.{Means, MeansEach}, Words.trees};
ghost use Rattle.wax_prefilter.specs.{Facts.ContainsOne, Known.EachContainsOne, Literals.MayPass};
ghost use Rattle.wax_prefilter.specs.declared.needle.Anchor.TheVariants.{Anywhere};

use crate::facts::{MOST_NEEDLES, needles_of};
use crate::needle::{Anchor, Needle, least_len};
use crate::neighbors::neighbors_of;
use std::alloc::{AllocError, Global};
use std::marker::Model;
use wax_query::diagnostics::NoMemory;
use wax_token::token::{ExpressionMetadata, Token};

/// Literals of some patterns: each text that one of the patterns matches contains at least one of
/// these. At most 256 are kept. If the patterns have more, or one has none, nothing is known of them.
/// Contracts see whether something is known, and the literals.
#[derive(Drop)]
pub struct Literals {
    is_known: bool,
    needles: Vec<Needle>,
}

impl Model for Literals {
    ghost use Rattle.wax_prefilter.specs.Literals.{LiteralsView};

    ghost Value = { LiteralsView };

    ghost view = { λ l. (l.is_known, l.needles.items) };
}

impl Literals {
    /// Begins with the literals of no pattern, so that no text passes.
    pub fn new(alloc: Global) -> Literals {
        Literals {
            is_known: true,
            needles: Vec::new(alloc),
        }
    }

    /// Adds those of a pattern: of the tokens that follow one another in it, those of the token whose
    /// shortest literal is longest. Takes time proportional to the pattern's tokens and literals, and
    /// none if nothing is known.
    pub fn add<'t>(
        &mut self,
        alloc: Global,
        pattern: &Token<'t, ExpressionMetadata>,
    ) -> Result<(), NoMemory>
        ensures keeps { OnOk result ((text : List ℕ) → MayPass self.old text → MayPass self.new text) }
        ensures adds { OnOk result ((text : List ℕ)
            → Means pattern.now false false text → MayPass self.new text) }
    {
        if !self.is_known {
            return Ok(());
        }
        match longest_needles(alloc, pattern.concatenation())? {
            Some(needles) => self.append(alloc, needles)?,
            None => self.forget(alloc),
        }
        Ok(())
    }

    /// Returns `false` only if none of the patterns matches the text. Doesn't allocate. Takes time
    /// proportional to the text and to the number of literals, if the text lacks two neighboring bytes
    /// of most of these; otherwise, or if a literal is matched in any case, to their product.
    pub fn may_match(&self, text: &str) -> bool
        ensures { MayPass self.now (chars text.now) → IsTrue result }
    {
        !self.is_known || may_contain_one(&self.needles, text)
    }

    // Adds needles, unless there are too many then.
    fn append(&mut self, alloc: Global, mut needles: Vec<Needle>) -> Result<(), AllocError>
        ensures keeps { OnOk result ((text : List ℕ) → MayPass self.old text → MayPass self.new text) }
        ensures adds { OnOk result ((text : List ℕ)
            → ContainsOne Anywhere needles.items text → MayPass self.new text) }
    {
        self.needles.append(&mut needles)?;
        if self.needles.len() > MOST_NEEDLES {
            self.forget(alloc);
        }
        Ok(())
    }

    // Drops all that is known.
    fn forget(&mut self, alloc: Global)
        ensures { (text : List ℕ) → MayPass self.new text }
    {
        *self = Literals {
            is_known: false,
            needles: Vec::new(alloc),
        };
    }
}

// Returns the needles of the token whose shortest one is longest, if any are known.
fn longest_needles<'t>(
    alloc: Global,
    tokens: &[Token<'t, ExpressionMetadata>],
) -> Result<Option<Vec<Needle>>, NoMemory>
    ensures { IfOk result (λ known. IfSome known (λ v.
        EachContainsOne Anywhere v.items (MeansEach (trees tokens.now)))) }
{
    let mut longest = None;
    let mut greatest = 0;
    for token in tokens {
        let Some(needles) = needles_of(alloc, Anchor::Anywhere, token)? else {
            continue;
        };
        let len = least_len(&needles);
        if len > greatest {
            longest = Some(needles);
            greatest = len;
        }
    }
    Ok(longest)
}

/// Returns `false` only if the text contains none of the needles. Takes less time than a search for each
/// of them, if there are more than a few.
pub fn may_contain_one(needles: &[Needle], text: &str) -> bool
    ensures { ContainsOne Anywhere needles.now (chars text.now) → IsTrue result }
{
    let neighbors = neighbors_of(text.as_bytes());
    for needle in needles {
        if needle.may_be_among(&neighbors) && needle.may_be_at(Anchor::Anywhere, text) {
            return true;
        }
    }
    false
}
