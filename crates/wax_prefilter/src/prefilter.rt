//! The test of a text before it is matched.
ghost use Rattle.std.specs.Prelude.{◌≡◌, ◌≤◌, ℕ, List, [], ◌∷◌, ◌++◌, IsTrue, IfOk, IfSome, OnOk, chars};
ghost use Rattle.std.specs.{Prelude.length, Str.IsUtf8};
ghost use Rattle.wax_token.specs.Words.{trees};
ghost use Rattle.wax_prefilter.specs.{Facts.{ContainsOne, PassesFacts}, Known.MatchesPass};
ghost use Rattle.wax_prefilter.specs.inner.Ends.{ComesBefore, IsOfFirst, NoneEndsBefore};
ghost use Rattle.wax_prefilter.specs.inner.Pairs.{ArePairsOf, LineHasOne};

use crate::facts::all_facts;
use crate::least::least_of_each;
use crate::line_end::{EndPair, FEED, find_line_end};
use crate::literals::may_contain_one;
use crate::needle::{Anchor, Needle};
use crate::pair::SoughtPairs;
use std::alloc::{AllocError, Global};
use std::marker::Model;
use wax_query::diagnostics::NoMemory;
use wax_token::token::{ExpressionMetadata, Token};

/// The greatest number of pairs that are searched for, and of needles for which ends are tested.
const MOST_PAIRS: usize = 8;

/// The greatest number of pairs that are searched for in any case, which takes longer.
const MOST_PAIRS_IN_ANY_CASE: usize = 4;

/// The greatest number of texts that are searched for in less time than a matcher takes.
const FEW_NEEDLES: usize = 4;

/// A fact about matching texts: each has one of the needles there. Contracts see both as a
/// pair.
#[derive(Drop)]
pub struct Fact {
    anchor: Anchor,
    needles: Vec<Needle>,
}

impl Model for Fact {
    ghost use Rattle.wax_prefilter.specs.Facts.{FactView};

    ghost Value = { FactView };

    ghost view = { λ f. (f.anchor, f.needles.items) };
}

impl Fact {
    /// Appends a fact.
    pub fn add(
        facts: &mut Vec<Fact>,
        anchor: Anchor,
        needles: Vec<Needle>,
    ) -> Result<(), AllocError>
        ensures { OnOk result (facts.new.items ≡ facts.old.items ++ (anchor, needles.items) ∷ []) }
    {
        facts.push(Fact { anchor, needles })?;
        Ok(())
    }

    /// Returns whether the fact takes long to test, for what it rejects: it needs a search for more
    /// than a few texts, or one of the whole text for a short text or in any case.
    fn takes_long(&self) -> bool {
        if self.needles.len() > FEW_NEEDLES {
            return true;
        }
        match (self.anchor, self.needles.first()) {
            (Anchor::Anywhere, Some(needle)) => needle.is_case_insensitive() || needle.is_short(),
            _ => false,
        }
    }

    /// Returns a pair that is found before the end of all lines for which the fact holds, or `None` if
    /// it isn't about ends, or has too many needles.
    fn end_pair(&self) -> Option<EndPair>
        ensures { IfSome result (λ end. (self.now.0 ≡ Anchor.End) × ComesBefore end self.now.1) }
    {
        match (self.anchor, self.needles.as_slice()) {
            (Anchor::End, [needle]) => needle.end_pair(),
            (Anchor::End, needles) if needles.len() <= MOST_PAIRS => Some(FEED),
            _ => None,
        }
    }

    /// Returns pairs of which each text that has a needle has one: one pair for each needle, in any case
    /// if a needle is. Returns `None` if they aren't known or are too many.
    fn pairs(&self, alloc: Global) -> Result<Option<SoughtPairs>, AllocError>
        ensures { IfOk result (λ known. IfSome known (λ pairs. (text : List ℕ) → IsUtf8 text
            → ContainsOne self.now.0 self.now.1 (chars text)
            → LineHasOne pairs.in_any_case pairs.list.items text)) }
    {
        let in_any_case = self
            .needles
            .iter()
            .any(|needle| needle.is_case_insensitive());
        let most = if in_any_case {
            MOST_PAIRS_IN_ANY_CASE
        } else {
            MOST_PAIRS
        };
        if self.needles.len() > most {
            return Ok(None);
        }
        let mut pairs = Vec::new(alloc);
        for needle in &self.needles {
            let Some(pair) = needle.rarest_pair(in_any_case) else {
                return Ok(None);
            };
            pairs.push(pair)?;
        }
        Ok(Some(SoughtPairs {
            list: pairs,
            in_any_case,
        }))
    }

    /// Returns a position before which no line feed comes after one of the needles. The line feed is given
    /// as it is, so that the search for it is compiled by itself.
    #[inline(never)]
    fn find_line_end(&self, end: EndPair, bytes: &[u8]) -> usize
        requires { ComesBefore end self.now.1 }
        ensures before { NoneEndsBefore self.now.1 bytes.now result }
        ensures inside { result ≤ length bytes.now }
    {
        if end.is_feed() {
            find_line_end(FEED, &self.needles, bytes)
        } else {
            find_line_end(end, &self.needles, bytes)
        }
    }

    fn may_hold(&self, text: &str, at_once: bool) -> bool
        ensures { ContainsOne self.now.0 self.now.1 (chars text.now) → IsTrue result }
    {
        if at_once && self.takes_long() {
            return true;
        }
        match self.anchor {
            Anchor::Anywhere if self.needles.len() > FEW_NEEDLES => may_contain_one(
                &self.needles,
                text,
            ),
            anchor => one_may_be_at(&self.needles, anchor, text),
        }
    }
}

/// Returns whether one of the needles is at the anchor.
fn one_may_be_at(needles: &[Needle], anchor: Anchor, text: &str) -> bool
    ensures { ContainsOne anchor needles.now (chars text.now) → IsTrue result }
{
    for needle in needles {
        if needle.may_be_at(anchor, text) {
            return true;
        }
    }
    false
}

/// Returns pairs of which each text has one that the facts hold of: those of the fact with the
/// fewest. Returns `None` if no fact has any.
fn fewest_pairs(alloc: Global, facts: &[Fact]) -> Result<Option<SoughtPairs>, AllocError>
    ensures { IfOk result (λ known. IfSome known (λ pairs. ArePairsOf facts.now pairs)) }
{
    let mut fewest: Option<SoughtPairs> = None;
    for fact in facts {
        let Some(pairs) = fact.pairs(alloc)? else {
            continue;
        };
        match &fewest {
            Some(others) if others.list.len() <= pairs.list.len() => {}
            _ => fewest = Some(pairs),
        }
    }
    Ok(fewest)
}

/// Returns a pair that is found before the end of all lines for which the first fact holds, if it is
/// about ends. Returns `None` if another fact has fewer pairs than this one has needles.
fn end_of(facts: &[Fact], pairs: &Option<SoughtPairs>) -> Option<EndPair>
    ensures { IfSome result (IsOfFirst facts.now) }
{
    let fact = facts.first()?;
    match pairs {
        Some(pairs) if pairs.list.len() < fact.needles.len() => None,
        _ => fact.end_pair(),
    }
}

/// Facts about all texts that some tokens match: their least length, and how they begin, how they
/// end and what they contain. Keeps at most 16 facts, each of at most 256 texts, and no tokens.
/// Contracts see the least length in characters, and the facts.
#[derive(Drop)]
pub struct Prefilter {
    least: usize,
    facts: Vec<Fact>,
    /// Pairs of which each of the texts has one, if they are known.
    pairs: Option<SoughtPairs>,
    /// A pair that is found before the end of each of them, if the first fact is about ends.
    end: Option<EndPair>,
}

impl Model for Prefilter {
    ghost use Rattle.std.specs.Prelude.{IfSome};
    ghost use Rattle.wax_prefilter.specs.{Facts.PrefilterView, inner.Ends.IsOfFirst, inner.Pairs.ArePairsOf};

    ghost Value = { PrefilterView };

    ghost view = { λ p. (p.least, p.facts.items) };

    ghost invariant = { λ p. IfSome p.pairs (ArePairsOf p.facts.items)
        × IfSome p.end (IsOfFirst p.facts.items) };
}

impl Prefilter {
    /// Collects facts about all texts that the tokens match, one after another. Takes time and
    /// memory linear in the tokens and their literals.
    pub fn new<'t>(
        alloc: Global,
        tokens: &[Token<'t, ExpressionMetadata>],
    ) -> Result<Prefilter, NoMemory>
        ensures { IfOk result (MatchesPass (trees tokens.now)) }
    {
        let facts = all_facts(alloc, tokens)?;
        let pairs = fewest_pairs(alloc, &facts)?;
        let end = end_of(&facts, &pairs);
        Ok(Prefilter {
            least: least_of_each(tokens),
            facts,
            pairs,
            end,
        })
    }

    /// Returns `false` only if the tokens can't match the text. Doesn't allocate. For each fact and
    /// each of its texts, takes time proportional to the text; a search in any case may take that
    /// for each character of the text that is searched for.
    pub fn may_match(&self, text: &str) -> bool
        ensures { PassesFacts self.now (chars text.now) → IsTrue result }
    {
        self.passes(text, false)
    }

    /// Tests the text as `may_match` does, but skips facts that need a search for more than four
    /// texts, for a text of one or two bytes, or in any case. This is better if a match takes less
    /// time than such a search.
    pub fn may_match_quickly(&self, text: &str) -> bool
        ensures { PassesFacts self.now (chars text.now) → IsTrue result }
    {
        self.passes(text, true)
    }

    /// Returns how many bytes at the beginning of a text can be passed over in a search for lines
    /// that the tokens match: none of them ends before so many bytes. Doesn't allocate. Takes time
    /// proportional to the result.
    pub fn earliest_end(&self, text: &str) -> usize
        ensures { (x y z : List ℕ) → text.now ++ 10 ∷ [] ≡ x ++ (y ++ 10 ∷ z) → IsUtf8 y
            → PassesFacts self.now (chars y) → result ≤ length (x ++ y) }
    {
        let bytes = text.as_bytes();
        if let (Some(end), Some(fact)) = (self.end, self.facts.first()) {
            return fact.find_line_end(end, bytes);
        }
        match &self.pairs {
            Some(pairs) => pairs.find_first(bytes),
            None => 0,
        }
    }

    fn passes(&self, text: &str, at_once: bool) -> bool
        ensures { PassesFacts self.now (chars text.now) → IsTrue result }
    {
        if text.len() < self.least {
            return false;
        }
        for fact in &self.facts {
            if !fact.may_hold(text, at_once) {
                return false;
            }
        }
        true
    }
}
