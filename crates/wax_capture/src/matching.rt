//! Matching texts with captures.
ghost use Rattle.std.specs.Prelude.{◌+◌, ◌*◌, ◌<◌, ◌≤◌, false, IfOk, IfSome, MatchOption, chars, length};
ghost use Rattle.wax_query.specs.{Outcome.MatchBuild, Matched.cube_visits};
ghost use Rattle.wax_token.specs.{Cost.costs, Meaning.MeansEach, Reads.Span, Syntax.Trees, Words.trees};
ghost use Rattle.wax_capture.specs.{Matched.{AreOnly, AreSpans, IsMatched, square_visits}, Pieces.ArePieces};

use crate::build::pieces_of;
use crate::bytes::{to_bytes, to_spans};
use crate::piece::Piece;
use crate::size::size_of_all;
use crate::split::split;
use std::alloc::Global;
use std::marker::Model;
use wax_lengths::{Text, Visits};
use wax_match::encode::CompileError;
use wax_query::diagnostics::{NoMemory, Refusal};
use wax_query::matching::MatchedText;
use wax_token::token::Token;

/// What is known of each top-level token of a glob for matching with captures: which pieces of a
/// text it can take, which of them is chosen, and what is captured of it. Doesn't keep the tokens.
pub struct Pieces {
    pieces: Vec<Piece>,
    /// The sum of the forms' sizes, or less if 64 bits can't hold it. It bounds the visits of a
    /// trial.
    size: usize,
}

// Written out, so that crates that drop pieces don't have to prove again how their programs are
// dropped.
impl Drop for Pieces {
    fn drop(self) {
        let Pieces { pieces: _, size: _ } = self;
    }
}

impl Model for Pieces {
    ghost use Rattle.std.specs.{Prelude.{List, ◌≤◌}, Coded.coded_list};
    ghost use Rattle.wax_capture.specs.{declared.piece.Piece.Piece, inner.Splits.all_sizes};
    ghost use Rattle.wax_capture.specs.contracts.piece.Piece as piece;

    ghost Value = { List Piece };

    ghost coded = { coded_list piece.the_row.coded };

    ghost view = { λ p. p.pieces.items };

    ghost invariant = { λ p. p.size ≤ all_sizes p.pieces.items };
}

/// How often a trial may look at each character of a text, times the sizes of all forms.
const OFTEN: usize = 8;

/// Returns how many visits a trial may take for a text of `len` characters.
fn limit(size: usize, len: usize) -> usize
    ensures { result ≤ size * ((len + 1) * (len + 1)) }
{
    let side = len.saturating_add(1);
    size.saturating_mul(side.saturating_mul(side.min(OFTEN)))
}

impl Pieces {
    /// Builds the pieces of tokens one after another, with nothing around them. Takes time and
    /// memory linear in the tokens and their cost.
    ///
    /// # Errors
    ///
    /// Returns `Refusal::Refused` only if the cost of the tokens plus 1 exceeds 1,048,576 (error
    /// 9), and `Refusal::Memory` if allocation fails.
    pub fn new<'t, A>(
        alloc: Global,
        tokens: &[Token<'t, A>],
    ) -> Result<Pieces, Refusal<CompileError>>
        ensures { MatchBuild result (ArePieces (trees tokens.now) false false)
            (λ _. 1048576 < costs (trees tokens.now) + 1) }
    {
        match pieces_of(alloc, tokens) {
            Ok(pieces) => {
                let size = size_of_all(pieces.as_slice());
                Ok(Pieces { pieces, size })
            }
            Err(refusal) => Err(refusal),
        }
    }

    /// Returns the text with its captures, or `None` if the tokens don't match it, and the number
    /// of visits, which is at least the number of characters if the tokens match. Takes memory
    /// proportional to the number of tokens times that of characters.
    #[inline(never)]
    pub fn matched_counted<'p>(
        &self,
        alloc: Global,
        text: &'p str,
    ) -> Result<(Option<MatchedText<'p>>, u128), NoMemory>
        ensures matched { (ts : Trees Span) → ArePieces ts false false self.now
            → IfOk result (λ answer. IsMatched ts (chars text.now) answer.0) }
        ensures only { (ts : Trees Span) → ArePieces ts false false self.now
            → IfOk result (λ answer. AreOnly ts (chars text.now) answer.0) }
        ensures square { (ts : Trees Span) → ArePieces ts false false self.now
            → IfOk result (λ answer. answer.1 ≤ square_visits ts (chars text.now)) }
        ensures above { (ts : Trees Span) → ArePieces ts false false self.now
            → IfOk result (λ answer. answer.1 ≤ cube_visits (costs ts + 1) (chars text.now)) }
        ensures below { IfOk result (λ answer. IfSome answer.0 (λ _. length (chars text.now) ≤ answer.1)) }
    {
        let mut visits = Visits::new();
        let characters = Text::new(alloc, text)?;
        let found = split(
            alloc,
            self.pieces.as_slice(),
            &characters,
            limit(self.size, characters.len()),
            &mut visits,
        )?;
        let Some(parts) = found else {
            return Ok((None, visits.count()));
        };
        visits.add_text(&characters);
        let captures = to_bytes(alloc, text, &characters, parts)?;
        Ok((Some(MatchedText::new(text, captures)), visits.count()))
    }
    /// Returns where the captures lie in the text, each as its first byte and its number of bytes, or
    /// `None` if the tokens don't match the text. Takes as many visits as `matched_counted`, and memory
    /// proportional to the number of tokens times that of characters.
    #[inline(never)]
    pub fn spans(&self, alloc: Global, text: &str) -> Result<Option<Vec<(usize, usize)>>, NoMemory>
        ensures { (ts : Trees Span) → ArePieces ts false false self.now
            → IfOk result (λ found. MatchOption found (MeansEach ts false false (chars text.now) → ⊥)
            (λ spans. AreSpans ts text.now spans.items)) }
    {
        let characters = Text::new(alloc, text)?;
        let found = split(
            alloc,
            self.pieces.as_slice(),
            &characters,
            limit(self.size, characters.len()),
            &mut Visits::new(),
        )?;
        let Some(parts) = found else {
            return Ok(None);
        };
        let places = to_bytes(alloc, text, &characters, parts)?;
        Ok(Some(to_spans(alloc, places.as_slice())?))
    }
}
