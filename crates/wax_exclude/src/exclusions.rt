//! Patterns that are excluded from a walk.
ghost use Rattle.std.specs.Prelude.{◌≡◌, ◌↔◌, ◌<◌, ◌≤◌, ◌+◌, ℕ, IfOk, IsTrue, List, false, length};
ghost use Rattle.wax_facts.specs.Alternatives.{alternatives};
ghost use Rattle.wax_query.specs.{Outcome.MatchBuild, Below.IsBelow};
ghost use Rattle.wax_token.specs.{Cost.program_length, Meaning.{Means, MeansSome}, Words.{members, trees}};
ghost use Rattle.wax_exclude.specs.Candidates.{NoSlashAfterNames, folder_at};
ghost use Rattle.wax_exclude.specs.Covers.{CoversSome, ends_wild, is_everything, is_unrooted};
ghost use Rattle.wax_exclude.specs.Length.{alternatives_length};
ghost use Rattle.wax_lazy.specs.Cost.{path_visits};
ghost use Rattle.wax_walk.specs.Given.{with_tree};

use crate::folders::{folder_candidate, is_tree};
use crate::numbers::NumberedLines;
use crate::rules::IgnoreLine;
use std::alloc::Global;
use std::marker::Model;
use std::slice;
use wax_match::encode::{CompileError, Meter};
use wax_prefilter::Prefilter;
use wax_query::diagnostics::{NoMemory, Refusal};
use wax_query::matching::CandidatePath;
use wax_token::token::{ExpressionMetadata, LeafKind, Token, Wildcard};
use wax_walk::{Candidate, EntryResidue, Exclude};

/// How many bytes may be kept of earlier entries at least.
const LEAST_BYTES: usize = 2_097_152;

/// A pattern that is excluded from a walk, as a rule. It excludes each entry that the pattern
/// matches: with everything below it if an alternative covers the entry, and otherwise by itself.
/// An alternative that is only an unrooted `**` covers everything. One that ends with `**` covers
/// what it matches, except for the start of the walk. Contracts see the alternatives.
pub struct Exclusion {
    /// The pattern, as the only line of an ignore list.
    line: IgnoreLine,
    /// What this line decides.
    numbered: NumberedLines,
    /// What is known of all texts that the pattern matches.
    prefilter: Prefilter,
}

// Written out, so that a crate that drops these needn't prove again how their tokens are dropped.
impl Drop for Exclusion {
    fn drop(self) {
        let Exclusion {
            line: _,
            numbered: _,
            prefilter: _,
        } = self;
    }
}

impl Model for Exclusion {
    ghost use Rattle.std.specs.Prelude.{List};
    ghost use Rattle.wax_token.specs.{Reads.Span, Syntax.Tree};
    ghost use Rattle.wax_facts.specs.Alternatives.{alternatives};
    ghost use Rattle.wax_exclude.specs.{Compiled.row_code, inner.Numbers.KnowsPattern};

    ghost Value = { List (Tree Span) };

    ghost coded = { row_code };

    ghost view = { λ e. alternatives e.line.glob };

    ghost invariant = { λ e. KnowsPattern e.line e.numbered e.prefilter };
}

impl Exclusion {
    ghost use Rattle.wax_exclude.specs.Marks.{not_mark};

    /// Builds the rule from a pattern's token. It takes time and memory in proportion to the tokens
    /// and their cost.
    ///
    /// # Errors
    ///
    /// Returns a `CompileError` (9) if the program would have more than 1,048,576 instructions, and
    /// `Refusal::Memory` (10) if allocation fails.
    pub fn new(
        alloc: Global,
        pattern: Token<'static, ExpressionMetadata>,
    ) -> Result<Exclusion, Refusal<CompileError>>
        ensures alternatives { IfOk result (λ e. e ≡ alternatives pattern.entry) }
        ensures says { IfOk result (λ e. ⟦<Exclusion as Exclude>⟧.rule e ≡ not_mark pattern.entry) }
        ensures fits { MatchBuild result (λ _. program_length pattern.entry ≤ 1048576)
            (λ _. 1048576 < program_length pattern.entry) }
        ensures length { IfOk result (λ e. alternatives_length e ≤ program_length pattern.entry + 3) }
    {
        let line = match IgnoreLine::new(true, pattern) {
            Ok(line) => line,
            Err(error) => return Err(Refusal::Refused(error)),
        };
        let prefilter = Prefilter::new(alloc, line.glob().concatenation())?;
        let numbered = NumberedLines::new(alloc, slice::from_ref(&line), LEAST_BYTES)?;
        Ok(Exclusion {
            line,
            numbered,
            prefilter,
        })
    }

    /// Returns whether an alternative of the pattern covers the folder with this path, so that everything
    /// below it is excluded. For the start of a walk, which has no name, only an unrooted `**` does.
    ///
    /// If it returns false, everything below may still be excluded, each entry by itself, as by
    /// `**/*`. If a `/` follows the last name of the path, no promise is made of what is below. It
    /// takes the time of a match for the pattern.
    ///
    /// ```
    /// use wax::walk::exclusion_of;
    ///
    /// let exclusion = exclusion_of(alloc, "target/**")?;
    /// for path in vec![in alloc; "target", "target/debug", "src", ""]? {
    ///     let is_excluded = exclusion.excludes_below(alloc, &CandidatePath::from(path))?;
    ///     println!(rt; "{is_excluded}")?; // true; true; false; false
    /// }
    /// ```
    pub fn excludes_below(&self, alloc: Global, path: &CandidatePath<'_>) -> Result<bool, NoMemory>
        ensures says { IfOk result (λ answer. IsTrue answer
            ↔ (⟦<Exclusion as Exclude>⟧.rule self.now (folder_at path.now) ≡ with_tree)) }
        ensures covers { IfOk result (λ answer. IsTrue answer ↔ CoversSome self.now (folder_at path.now)) }
        ensures below { NoSlashAfterNames path.now → IfOk result (λ answer. IsTrue answer → (s : List ℕ)
            → IsBelow path.now s → MeansSome (trees self.now) false false s) }
    {
        let mut meter = Meter::new();
        self.excludes_below_metered(alloc, path, &mut meter)
    }

    /// Returns what `excludes_below` does, and moves the meter by the number of instructions that the
    /// pattern's program visits: at most its length for each character and once more at the end, or nine
    /// times that if its length exceeds 256; and at the end at most its length once more.
    ///
    /// The length of the program is at most that of the programs of all alternatives together, with 1 more
    /// for each, and 2. That is at most 3 more than the length of the program of the whole pattern.
    pub fn excludes_below_metered(
        &self,
        alloc: Global,
        path: &CandidatePath<'_>,
        meter: &mut Meter,
    ) -> Result<bool, NoMemory>
        ensures says { IfOk result (λ answer. IsTrue answer
            ↔ (⟦<Exclusion as Exclude>⟧.rule self.now (folder_at path.now) ≡ with_tree)) }
        ensures covers { IfOk result (λ answer. IsTrue answer ↔ CoversSome self.now (folder_at path.now)) }
        ensures below { NoSlashAfterNames path.now → IfOk result (λ answer. IsTrue answer → (s : List ℕ)
            → IsBelow path.now s → MeansSome (trees self.now) false false s) }
        ensures above { let size = alternatives_length self.now in
            meter.new ≤ meter.old + path_visits size (length path.now) + size }
        ensures steady { meter.old ≤ meter.new }
    {
        let residue = self
            .numbered
            .residue_once(alloc, folder_candidate(path), meter)?;
        Ok(is_tree(residue))
    }
}

impl Exclude for Exclusion {
    ghost use Rattle.wax_exclude.specs.Excluded.{excluded_mark};

    ghost rule = { λ e c. excluded_mark e c };

    fn residue(
        &mut self,
        alloc: Global,
        candidate: Candidate<'_>,
    ) -> Result<Option<EntryResidue>, NoMemory> {
        if !self.prefilter.may_match_quickly(candidate.path) {
            return Ok(None);
        }
        let mut meter = Meter::new();
        self.numbered.residue(candidate, &mut meter)
    }
}

pub fn ends_wild<'t>(token: &Token<'t, ExpressionMetadata>) -> bool
    ensures { result ≡ ends_wild (members token.now) }
{
    match token.concatenation().last() {
        Some(last) => last.is_tree_wildcard(),
        None => false,
    }
}

/// Returns whether the token is an unrooted `**`, by itself. It matches every text.
pub fn is_everything<'t>(token: &Token<'t, ExpressionMetadata>) -> bool
    ensures value { result ≡ is_everything (members token.now) }
    ensures all { IsTrue result → (text : List ℕ) → Means token.now false false text }
{
    match token.concatenation() {
        [only] => is_unrooted(only),
        _ => false,
    }
}

fn is_unrooted<'t>(token: &Token<'t, ExpressionMetadata>) -> bool
    ensures { result ≡ is_unrooted token.now }
{
    match token.as_leaf() {
        Some(LeafKind::Wildcard(wildcard)) => {
            matches!(wildcard, Wildcard::Tree { has_root: false })
        }
        _ => false,
    }
}
