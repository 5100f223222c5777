//! What the lines of an ignore list decide, by one program over all of them.
ghost use Rattle.std.specs.Prelude.{◌≡◌, ◌↔◌, ◌⊎◌, ◌<◌, ◌≤◌, ◌+◌, ◌^◌, ◌++◌, ◌∷◌, [], ℕ, List, IfOk, IsTrue};
ghost use Rattle.std.specs.Prelude.{OnOk, Some, chars, false, if◌then◌else◌, length, map, nat_lt};
ghost use Rattle.std.specs.List.{list_any};
ghost use Rattle.wax_exclude.specs.{Covers.some_everything, declared.split.SplitLine.SplitLine};
ghost use Rattle.wax_exclude.specs.inner.Listed.{ignored_by, listed_mark};
ghost use Rattle.wax_exclude.specs.inner.Numbers.{AlternativesPass, HasMatch, IsSettledFrom, KnowsLines};
ghost use Rattle.wax_exclude.specs.inner.Numbers.{LinesPass, MatchesBy, alternatives_cost, covers_everything};
ghost use Rattle.wax_exclude.specs.inner.Numbers.{is_odd, number_after, numbered_mark, split_length};
ghost use Rattle.wax_exclude.specs.inner.Split.{split_of};
ghost use Rattle.wax_compare.specs.Selected.{CanSelect, IsSelected};
ghost use Rattle.wax_lazy.specs.{Cost.list_visits, Numbers.IsLastNumber};
ghost use Rattle.wax_match.specs.Numbered.{MeansNumbered, numbered_length};
ghost use Rattle.wax_prefilter.specs.Literals.{MayPass};
ghost use Rattle.wax_program.specs.{Closed.IsClosed, Machine.{Accepts, mark}};
ghost use Rattle.wax_walk.specs.{Candidates.in_characters, Given.{alone, with_tree}, Said.mark_of};

use crate::exclusions::{ends_wild, is_everything};
use crate::rules::IgnoreLine;
use crate::split::{SplitLine, split_lines};
use std::alloc::{AllocError, Global};
use wax_compare::{Criterion, Selector};
use wax_facts::Alternative;
use wax_lazy::{Matcher, last_number_metered};
use wax_match::encode::{CompiledProgram, Meter, Numbered, compile_numbered};
use wax_prefilter::Literals;
use wax_query::diagnostics::NoMemory;
use wax_token::token::ExpressionMetadata;
use wax_walk::{Candidate, EntryResidue};

/// How many bytes may be kept of earlier entries, for each line.
const BYTES_PER_LINE: usize = 65_536;

/// How many bytes may be kept of earlier entries at most.
const MOST_BYTES: usize = 14_680_064;

/// The alternatives of all lines as one program, which says the numbers of those that match a text:
/// the greatest one decides. Lines that follow one another and all ignore have the same odd number,
/// and those that all begin with `!` the same even one. An alternative that covers what it matches,
/// in a line after which none begins with `!`, has an odd number above all of these.
#[derive(Drop)]
pub struct NumberedLines {
    /// Accepts a text with the numbers of the alternatives that match it.
    matcher: Matcher<CompiledProgram>,
    /// The number of alternatives that cover what they match. It is odd.
    top: usize,
    /// True if such an alternative is only an unrooted `**`.
    covers_all: bool,
    /// Each path that an alternative matches contains one of these, if they are known.
    literals: Literals,
}

impl NumberedLines {
    /// Compiles the alternatives of the lines. At least `least_bytes` bytes may be kept of earlier entries.
    pub fn new(
        alloc: Global,
        lines: &[IgnoreLine],
        least_bytes: usize,
    ) -> Result<NumberedLines, NoMemory>
        ensures { IfOk result (KnowsLines (map split_of lines.now)) }
    {
        let split = split_lines(alloc, lines)?;
        Self::of_split(alloc, split.as_slice(), least_bytes)
    }

    /// Compiles the alternatives of lines that are split.
    fn of_split(
        alloc: Global,
        lines: &[SplitLine<'_>],
        least_bytes: usize,
    ) -> Result<NumberedLines, NoMemory>
        ensures { IfOk result (KnowsLines lines.now) }
    {
        let top = number_after(lines.len() + 1, true);
        let settled = settled_from(lines);
        let program = program_of(alloc, lines, settled, top)?;
        let by_lines = MOST_BYTES.min(top.saturating_mul(BYTES_PER_LINE));
        let most_bytes = least_bytes.max(by_lines);
        Ok(NumberedLines {
            matcher: Matcher::with_most(alloc, program, most_bytes),
            top,
            covers_all: covers_everything(lines, settled),
            literals: literals_of(alloc, lines)?,
        })
    }

    /// Returns what the lines exclude of an entry, with the help of what is kept of earlier ones. The meter
    /// counts the instructions that are read.
    pub fn residue(
        &mut self,
        candidate: Candidate<'_>,
        meter: &mut Meter,
    ) -> Result<Option<EntryResidue>, NoMemory>
        requires { IsClosed self.old.matcher }
        ensures same { (lines : List SplitLine) → KnowsLines lines self.old → KnowsLines lines self.new }
        ensures says { (lines : List SplitLine) → KnowsLines lines self.old
            → IfOk result (λ r. mark_of r ≡ listed_mark lines (in_characters candidate.entry)) }
        ensures above { meter.new
            ≤ meter.old + list_visits self.old.matcher (length (chars candidate.entry.path.now)) }
        ensures steady { meter.old ≤ meter.new }
    {
        let last = self.matcher.last_number_metered(candidate.path, meter)?;
        Ok(self.residue_by(last, candidate.depth))
    }

    /// Returns what `residue` does, and keeps nothing for later entries. The meter counts the instructions
    /// that are read.
    pub fn residue_once(
        &self,
        alloc: Global,
        candidate: Candidate<'_>,
        meter: &mut Meter,
    ) -> Result<Option<EntryResidue>, NoMemory>
        requires { IsClosed self.now.matcher }
        ensures says { (lines : List SplitLine) → KnowsLines lines self.now
            → IfOk result (λ r. mark_of r ≡ listed_mark lines (in_characters candidate.entry)) }
        ensures above { meter.new
            ≤ meter.old + list_visits self.now.matcher (length (chars candidate.entry.path.now)) }
        ensures steady { meter.old ≤ meter.new }
    {
        let last = self.last_once(alloc, candidate.path, meter)?;
        Ok(self.residue_by(last, candidate.depth))
    }

    /// Returns the program, which selects the paths that the lines ignore.
    pub fn selector(&self) -> Selector<'_>
        requires { IsClosed self.now.matcher }
        ensures can_select { CanSelect result.criterion result.program.now.0 }
        ensures selects { (lines : List SplitLine) → KnowsLines lines self.now → (s : List ℕ)
            → IsSelected result.criterion (Accepts result.program.now.0 0) s
            ↔ IsTrue (ignored_by false lines s) }
    {
        Selector {
            program: self.matcher.holder(),
            criterion: Criterion::OddLast,
        }
    }

    // Returns the greatest number that matches a path. Runs the program unless the path contains no
    // literal of an alternative.
    fn last_once(
        &self,
        alloc: Global,
        path: &str,
        meter: &mut Meter,
    ) -> Result<Option<usize>, AllocError>
        requires { IsClosed self.now.matcher }
        ensures last { (lines : List SplitLine) → KnowsLines lines self.now
            → IfOk result (IsLastNumber self.now.matcher (chars path.now)) }
        ensures above { meter.new ≤ meter.old + list_visits self.now.matcher (length (chars path.now)) }
        ensures steady { meter.old ≤ meter.new }
    {
        if !self.literals.may_match(path) {
            return Ok(None);
        }
        last_number_metered(alloc, self.matcher.holder(), path, meter)
    }

    // Returns what the greatest number that matches an entry excludes of it.
    fn residue_by(&self, last: Option<usize>, depth: usize) -> Option<EntryResidue>
        ensures { mark_of result ≡ numbered_mark self.now.covers_all self.now.top (nat_lt 0 depth) last }
    {
        if self.covers_all {
            return Some(EntryResidue::Tree);
        }
        match last {
            None => None,
            Some(number) if number == self.top => Some(covered(depth)),
            Some(number) if is_odd(number) => Some(EntryResidue::File),
            Some(_) => None,
        }
    }
}

// Returns what is excluded of an entry that an alternative covers if the entry has a name.
fn covered(depth: usize) -> EntryResidue
    ensures { mark_of (Some result) ≡ (if nat_lt 0 depth then with_tree else alone) }
{
    if depth > 0 {
        EntryResidue::Tree
    } else {
        EntryResidue::File
    }
}

// Compiles the alternatives of all lines, of which those from `settled` on are the last that ignore.
fn program_of(
    alloc: Global,
    lines: &[SplitLine<'_>],
    settled: usize,
    top: usize,
) -> Result<CompiledProgram, NoMemory>
    requires { IsSettledFrom lines.now settled }
    ensures closed { IfOk result (λ p. IsClosed p.0) }
    ensures means { IfOk result (λ p. (k : ℕ) (s : List ℕ)
        → Accepts p.0 0 (s ++ mark k ∷ []) ↔ HasMatch top 0 lines.now k s) }
    ensures length { IfOk result (λ p. length p.0 ≤ split_length lines.now) }
{
    let mut patterns = Vec::new(alloc);
    let mut number = 0;
    for (index, line) in lines.iter().enumerate() {
        number = number_after(number, line.ignores);
        let covering = if index >= settled { top } else { number };
        add_alternatives(
            &mut patterns,
            line.alternatives.as_slice(),
            number,
            covering,
        )?;
    }
    compile_numbered(alloc, &patterns)
}

// Adds the alternatives of a line: those that end with `**` with the number `above`, and others with
// the number `own`.
fn add_alternatives<'a>(
    patterns: &mut Vec<Numbered<'a, 'static>>,
    alternatives: &[Alternative<'a, 'static, ExpressionMetadata>],
    own: usize,
    above: usize,
) -> Result<(), AllocError>
    ensures means { IfOk result (λ _. (k : ℕ) (s : List ℕ) → MeansNumbered patterns.new.items k s
        ↔ (MeansNumbered patterns.old.items k s ⊎ MatchesBy own above alternatives.now k s)) }
    ensures length { IfOk result (λ _. numbered_length patterns.new.items
        ≡ numbered_length patterns.old.items + alternatives_cost alternatives.now) }
{
    for pattern in alternatives {
        let pattern = pattern.token();
        let number = if ends_wild(pattern) { above } else { own };
        patterns.push(Numbered { number, pattern })?;
    }
    Ok(())
}

// Returns the literals of all alternatives.
fn literals_of(alloc: Global, lines: &[SplitLine<'_>]) -> Result<Literals, NoMemory>
    ensures { IfOk result (LinesPass lines.now) }
{
    let mut literals = Literals::new(alloc);
    for line in lines {
        add_literals(alloc, line.alternatives.as_slice(), &mut literals)?;
    }
    Ok(literals)
}

// Adds the literals of the alternatives of a line.
fn add_literals(
    alloc: Global,
    alternatives: &[Alternative<'_, 'static, ExpressionMetadata>],
    literals: &mut Literals,
) -> Result<(), NoMemory>
    ensures keeps { OnOk result ((s : List ℕ) → MayPass literals.old s → MayPass literals.new s) }
    ensures adds { OnOk result (AlternativesPass alternatives.now literals.new) }
{
    for alternative in alternatives {
        literals.add(alloc, alternative.token())?;
    }
    Ok(())
}

// Returns whether one of the alternatives is only an unrooted `**`.
fn some_is_everything(alternatives: &[Alternative<'_, 'static, ExpressionMetadata>]) -> bool
    ensures { result ≡ some_everything alternatives.now }
{
    alternatives
        .iter()
        .any(|alternative| is_everything(alternative.token()))
}

// Returns the index after the last line that begins with `!`.
fn settled_from(lines: &[SplitLine<'_>]) -> usize
    ensures { IsSettledFrom lines.now result }
{
    let mut settled = lines.len();
    while settled > 0 {
        if !lines[settled - 1].ignores {
            return settled;
        }
        settled -= 1;
    }
    settled
}

// Returns whether one of the lines from `settled` on has an alternative that is only an unrooted `**`.
fn covers_everything(lines: &[SplitLine<'_>], settled: usize) -> bool
    requires { IsSettledFrom lines.now settled }
    ensures { result ≡ covers_everything lines.now }
{
    some_covers(&lines[settled..])
}

fn some_covers(lines: &[SplitLine<'_>]) -> bool
    ensures { result ≡ list_any (λ line. some_everything line.alternatives) lines.now }
{
    lines
        .iter()
        .any(|line| some_is_everything(line.alternatives.as_slice()))
}

// Returns the number of a line after one with this number.
fn number_after(number: usize, ignores: bool) -> usize
    requires { number + 1 < 2 ^ 64 }
    ensures { result ≡ number_after number ignores }
{
    match (is_odd(number), ignores) {
        (true, true) | (false, false) => number,
        _ => number + 1,
    }
}

fn is_odd(number: usize) -> bool
    ensures { result ≡ is_odd number }
{
    number % 2 == 1
}
