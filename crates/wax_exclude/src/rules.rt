//! Ignore lists as rules of walks.
ghost use Rattle.std.specs.Prelude.{◌≡◌, ◌↔◌, ◌<◌, ◌≤◌, ◌+◌, ℕ, All, IsTrue, List, IfOk, MatchResult, chars};
ghost use Rattle.std.specs.Prelude.{length, true};
ghost use Rattle.wax_lazy.specs.Cost.{path_visits};
ghost use Rattle.wax_query.specs.Below.{IsBelow};
ghost use Rattle.wax_token.specs.Cost.{program_length};
ghost use Rattle.wax_walk.specs.Given.{with_tree};
ghost use Rattle.wax_exclude.specs.Candidates.{NoSlashAfterNames, folder_at};
ghost use Rattle.wax_exclude.specs.{Deciding.{IsDecidingLine, SaysLines, ignores_at}, Idle.AreIdle};
ghost use Rattle.wax_exclude.specs.{Ignored.{IgnoresBelow, is_ignored}, Length.list_length, Tidy.TidiesUp};
ghost use Rattle.wax_exclude.specs.Undecided.{AreUndecided, IsUndecided};

use crate::deciding::DecidingLines;
use crate::folders::{folder_candidate, is_tree};
use crate::idle::IdleLine;
use crate::numbers::NumberedLines;
use crate::tidy::TidyLines;
use crate::{deciding, idle, tidy};
use std::alloc::Global;
use std::marker::Model;
use wax_compare::{Compared, Selector};
use wax_match::encode;
use wax_match::encode::{CompileError, Meter};
use wax_query::diagnostics::NoMemory;
use wax_query::matching::CandidatePath;
use wax_token::token::{ExpressionMetadata, Token};
use wax_walk::{Candidate, EntryResidue, Exclude};

/// A line of an ignore list: a glob, and whether it ignores what the glob matches or stops ignoring
/// it. Contracts see the tree of the glob.
pub struct IgnoreLine {
    ignores: bool,
    glob: Token<'static, ExpressionMetadata>,
}

// Written out, so that a crate that drops these needn't prove again how their tokens are dropped.
impl Drop for IgnoreLine {
    fn drop(self) {
        let IgnoreLine {
            ignores: _,
            glob: _,
        } = self;
    }
}

impl Model for IgnoreLine {
    ghost use Rattle.wax_token.specs.Reads.{Span};
    ghost use Rattle.wax_exclude.specs.Ignored.{Line, line_code};

    ghost Value = { Line Span };

    ghost coded = { line_code };

    ghost view = { λ l. record { ignores = l.ignores; glob = l.glob } };
}

impl IgnoreLine {
    /// Builds a line from its glob's token.
    ///
    /// # Errors
    ///
    /// Returns a `CompileError` (9) if the program of the glob would have more than 1,048,576
    /// instructions.
    pub fn new(
        ignores: bool,
        glob: Token<'static, ExpressionMetadata>,
    ) -> Result<IgnoreLine, CompileError>
        ensures line { IfOk result (λ line. line ≡ record { ignores = ignores; glob = glob.entry }) }
        ensures fits { MatchResult result (λ _. program_length glob.entry ≤ 1048576)
            (λ _. 1048576 < program_length glob.entry) }
    {
        if !encode::fits(&glob) {
            return Err(CompileError);
        }
        Ok(IgnoreLine { ignores, glob })
    }

    /// Returns whether the line ignores what its glob matches.
    pub fn ignores(&self) -> bool
        ensures { result ≡ self.now.ignores }
    {
        self.ignores
    }

    /// Returns the glob's token.
    pub fn glob(&self) -> &Token<'static, ExpressionMetadata>
        ensures { result.now ≡ self.now.glob }
    {
        &self.glob
    }

    /// Copies the line. It takes time and memory in proportion to the glob's tokens and their texts.
    pub fn to_owned(&self, alloc: Global) -> Result<IgnoreLine, NoMemory>
        ensures { IfOk result (λ copy. copy ≡ self.now) }
    {
        Ok(IgnoreLine {
            ignores: self.ignores,
            glob: self.glob.to_owned(alloc)?,
        })
    }
}

/// An ignore list as a rule. It excludes an entry if the last line that matches the candidate
/// ignores it. It excludes everything below the entry, too, if an alternative of a line that
/// ignores covers the entry and no line after that begins with `!`. Contracts see the lines.
///
/// All lines are one program, which says which of them match. A rule keeps at most about 64 KiB of
/// earlier entries for each line, and at most 14 MiB.
#[derive(Drop)]
pub struct IgnoreRule {
    lines: Vec<IgnoreLine>,
    numbered: NumberedLines,
}

impl Model for IgnoreRule {
    ghost use Rattle.std.specs.{Prelude.{List, map}, Coded.coded_list};
    ghost use Rattle.wax_token.specs.Reads.{Span};
    ghost use Rattle.wax_exclude.specs.Ignored.{Line, line_code};

    ghost Value = { List (Line Span) };

    ghost coded = { coded_list line_code };

    ghost use Rattle.wax_exclude.specs.{inner.Numbers.KnowsLines, inner.Split.split_of};

    ghost view = { λ r. r.lines.items };

    ghost invariant = { λ r. KnowsLines (map split_of r.lines.items) r.numbered };
}

impl IgnoreRule {
    /// Builds the rule from its lines. It takes time and memory in proportion to their tokens and
    /// their cost.
    pub fn new(alloc: Global, lines: Vec<IgnoreLine>) -> Result<IgnoreRule, NoMemory>
        ensures { IfOk result (λ rule. rule ≡ lines.items) }
    {
        let numbered = NumberedLines::new(alloc, lines.as_slice(), 0)?;
        Ok(IgnoreRule { lines, numbered })
    }

    /// Returns whether the last line that matches the path ignores it; false if no line matches.
    pub fn is_ignored(&self, alloc: Global, path: &CandidatePath<'_>) -> Result<bool, NoMemory>
        ensures { IfOk result (λ answer. answer ≡ is_ignored self.now path.now) }
    {
        let mut meter = Meter::new();
        self.is_ignored_metered(alloc, path, &mut meter)
    }

    /// Returns what `is_ignored` does, and moves the meter by the number of instructions that the list's
    /// program visits. Its bound is that of `is_ignored_cached_metered`.
    pub fn is_ignored_metered(
        &self,
        alloc: Global,
        path: &CandidatePath<'_>,
        meter: &mut Meter,
    ) -> Result<bool, NoMemory>
        ensures decides { IfOk result (λ answer. answer ≡ is_ignored self.now path.now) }
        ensures above { let size = list_length self.now in
            meter.new ≤ meter.old + path_visits size (length path.now) + size }
        ensures steady { meter.old ≤ meter.new }
    {
        let residue = self
            .numbered
            .residue_once(alloc, path_candidate(path), meter)?;
        Ok(residue.is_some())
    }

    /// Returns whether everything below the folder with this path is ignored: an alternative of a line
    /// that ignores covers the folder, and no line after it begins with `!`.
    ///
    /// If it returns false, everything below may still be ignored, each path by itself. If a `/`
    /// follows the last name of the path, no promise is made of what is below. It takes time in
    /// proportion to the number of lines.
    pub fn ignores_below(&self, alloc: Global, path: &CandidatePath<'_>) -> Result<bool, NoMemory>
        ensures says { IfOk result (λ answer. IsTrue answer
            ↔ (⟦<IgnoreRule as Exclude>⟧.rule self.now (folder_at path.now) ≡ with_tree)) }
        ensures covers { IfOk result
            (λ answer. IsTrue answer ↔ IgnoresBelow self.now (folder_at path.now)) }
        ensures below { NoSlashAfterNames path.now → IfOk result (λ answer. IsTrue answer → (s : List ℕ)
            → IsBelow path.now s → is_ignored self.now s ≡ true) }
    {
        let mut meter = Meter::new();
        self.ignores_below_metered(alloc, path, &mut meter)
    }

    /// Returns what `ignores_below` does, and moves the meter as `is_ignored_metered` does.
    pub fn ignores_below_metered(
        &self,
        alloc: Global,
        path: &CandidatePath<'_>,
        meter: &mut Meter,
    ) -> Result<bool, NoMemory>
        ensures says { IfOk result (λ answer. IsTrue answer
            ↔ (⟦<IgnoreRule as Exclude>⟧.rule self.now (folder_at path.now) ≡ with_tree)) }
        ensures covers { IfOk result
            (λ answer. IsTrue answer ↔ IgnoresBelow self.now (folder_at path.now)) }
        ensures below { NoSlashAfterNames path.now → IfOk result (λ answer. IsTrue answer → (s : List ℕ)
            → IsBelow path.now s → is_ignored self.now s ≡ true) }
        ensures above { let size = list_length self.now in
            meter.new ≤ meter.old + path_visits size (length path.now) + size }
        ensures steady { meter.old ≤ meter.new }
    {
        let residue = self
            .numbered
            .residue_once(alloc, folder_candidate(path), meter)?;
        Ok(is_tree(residue))
    }

    /// Returns what `is_ignored` does, with the help of what is kept of earlier paths.
    ///
    /// # Errors
    ///
    /// Returns `NoMemory` if allocation fails. The rule can be used for further paths after that.
    pub fn is_ignored_cached(
        &mut self,
        alloc: Global,
        path: &CandidatePath<'_>,
    ) -> Result<bool, NoMemory>
        ensures decides { IfOk result (λ answer. answer ≡ is_ignored self.old path.now) }
        ensures same { self.new ≡ self.old }
    {
        let mut meter = Meter::new();
        self.is_ignored_cached_metered(path, &mut meter)
    }

    /// Returns what `is_ignored_cached` does, and moves the meter by the number of instructions that the
    /// list's program visits, whatever earlier paths led to: at most its length for each character and once
    /// more at the end, or nine times that if its length exceeds 256; and at the end at most its length
    /// once more. Paths that lead only to what earlier ones led to move it by nothing.
    ///
    /// # Errors
    ///
    /// Returns `NoMemory` if allocation fails. The rule can be used for further paths after that.
    pub fn is_ignored_cached_metered(
        &mut self,
        path: &CandidatePath<'_>,
        meter: &mut Meter,
    ) -> Result<bool, NoMemory>
        ensures decides { IfOk result (λ answer. answer ≡ is_ignored self.old path.now) }
        ensures same { self.new ≡ self.old }
        ensures above { let size = list_length self.old in
            meter.new ≤ meter.old + path_visits size (length path.now) + size }
        ensures steady { meter.old ≤ meter.new }
    {
        let residue = self.numbered.residue(path_candidate(path), meter)?;
        Ok(residue.is_some())
    }

    /// Returns the lines that decide nothing about plain paths, in order, each with the reason. A line
    /// is compared with few others, mostly; each comparison reaches at most `most_states` states.
    pub fn idle_lines(&self, alloc: Global, most_states: usize) -> Result<Vec<IdleLine>, NoMemory>
        ensures idle { IfOk result (λ idle. AreIdle self.now idle.items) }
        ensures undecided { IfOk result (λ idle. AreUndecided self.now most_states idle.items) }
    {
        idle::idle_lines(alloc, self.lines.as_slice(), most_states)
    }

    /// Returns the lines without those of which it is known that they decide nothing about plain paths:
    /// without them, the list ignores the same ones. It looks for such lines until there are none, since
    /// without some lines, others may decide nothing, too. Each comparison reaches at most `most_states`
    /// states. The lines are copied.
    pub fn tidied(&self, alloc: Global, most_states: usize) -> Result<TidyLines, NoMemory>
        ensures tidy { IfOk result (λ tidy. TidiesUp self.now tidy.removed.items tidy.indexes.items
            tidy.lines.items tidy.unknown.items) }
        ensures undecided { IfOk result
            (λ tidy. All (IsUndecided tidy.lines.items most_states) tidy.unknown.items) }
    {
        tidy::tidied(alloc, self.lines.as_slice(), most_states)
    }

    /// Returns the index of the last line that matches the path, from 0, or `None` if no line does. This
    /// line decides whether the path is ignored. Each call compiles the lines once more. For many paths,
    /// use `deciding_lines`.
    pub fn deciding_line(
        &self,
        alloc: Global,
        path: &CandidatePath<'_>,
    ) -> Result<Option<usize>, NoMemory>
        ensures line { IfOk result (IsDecidingLine self.now path.now) }
        ensures decides { IfOk result (λ found. is_ignored self.now path.now ≡ ignores_at self.now found) }
    {
        let mut meter = Meter::new();
        self.deciding_line_metered(alloc, path, &mut meter)
    }

    /// Returns what `deciding_line` does, and moves the meter by the number of instructions that are
    /// visited to decide the path, without what compiling the lines takes. Its bound is that of
    /// `is_ignored_cached_metered`.
    pub fn deciding_line_metered(
        &self,
        alloc: Global,
        path: &CandidatePath<'_>,
        meter: &mut Meter,
    ) -> Result<Option<usize>, NoMemory>
        ensures line { IfOk result (IsDecidingLine self.now path.now) }
        ensures decides { IfOk result (λ found. is_ignored self.now path.now ≡ ignores_at self.now found) }
        ensures above { let size = list_length self.now in
            meter.new ≤ meter.old + path_visits size (length path.now) + size }
        ensures steady { meter.old ≤ meter.new }
    {
        deciding::deciding_line(alloc, self.lines.as_slice(), path.as_str(), meter)
    }

    /// Compiles the lines once more, to find the deciding lines of many paths.
    pub fn deciding_lines(&self, alloc: Global) -> Result<DecidingLines, NoMemory>
        ensures says { IfOk result (SaysLines self.now) }
        ensures length { IfOk result (λ deciding. length deciding < list_length self.now) }
    {
        DecidingLines::new(alloc, self.lines.as_slice())
    }
}

impl Exclude for IgnoreRule {
    ghost use Rattle.wax_exclude.specs.Ignored.{ignore_mark};

    ghost rule = { λ rule c. ignore_mark rule c };

    fn residue(
        &mut self,
        alloc: Global,
        candidate: Candidate<'_>,
    ) -> Result<Option<EntryResidue>, NoMemory> {
        let mut meter = Meter::new();
        self.numbered.residue(candidate, &mut meter)
    }
}

impl Compared for IgnoreRule {
    ghost use Rattle.std.specs.Prelude.{IsTrue};
    ghost use Rattle.wax_exclude.specs.Ignored.{is_ignored};

    ghost selects = { λ rule s. IsTrue (is_ignored rule s) };

    fn selector(&self) -> Selector<'_> {
        self.numbered.selector()
    }
}

// The candidate of a path, for rules that look only at its text.
fn path_candidate<'c>(path: &'c CandidatePath<'_>) -> Candidate<'c>
    ensures { chars result.path.now ≡ path.now }
{
    Candidate {
        path: path.as_str(),
        depth: 0,
    }
}
