//! Which line of an ignore list decides.
ghost use Rattle.std.specs.Prelude.{◌≡◌, ◌<◌, ◌≤◌, ◌+◌, ℕ, IfOk, List, chars, length};
ghost use Rattle.wax_exclude.specs.{Deciding.{IsDecidingLine, SaysLines}, Ignored.Line, Length.list_length};
ghost use Rattle.wax_lazy.specs.Cost.{path_visits};
ghost use Rattle.wax_token.specs.Reads.{Span};

use crate::idle::numbered_by_index;
use crate::rules::IgnoreLine;
use std::alloc::Global;
use std::marker::Model;
use wax_lazy::{Matcher, last_number_metered};
use wax_match::encode::{CompiledProgram, Meter};
use wax_query::diagnostics::NoMemory;
use wax_query::matching::CandidatePath;

/// Finds the line of an ignore list that decides a path: the last one that matches it. Keeps what it
/// learns from each path for the next ones. Contracts see its program.
#[derive(Drop)]
pub struct DecidingLines {
    /// Accepts a path with the indexes of the lines that match it.
    numbered: Matcher<CompiledProgram>,
}

impl Model for DecidingLines {
    ghost use Rattle.std.specs.{Prelude.List, Coded.coded_list};
    ghost use Rattle.wax_program.specs.{declared.instruction.Instruction.Instruction, Closed.IsClosed};
    ghost use Rattle.wax_program.specs.contracts.instruction.Instruction as instruction;

    ghost Value = { List Instruction };

    ghost coded = { coded_list instruction.the_row.coded };

    ghost view = { λ d. d.numbered };

    ghost invariant = { λ d. IsClosed d.numbered };
}

impl DecidingLines {
    /// Compiles the lines once more.
    pub(crate) fn new(alloc: Global, lines: &[IgnoreLine]) -> Result<DecidingLines, NoMemory>
        ensures says { IfOk result (SaysLines lines.now) }
        ensures length { IfOk result (λ deciding. length deciding < list_length lines.now) }
    {
        let program = numbered_by_index(alloc, lines)?;
        let numbered = Matcher::new(alloc, program)?;
        Ok(DecidingLines { numbered })
    }

    /// Returns the index of the last line that matches the path, from 0, or `None` if no line does.
    ///
    /// # Errors
    ///
    /// Returns `NoMemory` if allocation fails. Further paths can be asked for after that.
    pub fn deciding_line(&mut self, path: &CandidatePath<'_>) -> Result<Option<usize>, NoMemory>
        ensures line { IfOk result (λ found. (lines : List (Line Span)) → SaysLines lines self.old
            → IsDecidingLine lines path.now found) }
        ensures same { self.new ≡ self.old }
    {
        let mut meter = Meter::new();
        self.deciding_line_metered(path, &mut meter)
    }

    /// Returns what `deciding_line` does. The meter counts as in `IgnoreRule::is_ignored_cached_metered`.
    ///
    /// # Errors
    ///
    /// Returns `NoMemory` if allocation fails. Further paths can be asked for after that.
    pub fn deciding_line_metered(
        &mut self,
        path: &CandidatePath<'_>,
        meter: &mut Meter,
    ) -> Result<Option<usize>, NoMemory>
        ensures line { IfOk result (λ found. (lines : List (Line Span)) → SaysLines lines self.old
            → IsDecidingLine lines path.now found) }
        ensures same { self.new ≡ self.old }
        ensures above { (size : ℕ) → length self.old < size
            → meter.new ≤ meter.old + path_visits size (length path.now) + size }
        ensures steady { meter.old ≤ meter.new }
    {
        self.numbered.last_number_metered(path.as_str(), meter)
    }
}

/// Returns the index of the last line that matches a path, or `None` if no line does. The meter counts the
/// instructions that are read to decide, without what compiling the lines takes.
pub(crate) fn deciding_line(
    alloc: Global,
    lines: &[IgnoreLine],
    path: &str,
    meter: &mut Meter,
) -> Result<Option<usize>, NoMemory>
    ensures line { IfOk result (IsDecidingLine lines.now (chars path.now)) }
    ensures above { let size = list_length lines.now in
        meter.new ≤ meter.old + path_visits size (length (chars path.now)) + size }
    ensures steady { meter.old ≤ meter.new }
{
    let program = numbered_by_index(alloc, lines)?;
    let found = last_number_metered(alloc, &program, path, meter)?;
    Ok(found)
}
