//! Lines of an ignore list that decide nothing.
ghost use Rattle.std.specs.Prelude.{◌≡◌, ◌↔◌, ◌<◌, ℕ, All, List, IfOk, MatchOption, Some, length};
ghost use Rattle.std.specs.Bool.{MatchBool};
ghost use Rattle.wax_compare.specs.{Comparison.{IsAnswer, IsWanted}, Limit.AllDiffer};
ghost use Rattle.wax_compare.specs.declared.wanted.Texts.TheVariants.{Paths};
ghost use Rattle.wax_exclude.specs.Idle.{AreIdle, DecidesSome, HasEffect, IsReason, LineIgnores, LineMeans};
ghost use Rattle.wax_exclude.specs.{Idle.TakesNothing, Length.list_length};
ghost use Rattle.wax_exclude.specs.Undecided.{AreTooLarge, AreUndecided, IsUndecided, SomeLineMeans};
ghost use Rattle.wax_exclude.specs.inner.Idle.{AreMatchedBy, IsCovering};
ghost use Rattle.wax_program.specs.Machine.{Accepts};

use crate::rules::IgnoreLine;
use std::alloc::Global;
use wax_compare::{Comparison, Texts, Wanted, find_text};
use wax_lazy::Matcher;
use wax_match::encode::{CompiledProgram, Numbered, compile_numbered, compile_token};
use wax_query::diagnostics::{NoMemory, Refusal};
use wax_token::token::{Alternation, BranchKind, ExpressionMetadata, Sides, new_branch};

/// A line of an ignore list that decides nothing about plain paths: without it, the list ignores the
/// same ones.
#[derive(Debug, Drop)]
pub struct IdleLine {
    /// The index of the line, from 0. Lines that are skipped don't count.
    pub index: usize,
    pub reason: IdleReason,
}

/// Why a line decides nothing about plain paths.
#[derive(Debug, Drop)]
pub enum IdleReason {
    /// Each plain path that the line matches is matched by one of these lines after it, by their indexes,
    /// ascending. They are none if the line matches no plain path.
    Covered(Vec<usize>),
    /// The line begins with `!`, and no line before it that ignores matches a plain path that it matches.
    TakesNothingBack,
    /// It isn't known whether the line decides, since that takes more states than the limit.
    Unknown,
}

/// What is known of the lines after a line.
#[derive(Drop)]
enum Covering {
    /// One of these matches each plain path that the line matches.
    By(Vec<usize>),
    /// The line is the last one that matches some plain path.
    Missing,
    Unknown,
}

/// The lines of a list, to be compared.
#[derive(Drop)]
struct Lines<'a> {
    alloc: Global,
    lines: &'a [IgnoreLine],
    /// Accepts a text with the indexes of the lines that match it.
    numbered: Matcher<CompiledProgram>,
    most_states: usize,
}

/// Returns the lines that decide nothing about plain paths, in order.
pub(crate) fn idle_lines(
    alloc: Global,
    lines: &[IgnoreLine],
    most_states: usize,
) -> Result<Vec<IdleLine>, NoMemory>
    ensures idle { IfOk result (λ idle. AreIdle lines.now idle.items) }
    ensures undecided { IfOk result (λ idle. AreUndecided lines.now most_states idle.items) }
{
    let numbered = Matcher::new(alloc, numbered_by_index(alloc, lines)?)?;
    let mut compared = Lines {
        alloc,
        lines,
        numbered,
        most_states,
    };
    let mut idle = Vec::new(alloc);
    for index in 0..lines.len() {
        if let Some(reason) = compared.reason(index)? {
            idle.push(IdleLine { index, reason })?;
        }
    }
    Ok(idle)
}

impl Lines<'_> {
    /// Returns why a line decides nothing, or `None` if it decides.
    fn reason(&mut self, index: usize) -> Result<Option<IdleReason>, NoMemory>
        requires index { index < length self.old.lines.now }
        requires numbered { AreMatchedBy self.old.lines.now self.old.numbered }
        ensures lines { self.new.lines ≡ self.old.lines }
        ensures numbered { self.new.numbered ≡ self.old.numbered }
        ensures most { self.new.most_states ≡ self.old.most_states }
        ensures reason { let lines = self.old.lines.now in IfOk result (λ reason. MatchOption reason
            (DecidesSome (LineIgnores lines) (LineMeans lines) index)
            (IsReason (LineIgnores lines) (LineMeans lines) index)) }
        ensures undecided { IfOk result (λ reason. reason ≡ Some IdleReason.Unknown
            → IsUndecided self.old.lines.now self.old.most_states index) }
    {
        let covering = self.covering(index)?;
        if let Covering::By(covers) = covering {
            return Ok(Some(IdleReason::Covered(covers)));
        }
        let Some(has_effect) = self.has_effect(index)? else {
            return Ok(Some(IdleReason::Unknown));
        };
        if !has_effect {
            return Ok(Some(IdleReason::TakesNothingBack));
        }
        match covering {
            Covering::Missing => Ok(None),
            _ => Ok(Some(IdleReason::Unknown)),
        }
    }

    /// Finds later lines of which each plain path that a line matches has one that matches it. Begins
    /// without any, and adds the last line that matches a path that is left, as long as there is one.
    fn covering(&mut self, index: usize) -> Result<Covering, NoMemory>
        requires index { index < length self.old.lines.now }
        requires numbered { AreMatchedBy self.old.lines.now self.old.numbered }
        ensures lines { self.new.lines ≡ self.old.lines }
        ensures numbered { self.new.numbered ≡ self.old.numbered }
        ensures most { self.new.most_states ≡ self.old.most_states }
        ensures covering { IfOk result (IsCovering self.old.lines.now self.old.most_states index) }
    {
        let mut covers = Vec::new(self.alloc);
        // Each round adds another one of the later lines, so there are enough.
        for _round in 0..self.lines.len() {
            let path = match self.compare(index, &covers, Wanted::FirstOnly)? {
                Comparison::Nothing => {
                    covers.sort_unstable();
                    return Ok(Covering::By(covers));
                }
                Comparison::Unknown => return Ok(Covering::Unknown),
                Comparison::Text(path) => path,
            };
            let last = self.numbered.last_number(&path)?.unwrap_or(index);
            if last <= index {
                return Ok(Covering::Missing);
            }
            covers.push(last)?;
        }
        unreachable!()
    }

    /// Returns whether a line ignores, or an earlier line that ignores matches a plain path that it
    /// matches. Returns `None` if that isn't known.
    fn has_effect(&self, index: usize) -> Result<Option<bool>, NoMemory>
        requires { index < length self.now.lines.now }
        ensures { let lines = self.now.lines.now in IfOk result (λ known. MatchOption known
            (IsUndecided lines self.now.most_states index)
            (λ answer. MatchBool answer (HasEffect (LineIgnores lines) (LineMeans lines) index)
            (TakesNothing (LineIgnores lines) (LineMeans lines) index))) }
    {
        if self.lines[index].ignores() {
            return Ok(Some(true));
        }
        for earlier in 0..index {
            if !self.lines[earlier].ignores() {
                continue;
            }
            match self.compare(index, &[earlier], Wanted::Both)? {
                Comparison::Nothing => {}
                Comparison::Text(_) => return Ok(Some(true)),
                Comparison::Unknown => return Ok(None),
            }
        }
        Ok(Some(false))
    }

    /// Finds a plain path that a line matches, and one of the others, too, or none of them.
    fn compare(
        &self,
        index: usize,
        others: &[usize],
        wanted: Wanted,
    ) -> Result<Comparison, NoMemory>
        requires index { index < length self.now.lines.now }
        requires within { All (λ k. k < length self.now.lines.now) others.now }
        requires differ { AllDiffer others.now }
        ensures answer { let lines = self.now.lines.now in IfOk result (IsAnswer
            (IsWanted wanted Paths (LineMeans lines index) (SomeLineMeans lines others.now))) }
        ensures undecided { IfOk result (λ found. found ≡ Comparison.Unknown
            → IsUndecided self.now.lines.now self.now.most_states index) }
    {
        let Some(first) = union_of(self.alloc, self.lines, &[index])? else {
            return Ok(Comparison::Unknown);
        };
        let Some(second) = union_of(self.alloc, self.lines, others)? else {
            return Ok(Comparison::Unknown);
        };
        let most = self.most_states;
        let found = find_text(self.alloc, &first, &second, wanted, Texts::Paths, most)?;
        Ok(found)
    }
}

/// Compiles lines to a program that says which of them match a text, by their indexes.
pub fn numbered_by_index(alloc: Global, lines: &[IgnoreLine]) -> Result<CompiledProgram, NoMemory>
    ensures matches { IfOk result (λ p. AreMatchedBy lines.now p.0) }
    ensures length { IfOk result (λ p. length p.0 < list_length lines.now) }
{
    let mut patterns = Vec::new(alloc);
    for (index, line) in lines.iter().enumerate() {
        patterns.push(Numbered {
            number: index,
            pattern: line.glob(),
        })?;
    }
    compile_numbered(alloc, &patterns)
}

/// Compiles what at least one of the lines with these indexes matches. Returns `None` if the program
/// would be too long.
fn union_of(
    alloc: Global,
    lines: &[IgnoreLine],
    indexes: &[usize],
) -> Result<Option<CompiledProgram>, NoMemory>
    requires { All (λ k. k < length lines.now) indexes.now }
    ensures { IfOk result (λ known. MatchOption known (AreTooLarge lines.now indexes.now)
        (λ p. (s : List ℕ) → Accepts p.0 0 s ↔ SomeLineMeans lines.now indexes.now s)) }
{
    let mut tokens = Vec::new(alloc);
    for index in indexes {
        tokens.push(lines[*index].glob().to_owned(alloc)?)?;
    }
    let branch = BranchKind::Alternation(Alternation { tokens });
    let union = new_branch(branch, ExpressionMetadata::new((0, 0)));
    match compile_token(alloc, &union, Sides::NONE) {
        Ok(program) => Ok(Some(program)),
        Err(Refusal::Refused(_)) => Ok(None),
        Err(Refusal::Memory) => Err(NoMemory),
    }
}
