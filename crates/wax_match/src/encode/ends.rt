//! Programs of several patterns, each of which has an end of its own.
ghost use Rattle.std.specs.Prelude.{◌≡◌, ◌↔◌, ◌≤◌, ◌+◌, ◌++◌, ◌∷◌, [], ℕ, IfOk, List, OnOk, length, sum_by};
ghost use Rattle.wax_match.specs.{Numbered.{MeansNumbered, numbered_length}, inner.Ends.AreWritten};
ghost use Rattle.wax_match.specs.{inner.Left.{AreSame, SomeLeftMeans}, inner.LeftCost.left_cost};
ghost use Rattle.wax_program.specs.{Closed.IsClosed, Machine.{Accepts, mark}};

use crate::encode::FIRST_ROOM;
use crate::encode::joining::{MOST_LEADS, sorted};
use crate::encode::left::Left;
use crate::encode::shared::room_for_ends;
use crate::encode::tail::Tail;
use std::alloc::{AllocError, Global};
use wax_program::CompiledProgram;
use wax_program::instruction::Instruction;
use wax_query::diagnostics::NoMemory;
use wax_token::token::{ExpressionMetadata, Token};

/// A pattern, and the number of its end in a program of several patterns. Patterns may share a number.
#[derive(Clone, Copy)]
pub struct Numbered<'a, 't> {
    pub number: usize,
    pub pattern: &'a Token<'t, ExpressionMetadata>,
}

/// Compiles patterns to one program that says which of them match: it accepts a text with the mark of
/// a number after it exactly if one of the patterns with this number matches the text. Nothing is
/// written before and after a pattern. A program may have any length: callers that have a limit weigh
/// the patterns before.
///
/// What patterns share is written once. Those that begin with the same characters, with `*` or with
/// `**` go on together until they differ, and those of a number that end after the same wildcard, or
/// after none, end at one place. This keeps the automaton over many patterns small. For the ends,
/// numbers have to be below the count of patterns and 2; greater ones may be written more than once.
///
/// Takes memory linear in the patterns and their cost, and time in proportion to that and to the
/// logarithm of the count of patterns. The program has at most as many instructions as the patterns
/// cost, 2 more for each, and 1.
pub fn compile_numbered<'t>(
    alloc: Global,
    patterns: &[Numbered<'_, 't>],
) -> Result<CompiledProgram, NoMemory>
    ensures means { IfOk result (λ p. (number : ℕ) → (s : List ℕ)
        → Accepts p.0 0 (s ++ mark number ∷ []) ↔ MeansNumbered patterns.now number s) }
    ensures closed { IfOk result (λ p. IsClosed p.0) }
    ensures length { IfOk result (λ p. length p.0 ≤ numbered_length patterns.now) }
{
    let mut tail = Tail::with_room(alloc, FIRST_ROOM)?;
    tail.put_numbered(patterns)?;
    let instructions = tail.into_instructions();
    let len = instructions.len() + 1;
    Ok(CompiledProgram::new(instructions, len))
}

impl Tail {
    /// Writes patterns, or if there are none, an instruction that leads only to itself.
    fn put_numbered<'t>(&mut self, patterns: &[Numbered<'_, 't>]) -> Result<(), AllocError>
        requires { self.old ≡ [] }
        ensures written { OnOk result (AreWritten self.old self.new (MeansNumbered patterns.now)) }
        ensures length { OnOk result (length self.new ≤ numbered_length patterns.now) }
    {
        if patterns.is_empty() {
            return self.put(Instruction::Back(0));
        }
        let lefts = sorted(all_of(self.allocator(), patterns)?);
        let mut ends = room_for_ends(self.allocator(), patterns.len().saturating_add(2))?;
        self.put_lefts(&mut ends, &lefts, MOST_LEADS)
    }
}

/// Returns what is left of patterns before anything of them is written.
fn all_of<'a, 't>(
    alloc: Global,
    patterns: &[Numbered<'a, 't>],
) -> Result<Vec<Left<'a, 't>>, AllocError>
    ensures len { IfOk result (λ lefts. length lefts.items ≡ length patterns.now) }
    ensures means { IfOk result (λ lefts.
        (k : ℕ) → AreSame (SomeLeftMeans lefts.items k) (MeansNumbered patterns.now k)) }
    ensures cost { IfOk result (λ lefts. sum_by left_cost lefts.items + 1 ≤ numbered_length patterns.now) }
{
    let mut lefts = Vec::new(alloc);
    for numbered in patterns {
        let tokens = numbered.pattern.concatenation();
        lefts.push(Left::new(numbered.number, tokens, false))?;
    }
    Ok(lefts)
}
