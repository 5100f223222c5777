//! Running a program over a text.
ghost use Rattle.std.specs.Prelude.{◌≡◌, ◌+◌, ◌*◌, ◌<◌, ◌≤◌, ◌↔◌, IsTrue, IfOk, chars, length, min};
ghost use Rattle.wax_program.specs.{Machine.Accepts, Meter.most_ticks, Places.IsEmpty};

use crate::heap_sets::HeapSets;
use crate::machine::{CompiledProgram, Meter};
use crate::rounds::{finish, step};
use crate::sets::Sets;
use crate::skipped::Skipped;
use crate::steady::absorbs;
use crate::word_sets::WordSets;
use std::alloc::Global;
use wax_query::diagnostics::NoMemory;

/// Returns whether the program accepts the text.
///
/// Reads at most as many instructions as the program has, and one more, for each character, and as
/// many at the end; the meter counts each of them. Stops once the rest of the text can't change the
/// result. Allocates three bits for each instruction at the start, and nothing for a program of fewer
/// than 64 instructions.
pub fn run(
    alloc: Global,
    program: &CompiledProgram,
    text: &str,
    meter: &mut Meter,
) -> Result<bool, NoMemory>
    ensures decides { IfOk result (λ b. IsTrue b ↔ Accepts program.now.0 0 (chars text.now)) }
    ensures above { meter.new ≤ meter.old + program.now.1 * (length (chars text.now) + 1) }
    ensures fewer { meter.new ≤ meter.old + (length program.now.0 + 1) * (length (chars text.now) + 1) }
    ensures below { IfOk result
        (λ b. IsTrue b → min (meter.old + length (chars text.now)) most_ticks ≤ meter.new) }
    ensures steady { meter.old ≤ meter.new }
{
    run_at(alloc, program, 0, text, meter)
}

/// Returns whether the program, begun at the place `start`, accepts the text.
pub(crate) fn run_at(
    alloc: Global,
    program: &CompiledProgram,
    start: usize,
    text: &str,
    meter: &mut Meter,
) -> Result<bool, NoMemory>
    requires start { start ≤ length program.now.0 }
    ensures few { length program.now.0 < program.now.1 }
    ensures decides { IfOk result (λ b. IsTrue b ↔ Accepts program.now.0 start (chars text.now)) }
    ensures above { meter.new ≤ meter.old + (length program.now.0 + 1) * (length (chars text.now) + 1) }
    ensures below { IfOk result
        (λ b. IsTrue b → min (meter.old + length (chars text.now)) most_ticks ≤ meter.new) }
    ensures steady { meter.old ≤ meter.new }
{
    let size = program.size();
    if size < 64 {
        let mut sets = WordSets::new(size);
        return Ok(run_over(program, start, text, &mut sets, meter));
    }
    let mut sets = HeapSets::new(alloc, size)?;
    Ok(run_over(program, start, text, &mut sets, meter))
}

/// Runs the program from the place `start`. The sets must be empty.
///
/// Once no character can change the sets, the rest of the text is counted at once, by its bytes.
/// These are at least as many as its characters, and at most four times as many.
fn run_over<R: Sets>(
    program: &CompiledProgram,
    start: usize,
    text: &str,
    sets: &mut R,
    meter: &mut Meter,
) -> bool
    requires start { start ≤ length program.now.0 }
    requires size { (R.position sets.old).size ≡ length program.now.0 }
    requires pending { IsEmpty (R.position sets.old).pending }
    requires read { IsEmpty (R.position sets.old).read }
    requires next { IsEmpty (R.position sets.old).next }
    ensures decides { IsTrue result ↔ Accepts program.now.0 start (chars text.now) }
    ensures above { meter.new ≤ meter.old + (length program.now.0 + 1) * (length (chars text.now) + 1) }
    ensures below { IsTrue result → min (meter.old + length (chars text.now)) most_ticks ≤ meter.new }
    ensures steady { meter.old ≤ meter.new }
{
    sets.insert(start);
    let mut steady = None;
    let mut left = text.chars();
    while let Some(c) = left.next() {
        if !step(program, c, sets, &mut steady, meter) {
            return false;
        }
        if c == '/' && program.size() >= 3 && absorbs(program, sets, steady) {
            meter.skip(Skipped::rest(program, sets, left.as_str()));
            return finish(program, sets, meter);
        }
    }
    finish(program, sets, meter)
}
