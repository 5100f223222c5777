//! Programs that depend only on the last component of a text, such as that of `**/*.rs`.
ghost use Rattle.std.specs.Prelude.{◌≡◌, ◌+◌, ◌*◌, ◌≤◌, ◌↔◌, IsTrue, IfOk, Some, chars, length, max, min};
ghost use Rattle.std.specs.{Prelude.{map, slice_get}, Simd.Lanes.mask_l};
ghost use Rattle.wax_program.specs.declared.instruction.Instruction.TheVariants.{Components, Fork};
ghost use Rattle.wax_program.specs.inner.Names.{StayInName, StaysInName};
ghost use Rattle.wax_program.specs.inner.Slashes.{LastNameAt, is_slash};
ghost use Rattle.wax_program.specs.{Last.{IsCutBetween, IsLastName, ReadsLast}, Machine.Accepts};
ghost use Rattle.wax_program.specs.Meter.{most_ticks};

use crate::instruction::Instruction;
use crate::machine::{CompiledProgram, Meter};
use crate::matching::{run, run_at};
use crate::skipped::Skipped;
use std::alloc::Global;
use std::simd::prelude::*;
use wax_query::diagnostics::NoMemory;

/// How many bytes are compared at once.
const LANES: usize = 32;

/// Returns whether a program that depends only on the last component of a text accepts the text. Reads
/// only that component. Takes as many visits as [`run`], where a byte before the component is one.
pub fn run_last(
    alloc: Global,
    program: &CompiledProgram,
    text: &str,
    meter: &mut Meter,
) -> Result<bool, NoMemory>
    requires last { ReadsLast program.now.0 }
    requires start { 2 ≤ length program.now.0 }
    ensures decides { IfOk result (λ b. IsTrue b ↔ Accepts program.now.0 0 (chars text.now)) }
    ensures above { meter.new ≤ meter.old + program.now.1 * (length (chars text.now) + 1) }
    ensures fewer { meter.new ≤ meter.old + (length program.now.0 + 1) * (length (chars text.now) + 1) }
    ensures below { IfOk result
        (λ b. IsTrue b → min (meter.old + length (chars text.now)) most_ticks ≤ meter.new) }
    ensures steady { meter.old ≤ meter.new }
{
    // A name of one instruction is read in no less time than a whole text, where the run ends early.
    if program.size() <= 3 {
        return run(alloc, program, text, meter);
    }
    let name = last_name(text);
    meter.skip(Skipped::before(program, text, name));
    run_at(alloc, program, 2, name, meter)
}

/// Returns what follows the last `/` of the text, or the whole text if it has none. Doesn't
/// allocate.
pub fn last_name(text: &str) -> &str
    ensures name { IsLastName (chars text.now) (chars result.now) }
    ensures cut { IsCutBetween text.now result.now }
{
    &text[last_name_at(text.as_bytes())..]
}

// Returns the place after the last `/`, or 0 if there is none.
fn last_name_at(bytes: &[u8]) -> usize
    ensures { LastNameAt result bytes.now }
{
    let mut end = bytes.len();
    while end >= LANES {
        let found = slashes(u8x32::from_slice(&bytes[end - LANES..]));
        if found != 0 {
            return end + LANES - found.leading_zeros() as usize;
        }
        end -= LANES;
    }
    while end > 0 && bytes[end - 1] != b'/' {
        end -= 1;
    }
    end
}

// Returns a mask in which the lowest bit belongs to the first byte, and is set if that is a `/`.
#[inline(always)]
fn slashes(bytes: u8x32) -> u64
    ensures { result ≡ mask_l (map is_slash bytes) }
{
    bytes.simd_eq(u8x32::splat(b'/')).to_bitmask()
}

/// Returns whether the program is known to depend only on the last component of a text: it begins
/// with zero or more components, and takes no `/` after them. Reads each instruction at most once.
pub fn reads_last(program: &CompiledProgram, meter: &mut Meter) -> bool
    ensures last { IsTrue result → ReadsLast program.now.0 }
    ensures long { IsTrue result → 2 ≤ length program.now.0 }
    ensures above { meter.new ≤ meter.old + length program.now.0 }
    ensures steady { meter.old ≤ meter.new }
{
    begins_with_components(program, meter) && stay_in_name(program, meter)
}

/// Returns whether the program begins with zero or more components.
fn begins_with_components(program: &CompiledProgram, meter: &mut Meter) -> bool
    ensures fork { IsTrue result → slice_get program.now.0 0 ≡ Some (Fork 1) }
    ensures components { IsTrue result → slice_get program.now.0 1 ≡ Some Components }
    ensures long { IsTrue result → 2 ≤ length program.now.0 }
    ensures above { meter.new ≤ meter.old + min 2 (length program.now.0) }
    ensures steady { meter.old ≤ meter.new }
{
    program.size() >= 2
        && matches!(program.read(0, meter), Instruction::Fork(1))
        && matches!(program.read(1, meter), Instruction::Components)
}

/// Returns whether no instruction from the place 2 on takes a `/` or leads to a place before it.
fn stay_in_name(program: &CompiledProgram, meter: &mut Meter) -> bool
    ensures stay { IsTrue result → StayInName program.now.0 (length program.now.0) }
    ensures above { meter.new + 2 ≤ meter.old + max 2 (length program.now.0) }
    ensures steady { meter.old ≤ meter.new }
{
    for at in 2..program.size() {
        if !stays_in_name(program.read(at, meter), at) {
            return false;
        }
    }
    true
}

fn stays_in_name(instruction: &Instruction, at: usize) -> bool
    ensures { IsTrue result → StaysInName instruction.now at }
{
    match instruction {
        Instruction::Check(test) => !test.passes('/'),
        Instruction::Repeat(test) => !test.passes('/'),
        Instruction::Components => false,
        Instruction::Back(n) => at >= 2 && *n <= at - 2,
        _ => true,
    }
}
