//! Instructions that lead to themselves, those that take one character, and their tests.
ghost use Rattle.std.specs.Prelude.{◌≡◌, ◌+◌, ◌^◌, ◌<◌, ◌≤◌, ℕ, IfOk, IfSome, IsTrue, List, length, min};
ghost use Rattle.std.specs.Prelude.{option_copied};
ghost use Rattle.wax_program.specs.{Machine.Accepts, Meter.most_ticks, Checks.{IsCheckAt, IsCheckOf}};
ghost use Rattle.wax_program.specs.{Tests.{IsTestAt, test_of}, Threads.AreParts};
ghost use Rattle.wax_program.specs.declared.instruction.Instruction.TheVariants.{Repeat};
ghost use Rattle.wax_program.specs.declared.instruction.Test.TheVariants.{Any};

use crate::instruction::{Instruction, Test};
use crate::machine::{CompiledProgram, Meter};
use std::alloc::AllocError;

/// Parts the places of a program: writes those of `**` and of repeated tests into `loops`, and all
/// others into `others`. A loop can lead to itself, so many sets have the same ones. Reads one
/// instruction for each place.
///
/// # Errors
///
/// Returns `AllocError` if the lists have too little room and allocation fails.
pub fn part_loops(
    program: &CompiledProgram,
    places: &[usize],
    loops: &mut Vec<usize>,
    others: &mut Vec<usize>,
    meter: &mut Meter,
) -> Result<(), AllocError>
    ensures parts { IfOk result (λ _. AreParts places.now loops.new.items others.new.items) }
    ensures above { meter.new ≤ meter.old + length places.now }
    ensures steady { meter.old ≤ meter.new }
{
    loops.clear();
    others.clear();
    for place in places {
        if is_loop(program, *place, meter) {
            loops.push(*place)?;
        } else {
            others.push(*place)?;
        }
    }
    Ok(())
}

/// Returns whether one of the places is that of a loop. Reads at most one instruction for each.
pub fn has_loop(program: &CompiledProgram, places: &[usize], meter: &mut Meter) -> bool
    ensures above { meter.new ≤ meter.old + length places.now }
    ensures steady { meter.old ≤ meter.new }
{
    for place in places {
        if is_loop(program, *place, meter) {
            return true;
        }
    }
    false
}

/// Returns whether the instruction at a place can lead to itself. Reads at most that one.
fn is_loop(program: &CompiledProgram, at: usize, meter: &mut Meter) -> bool
    ensures above { meter.new ≤ meter.old + 1 }
    ensures steady { meter.old ≤ meter.new }
{
    if at >= program.size() {
        return false;
    }
    matches!(
        program.read(at, meter),
        Instruction::Repeat(_) | Instruction::Components
    )
}

/// Returns whether the character passes the test of the check at a place. Returns `None` if there is
/// no check. Reads at most that instruction.
pub fn check_at(program: &CompiledProgram, at: usize, c: char, meter: &mut Meter) -> Option<bool>
    ensures check { IfSome result (IsCheckAt program.now.0 at c) }
    ensures small { length program.now.0 < 2 ^ 64 }
    ensures above { meter.new ≤ meter.old + 1 }
    ensures steady { meter.old ≤ meter.new }
    ensures below { IfSome result (λ _. min (meter.old + 1) most_ticks ≤ meter.new) }
{
    if at >= program.size() {
        return None;
    }
    passes_check(program.read(at, meter), c)
}

fn passes_check(instruction: &Instruction, c: char) -> Option<bool>
    ensures { IfSome result (IsCheckOf instruction.now c) }
{
    match instruction {
        Instruction::Check(test) => Some(test.passes(c)),
        _ => None,
    }
}

/// Returns the test of the instruction at a place. Returns `None` if there is no instruction, or one
/// without a test. Reads at most that instruction.
pub fn test_at<'a>(program: &'a CompiledProgram, at: usize, meter: &mut Meter) -> Option<&'a Test>
    ensures test { IsTestAt program.now.0 at (option_copied result) }
    ensures above { meter.new ≤ meter.old + 1 }
    ensures steady { meter.old ≤ meter.new }
{
    if at >= program.size() {
        return None;
    }
    test_of(program.read(at, meter))
}

fn test_of(instruction: &Instruction) -> Option<&Test>
    ensures { option_copied result ≡ test_of instruction.now }
{
    match instruction {
        Instruction::Check(test) | Instruction::Repeat(test) => Some(test),
        _ => None,
    }
}

/// Returns a place from which the program accepts every text, if its last instruction repeats any
/// character, as that of `/**` does. Reads at most that instruction.
pub fn place_of_all(program: &CompiledProgram, meter: &mut Meter) -> Option<usize>
    ensures all { IfSome result (λ at. (s : List ℕ) → Accepts program.now.0 at s) }
    ensures above { meter.new ≤ meter.old + 1 }
    ensures steady { meter.old ≤ meter.new }
    ensures below { IfSome result (λ _. min (meter.old + 1) most_ticks ≤ meter.new) }
{
    if program.size() == 0 {
        return None;
    }
    let last = program.size() - 1;
    if repeats_any(program.read(last, meter)) {
        Some(last)
    } else {
        None
    }
}

fn repeats_any(instruction: &Instruction) -> bool
    ensures { IsTrue result → instruction.now ≡ Repeat Any }
{
    matches!(instruction, Instruction::Repeat(Test::Any))
}
