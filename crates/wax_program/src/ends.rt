//! The ends of patterns in a program of several.
ghost use Rattle.std.specs.Prelude.{◌+◌, ◌≤◌, ◌⊎◌, ◌↔◌, ℕ, Contains, IfOk, length};
ghost use Rattle.wax_program.specs.Closed.{AreEndsAt, IsEndAt};

use crate::instruction::Instruction;
use crate::machine::{CompiledProgram, Meter};
use std::alloc::AllocError;

/// Writes the numbers whose marks an end at one of the places takes: those of one end after those of
/// another, so a number may be written more than once. Reads one instruction for each place.
///
/// # Errors
///
/// Returns `AllocError` if the list has too little room and allocation fails.
pub fn list_ends_among(
    program: &CompiledProgram,
    places: &[usize],
    numbers: &mut Vec<usize>,
    meter: &mut Meter,
) -> Result<(), AllocError>
    ensures ends { IfOk result (λ _. AreEndsAt program.now.0 places.now numbers.new.items) }
    ensures above { meter.new ≤ meter.old + length places.now }
    ensures steady { meter.old ≤ meter.new }
{
    numbers.clear();
    for place in places {
        push_ends(program, *place, numbers, meter)?;
    }
    Ok(())
}

/// Adds the numbers whose marks the instruction at a place takes, if it is an end. Reads at most that
/// one.
fn push_ends(
    program: &CompiledProgram,
    at: usize,
    numbers: &mut Vec<usize>,
    meter: &mut Meter,
) -> Result<(), AllocError>
    ensures ends { IfOk result (λ _. (number : ℕ) → Contains numbers.new.items number
        ↔ (Contains numbers.old.items number ⊎ IsEndAt program.now.0 at number)) }
    ensures above { meter.new ≤ meter.old + 1 }
    ensures steady { meter.old ≤ meter.new }
{
    if at >= program.size() {
        return Ok(());
    }
    match program.read(at, meter) {
        Instruction::End(low, high) => push_range(*low, *high, numbers),
        _ => Ok(()),
    }
}

/// Adds the numbers from `low` to `high`.
fn push_range(low: usize, high: usize, numbers: &mut Vec<usize>) -> Result<(), AllocError>
    ensures { IfOk result (λ _. (number : ℕ) → Contains numbers.new.items number
        ↔ (Contains numbers.old.items number ⊎ ((low ≤ number) × (number ≤ high)))) }
{
    if low > high {
        return Ok(());
    }
    for number in low..high {
        numbers.push(number)?;
    }
    numbers.push(high)?;
    Ok(())
}
