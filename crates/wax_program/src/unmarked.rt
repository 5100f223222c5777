//! Programs of several patterns without the marks of their numbers.
ghost use Rattle.std.specs.Prelude.{◌≡◌, ◌<◌, ◌↔◌, ℕ, IfOk, List, length};
ghost use Rattle.wax_program.specs.{Closed.{AcceptsMarked, IsClosed}, Machine.Accepts};
ghost use Rattle.wax_program.specs.inner.Unmarked.{ReplacesAt, ReplacesEnd};

use crate::instruction::{Instruction, Test};
use crate::machine::{CompiledProgram, Meter};
use std::alloc::{AllocError, Global};

/// Returns a program that accepts a text exactly if this one accepts it with the mark of some number after
/// it. Its length is `len`. Takes time and memory linear in the program.
pub fn without_marks(
    alloc: Global,
    program: &CompiledProgram,
    len: usize,
) -> Result<CompiledProgram, AllocError>
    requires closed { IsClosed program.now.0 }
    requires some { 0 < length program.now.0 }
    requires len { length program.now.0 < len }
    ensures accepts { IfOk result (λ p. (s : List ℕ) → Accepts p.0 0 s ↔ AcceptsMarked program.now.0 s) }
    ensures len { IfOk result (λ p. p.1 ≡ len) }
{
    let mut instructions = Vec::with_capacity(alloc, program.size())?;
    let mut meter = Meter::new();
    for at in 0..program.size() {
        instructions.push(unmarked(alloc, program, at, &mut meter)?)?;
    }
    Ok(CompiledProgram::new(instructions, len))
}

/// Copies the instruction at a place, unless it takes marks: in place of such an end, returns a jump to the
/// end of the program.
fn unmarked(
    alloc: Global,
    program: &CompiledProgram,
    at: usize,
    meter: &mut Meter,
) -> Result<Instruction, AllocError>
    requires { at < length program.now.0 }
    ensures { IfOk result (ReplacesAt program.now.0 at) }
{
    match program.read(at, meter) {
        Instruction::Check(test) => Ok(Instruction::Check(test.copied(alloc)?)),
        Instruction::Repeat(test) => Ok(Instruction::Repeat(test.copied(alloc)?)),
        Instruction::Components => Ok(Instruction::Components),
        Instruction::Fork(n) => Ok(Instruction::Fork(*n)),
        Instruction::Jump(n) => Ok(Instruction::Jump(*n)),
        Instruction::Back(n) => Ok(Instruction::Back(*n)),
        Instruction::End(low, high) => Ok(unmarked_end(program, at, *low, *high)),
    }
}

/// Returns a jump to the end of the program from a place, or a check that no character passes if there is no
/// number from `low` to `high`.
fn unmarked_end(program: &CompiledProgram, at: usize, low: usize, high: usize) -> Instruction
    requires { at < length program.now.0 }
    ensures { ReplacesEnd (length program.now.0) at low high result }
{
    if low > high {
        return Instruction::Check(Test::Never);
    }
    Instruction::Jump(program.size() - at - 1)
}
