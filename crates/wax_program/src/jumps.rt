//! The forks and jumps of a program, by the place that they lead to.
ghost use Rattle.std.specs.Prelude.{◌≡◌, ◌+◌, ◌<◌, ◌≤◌, ◌^◌, ℕ, IfOk, IfSome, Some, length};
ghost use Rattle.wax_program.specs.inner.Jumps.{AreJumps, JumpsTo};

use crate::instruction::Instruction;
use crate::machine::{CompiledProgram, Meter};
use std::alloc::{AllocError, Global};

/// The forks and jumps of a program, by the place that they lead to, from the last one on.
#[derive(Drop)]
pub(crate) struct Jumps {
    /// For each place, the last jump that leads to it.
    pub(crate) last: Vec<Option<usize>>,
    /// For each jump, the last one before it that leads to the same place.
    pub(crate) before: Vec<Option<usize>>,
}

impl Jumps {
    /// Finds them. Reads each instruction once.
    pub(crate) fn new(
        alloc: Global,
        program: &CompiledProgram,
        meter: &mut Meter,
    ) -> Result<Jumps, AllocError>
        ensures jumps { IfOk result (λ jumps. AreJumps program.now.0 jumps.last.items jumps.before.items) }
        ensures above { meter.new ≤ meter.old + length program.now.0 }
        ensures steady { meter.old ≤ meter.new }
    {
        let mut last = vec![in alloc; None; program.len()]?;
        let mut before = vec![in alloc; None; program.size()]?;
        for at in 0..program.size() {
            if let Some(to) = target(program.read(at, meter), at) {
                if to < last.len() {
                    before[at] = last[to];
                    last[to] = Some(at);
                }
            }
        }
        Ok(Jumps { last, before })
    }
}

/// Returns where the instruction at a place leads without a character, other than to the next place.
fn target(instruction: &Instruction, at: usize) -> Option<usize>
    ensures is { IfSome result (λ to. JumpsTo instruction.now at to) }
    ensures all { (to : ℕ) → JumpsTo instruction.now at to → to < 2 ^ 64 → result ≡ Some to }
{
    match instruction {
        Instruction::Fork(n) | Instruction::Jump(n) => at.checked_add(1)?.checked_add(*n),
        Instruction::Back(n) => Some(at.saturating_sub(*n)),
        _ => None,
    }
}
