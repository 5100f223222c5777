//! Writing a program from its end, so that most offsets are known when they are written.
ghost use Rattle.std.specs.Prelude.{◌≡◌, ◌+◌, ◌-◌, ◌<◌, [], ◌∷◌, List, IfOk, OnOk, length, slice_set};

use std::alloc::{AllocError, Global};
use std::marker::Model;
use wax_program::instruction::Instruction;

/// The last instructions of a program, as far as they are written. Contracts see them in their
/// order.
#[derive(Drop)]
pub struct Tail {
    reversed: Vec<Instruction>,
}

impl Model for Tail {
    ghost use Rattle.std.specs.{Prelude.{List, reverse}, Coded.coded_list};
    ghost use Rattle.wax_program.specs.declared.instruction.Instruction.{Instruction};
    ghost use Rattle.wax_program.specs.contracts.instruction.Instruction as instruction;

    ghost Value = { List Instruction };

    ghost coded = { coded_list instruction.the_row.coded };

    ghost view = { λ t. reverse t.reversed.items };
}

impl Tail {
    /// Creates an empty program with room for so many instructions.
    pub fn with_room(alloc: Global, room: usize) -> Result<Tail, AllocError>
        ensures { IfOk result (λ tail. tail ≡ []) }
    {
        Ok(Tail {
            reversed: Vec::with_capacity(alloc, room)?,
        })
    }

    /// Returns the allocator of the instructions.
    pub fn allocator(&self) -> Global {
        *self.reversed.allocator()
    }

    pub fn len(&self) -> usize
        ensures { result ≡ length self.now }
    {
        self.reversed.len()
    }

    /// Writes an instruction before all others.
    pub fn put(&mut self, instruction: Instruction) -> Result<(), AllocError>
        ensures { OnOk result (self.new ≡ instruction ∷ self.old) }
    {
        self.reversed.push(instruction)?;
        Ok(())
    }

    /// Replaces the instruction after the first `by` ones.
    pub fn replace(&mut self, by: usize, instruction: Instruction)
        requires { by < length self.old }
        ensures { self.new ≡ slice_set self.old by instruction }
    {
        let at = self.reversed.len() - 1 - by;
        self.reversed[at] = instruction;
    }

    /// Returns the instructions in their order.
    pub fn into_instructions(self) -> Vec<Instruction>
        ensures { result.items ≡ self }
    {
        let Tail { reversed } = self;
        let mut instructions = reversed;
        instructions.reverse();
        instructions
    }
}
