//! Letters that a program's instructions distinguish.
ghost use Rattle.std.specs.Prelude.{◌≡◌, ◌<◌, ◌↔◌, IfOk, IsTrue, length};
ghost use Rattle.wax_compare.specs.inner.Distinctions.{AreDistinctions, AreExceptions, AreMarkedAt};
ghost use Rattle.wax_compare.specs.inner.Distinctions.{KeepsMarks, MarksOthers, TakesCharacter};

use crate::closure::Closure;
use std::alloc::{AllocError, Global};
use wax_program::instruction::{Instruction, Test};
use wax_program::{CompiledProgram, Meter};

/// The letters that an instruction distinguishes from all others, by which it does the same.
#[derive(Drop)]
pub struct Exceptions {
    /// Their numbers, ascending.
    pub letters: Vec<usize>,
}

/// Which letters the instructions of a program distinguish.
#[derive(Drop)]
pub struct Distinctions {
    /// Those of each instruction.
    pub exceptions: Vec<Exceptions>,
    /// The instructions that are read from the places that were asked about last.
    pub closure: Closure,
}

impl Distinctions {
    /// Runs each test of the program, at most twice for each letter.
    pub fn new(
        alloc: Global,
        program: &CompiledProgram,
        letters: &[char],
    ) -> Result<Distinctions, AllocError>
        ensures { IfOk result (AreDistinctions program.now.0 letters.now) }
    {
        let mut exceptions = Vec::new(alloc);
        let mut meter = Meter::new();
        for at in 0..program.size() {
            exceptions.push(exceptions_of(alloc, program.read(at, &mut meter), letters)?)?;
        }
        Ok(Distinctions {
            exceptions,
            closure: Closure::new(alloc, program)?,
        })
    }

    /// Marks letters so that all others lead from the places to the same. Takes time in proportion to the
    /// letters, the instructions that are read from the places on, and the exceptions of these.
    pub fn mark(
        &mut self,
        alloc: Global,
        program: &CompiledProgram,
        letters: &[char],
        places: &[usize],
    ) -> Result<Vec<bool>, AllocError>
        requires { AreDistinctions program.now.0 letters.now self.old }
        ensures kept { IfOk result (λ _. AreDistinctions program.now.0 letters.now self.new) }
        ensures marked { IfOk result (λ v. MarksOthers program.now.0 letters.now places.now v.items) }
        ensures len { IfOk result (λ v. length v.items ≡ length letters.now) }
    {
        let all = self.closure.list(program, places)?;
        let mut marked = vec![in alloc; !all; letters.len()]?;
        for place in &self.closure.places {
            mark_exceptions(&self.exceptions, *place, &mut marked);
        }
        Ok(marked)
    }
}

/// Marks the exceptions of the instruction at a place.
fn mark_exceptions(exceptions: &[Exceptions], place: usize, marked: &mut Vec<bool>)
    ensures kept { KeepsMarks marked.old.items marked.new.items }
    ensures len { length marked.new.items ≡ length marked.old.items }
    ensures marked { AreMarkedAt exceptions.now marked.new.items place }
{
    if place >= exceptions.len() {
        return;
    }
    for letter in &exceptions[place].letters {
        if *letter < marked.len() {
            marked[*letter] = true;
        }
    }
}

/// Lists the letters that an instruction takes and most others not, or the other way round.
fn exceptions_of(
    alloc: Global,
    instruction: &Instruction,
    letters: &[char],
) -> Result<Exceptions, AllocError>
    ensures { IfOk result (λ e. AreExceptions letters.now instruction.now e.letters.items) }
{
    let takes_others = takes_most(instruction, letters);
    let mut numbers = Vec::new(alloc);
    for number in 0..letters.len() {
        if takes(instruction, letters[number]) == takes_others {
            continue;
        }
        numbers.push(number)?;
    }
    Ok(Exceptions { letters: numbers })
}

/// Returns whether an instruction takes more than half of the letters. One that asks for a certain
/// character is taken not to, without a look at them.
fn takes_most(instruction: &Instruction, letters: &[char]) -> bool {
    if matches!(instruction, Instruction::Check(Test::Char(_))) {
        return false;
    }
    let mut taken = 0usize;
    for letter in letters {
        if takes(instruction, *letter) {
            taken = taken.saturating_add(1);
        }
    }
    taken > letters.len() / 2
}

/// Returns whether an instruction takes a character.
fn takes(instruction: &Instruction, c: char) -> bool
    ensures takes { IsTrue result ↔ TakesCharacter instruction.now c }
    ensures small { c < 1114112 }
{
    match instruction {
        Instruction::Check(test) | Instruction::Repeat(test) => test.passes(c),
        Instruction::Components => c == '/',
        Instruction::Fork(_)
        | Instruction::Jump(_)
        | Instruction::Back(_)
        | Instruction::End(_, _) => false,
    }
}
