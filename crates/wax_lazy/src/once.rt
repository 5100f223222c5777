//! Following one text without states, which takes no longer than the places that it reaches.
ghost use Rattle.std.specs.Prelude.{◌≤◌, ◌+◌, IfOk, chars, length};
ghost use Rattle.wax_lazy.specs.{Cost.list_visits, Numbers.{AreNumbers, IsLastNumber}};
ghost use Rattle.wax_program.specs.Closed.{IsClosed};

use std::alloc::{AllocError, Global};
use std::mem;
use wax_program::{CompiledProgram, Meter};
use wax_states::Stepper;

/// Writes the numbers of the patterns that match the text, ascending. The program has to be one whose
/// patterns have ends of their own. Takes time in proportion to the instructions that it reads, each
/// at most once for a character. For many texts a matcher is faster.
pub fn list_numbers(
    alloc: Global,
    program: &CompiledProgram,
    text: &str,
    numbers: &mut Vec<usize>,
) -> Result<(), AllocError>
    requires { IsClosed program.now.0 }
    ensures { IfOk result (λ _. AreNumbers program.now.0 (chars text.now) numbers.new.items) }
{
    let mut meter = Meter::new();
    list_numbers_metered(alloc, program, text, numbers, &mut meter)
}

/// Writes what `list_numbers` does. The meter counts the instructions that are read: for each character at
/// most as many as the program has, and at the end at most twice as many, and one more.
pub fn list_numbers_metered(
    alloc: Global,
    program: &CompiledProgram,
    text: &str,
    numbers: &mut Vec<usize>,
    meter: &mut Meter,
) -> Result<(), AllocError>
    requires { IsClosed program.now.0 }
    ensures numbers { IfOk result (λ _. AreNumbers program.now.0 (chars text.now) numbers.new.items) }
    ensures above { meter.new ≤ meter.old + list_visits program.now.0 (length (chars text.now)) }
    ensures steady { meter.old ≤ meter.new }
{
    let mut stepper = Stepper::new(alloc, program)?;
    let mut places = vec![in alloc; 0]?;
    let mut reached = Vec::new(alloc);
    let mut own = Vec::new(alloc);
    let mut left = text.chars();
    while let Some(c) = left.next() {
        if !stepper.step(program, &places, c, &[], &mut reached, &mut own, meter)? {
            numbers.clear();
            return Ok(());
        }
        mem::swap(&mut places, &mut reached);
    }
    stepper.list_ends(program, &places, numbers, meter)?;
    Ok(())
}

/// Returns the greatest number of a pattern that matches the text, or `None` if no pattern matches. The
/// program has to be one whose patterns have ends of their own. Takes what `list_numbers` does.
pub fn last_number(
    alloc: Global,
    program: &CompiledProgram,
    text: &str,
) -> Result<Option<usize>, AllocError>
    requires { IsClosed program.now.0 }
    ensures { IfOk result (IsLastNumber program.now.0 (chars text.now)) }
{
    let mut meter = Meter::new();
    last_number_metered(alloc, program, text, &mut meter)
}

/// Returns what `last_number` does. The meter counts as in `list_numbers_metered`.
pub fn last_number_metered(
    alloc: Global,
    program: &CompiledProgram,
    text: &str,
    meter: &mut Meter,
) -> Result<Option<usize>, AllocError>
    requires { IsClosed program.now.0 }
    ensures last { IfOk result (IsLastNumber program.now.0 (chars text.now)) }
    ensures above { meter.new ≤ meter.old + list_visits program.now.0 (length (chars text.now)) }
    ensures steady { meter.old ≤ meter.new }
{
    let mut numbers = Vec::new(alloc);
    list_numbers_metered(alloc, program, text, &mut numbers, meter)?;
    Ok(numbers.last().copied())
}
