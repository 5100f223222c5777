//! Cuts between characters: those without a cut between them pass the same tests of two programs.
ghost use Rattle.std.specs.Prelude.{◌+◌, ◌<◌, ℕ, Contains, IfOk, All, length};
ghost use Rattle.wax_compare.specs.inner.Cutting.{AreCuts, AreKept, CutsArchetype, CutsBefore, CutsFoldings};
ghost use Rattle.wax_compare.specs.inner.Cutting.{CutsTest, IsCutOut};

use std::alloc::{AllocError, Global};
use unicode::case::fold_pairs;
use wax_program::instruction::Test;
use wax_program::{CompiledProgram, Meter, test_at};
use wax_token::token::{Archetype, Class};

/// The first character after the surrogates.
pub const AFTER_SURROGATES: u32 = 0xE000;

/// Returns the cuts of two programs, ascending. All characters from a cut up to the next one pass
/// the same tests, in either program.
pub fn cuts(
    alloc: Global,
    first: &CompiledProgram,
    second: &CompiledProgram,
) -> Result<Vec<u32>, AllocError>
    ensures { IfOk result (λ v. AreCuts first.now.0 second.now.0 v.items) }
{
    let mut cuts = vec![in alloc; 0u32, AFTER_SURROGATES]?;
    let mut folded = Vec::new(alloc);
    cut_around('/', &mut cuts)?;
    cut_program(first, &mut cuts, &mut folded)?;
    cut_program(second, &mut cuts, &mut folded)?;
    cut_foldings(&folded, &mut cuts)?;
    cuts.sort_unstable();
    Ok(cuts)
}

/// Adds the cuts of a program, and the characters of its tests for foldings to `folded`.
fn cut_program(
    program: &CompiledProgram,
    cuts: &mut Vec<u32>,
    folded: &mut Vec<u32>,
) -> Result<(), AllocError>
    ensures cuts { IfOk result (λ _. AreKept cuts.old.items cuts.new.items) }
    ensures folded { IfOk result (λ _. AreKept folded.old.items folded.new.items) }
    ensures all { IfOk result (λ _.
        CutsBefore program.now.0 (length program.now.0) cuts.new.items folded.new.items) }
{
    let mut meter = Meter::new();
    for at in 0..program.size() {
        cut_at(program, at, cuts, folded, &mut meter)?;
    }
    Ok(())
}

/// Adds the cuts of the instruction at a place.
fn cut_at(
    program: &CompiledProgram,
    at: usize,
    cuts: &mut Vec<u32>,
    folded: &mut Vec<u32>,
    meter: &mut Meter,
) -> Result<(), AllocError>
    ensures cuts { IfOk result (λ _. AreKept cuts.old.items cuts.new.items) }
    ensures folded { IfOk result (λ _. AreKept folded.old.items folded.new.items) }
    ensures all { IfOk result (λ _. CutsBefore program.now.0 at cuts.old.items folded.old.items
        → CutsBefore program.now.0 (at + 1) cuts.new.items folded.new.items) }
{
    let Some(test) = test_at(program, at, meter) else {
        return Ok(());
    };
    cut_test(test, cuts, folded)?;
    Ok(())
}

fn cut_test(test: &Test, cuts: &mut Vec<u32>, folded: &mut Vec<u32>) -> Result<(), AllocError>
    ensures cuts { IfOk result (λ _. AreKept cuts.old.items cuts.new.items) }
    ensures folded { IfOk result (λ _. AreKept folded.old.items folded.new.items) }
    ensures all { IfOk result (λ _. CutsTest cuts.new.items folded.new.items test.now) }
{
    match test {
        Test::Char(c) => cut_around(*c, cuts),
        Test::Folded(c) => {
            list_folding(*c, folded)?;
            cut_around(*c, cuts)
        }
        Test::Class(class) => cut_class(class.class(), cuts),
        Test::NotSlash | Test::Any | Test::Never => Ok(()),
    }
}

/// Adds a character to `folded`, unless it is there.
fn list_folding(c: char, folded: &mut Vec<u32>) -> Result<(), AllocError>
    ensures kept { IfOk result (λ _. AreKept folded.old.items folded.new.items) }
    ensures listed { IfOk result (λ _. Contains folded.new.items c) }
{
    let number = c as u32;
    if folded.contains(&number) {
        return Ok(());
    }
    folded.push(number)?;
    Ok(())
}

fn cut_class(class: &Class, cuts: &mut Vec<u32>) -> Result<(), AllocError>
    ensures cuts { IfOk result (λ _. AreKept cuts.old.items cuts.new.items) }
    ensures all { IfOk result (λ _. All (CutsArchetype cuts.new.items) class.now.1) }
{
    for archetype in class.archetypes() {
        cut_archetype(archetype, cuts)?;
    }
    Ok(())
}

fn cut_archetype(archetype: &Archetype, cuts: &mut Vec<u32>) -> Result<(), AllocError>
    ensures cuts { IfOk result (λ _. AreKept cuts.old.items cuts.new.items) }
    ensures cut { IfOk result (λ _. CutsArchetype cuts.new.items archetype.now) }
{
    match archetype {
        Archetype::Character(c) => cut_around(*c, cuts),
        Archetype::Range(low, high) => {
            cuts.push(*low as u32)?;
            cuts.push(*high as u32 + 1)?;
            Ok(())
        }
    }
}

/// Adds the cuts before and after the characters whose folding is another one of `folded`.
fn cut_foldings(folded: &Vec<u32>, cuts: &mut Vec<u32>) -> Result<(), AllocError>
    ensures cuts { IfOk result (λ _. AreKept cuts.old.items cuts.new.items) }
    ensures all { IfOk result (λ _. CutsFoldings cuts.new.items folded.now.items) }
{
    if folded.is_empty() {
        return Ok(());
    }
    for (c, other) in fold_pairs() {
        cut_folding(*c, *other, folded, cuts)?;
    }
    Ok(())
}

fn cut_folding(c: u32, other: u32, folded: &[u32], cuts: &mut Vec<u32>) -> Result<(), AllocError>
    requires { c < 1114112 }
    ensures cuts { IfOk result (λ _. AreKept cuts.old.items cuts.new.items) }
    ensures all { IfOk result (λ _. Contains folded.now other → IsCutOut cuts.new.items c) }
{
    if folded.contains(&other) {
        cuts.push(c)?;
        cuts.push(c + 1)?;
    }
    Ok(())
}

fn cut_around(c: char, cuts: &mut Vec<u32>) -> Result<(), AllocError>
    ensures cuts { IfOk result (λ _. AreKept cuts.old.items cuts.new.items) }
    ensures cut { IfOk result (λ _. IsCutOut cuts.new.items c) }
{
    cuts.push(c as u32)?;
    cuts.push(c as u32 + 1)?;
    Ok(())
}
