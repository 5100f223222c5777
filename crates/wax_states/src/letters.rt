//! Characters past ASCII that no test of a program distinguishes.
ghost use Rattle.std.specs.Prelude.{◌≡◌, ◌+◌, ◌<◌, ◌≤◌, ℕ, List, IfOk, IfSome, IsTrue, length, true};
ghost use Rattle.std.specs.List.{list_all};
ghost use Rattle.wax_program.specs.{declared.instruction.Instruction.Instruction, Places.HoldsPlace};
ghost use Rattle.wax_states.specs.Alike.{AreAlike, AreLettersOf, SharesLetter};
ghost use Rattle.wax_states.specs.inner.Marks.{IsMarkedBelow, KeepsMarked, MarksBefore, MarksFoldings};
ghost use Rattle.wax_states.specs.inner.Marks.{MarksTest, lists_ascii};

use std::alloc::{AllocError, Global};
use unicode::case::fold_pairs;
use wax_program::bits::Set;
use wax_program::instruction::Test;
use wax_program::{CompiledProgram, Meter, test_at};
use wax_token::token::{Archetype, Class};

/// Characters from this one on are their own letters.
const LIMIT: usize = 131_072;

/// The first character that may be the letter of others. Few texts have it.
const FIRST_LETTER: u32 = 0x2603;

/// The first surrogate, which isn't a character.
const FIRST_SURROGATE: u32 = 0xD800;

/// For each character its letter, which passes the same tests of a program. The letter of most characters
/// past ASCII is one that the program doesn't name.
#[derive(Drop)]
pub struct Letters {
    /// The characters below [`LIMIT`] that tests distinguish from others.
    pub marks: Set,
    /// The letter of all characters past ASCII that aren't marked. `None` if each character is its own
    /// letter.
    pub shared: Option<char>,
}

impl Letters {
    /// Finds the letters of a program. Reads each instruction at most once, and allocates 16 KiB.
    pub fn new(
        alloc: Global,
        program: &CompiledProgram,
        meter: &mut Meter,
    ) -> Result<Letters, AllocError>
        ensures letters { IfOk result (AreLettersOf program.now.0) }
        ensures above { meter.new ≤ meter.old + length program.now.0 }
        ensures steady { meter.old ≤ meter.new }
    {
        let mut marks = Set::new(alloc, LIMIT)?;
        if !mark_tests(program, &mut marks, meter) {
            return Ok(Letters {
                marks,
                shared: None,
            });
        }
        mark_foldings(&mut marks);
        let shared = unmarked(&marks);
        Ok(Letters { marks, shared })
    }

    /// Returns the letter of a character.
    #[inline]
    pub fn of(&self, c: char) -> char
        requires { 131072 < length self.now.marks }
        ensures { (code : List Instruction) → AreLettersOf code self.now → AreAlike code c result }
    {
        match self.shared {
            Some(letter) => {
                if is_unmarked(&self.marks, c as u32) {
                    letter
                } else {
                    c
                }
            }
            None => c,
        }
    }
}

/// Returns whether the character is past ASCII, below [`LIMIT`], and not marked.
#[inline]
fn is_unmarked(marks: &Set, c: u32) -> bool
    requires { 131072 < length marks.now }
    ensures { IsTrue result → SharesLetter marks.now c }
{
    c >= 128 && (c as usize) < LIMIT && !marks.contains(c as usize)
}

/// Marks a character, if it is below [`LIMIT`].
fn mark(c: u32, marks: &mut Set)
    requires { 131072 < length marks.old }
    ensures room { 131072 < length marks.new }
    ensures kept { KeepsMarked marks.old marks.new }
    ensures marked { IsMarkedBelow marks.new c }
{
    if (c as usize) < LIMIT {
        marks.insert(c as usize);
    }
}

/// Marks the characters that tests of the program name. Returns `false` if some test may distinguish others,
/// too.
fn mark_tests(program: &CompiledProgram, marks: &mut Set, meter: &mut Meter) -> bool
    requires { 131072 < length marks.old }
    ensures room { 131072 < length marks.new }
    ensures tests { IsTrue result → MarksBefore program.now.0 (length program.now.0) marks.new }
    ensures above { meter.new ≤ meter.old + length program.now.0 }
    ensures steady { meter.old ≤ meter.new }
{
    for at in 0..program.size() {
        if !mark_at(program, at, marks, meter) {
            return false;
        }
    }
    true
}

/// Marks the characters that the test of the instruction at a place names.
fn mark_at(program: &CompiledProgram, at: usize, marks: &mut Set, meter: &mut Meter) -> bool
    requires { 131072 < length marks.old }
    ensures room { 131072 < length marks.new }
    ensures tests { IsTrue result
        → MarksBefore program.now.0 at marks.old → MarksBefore program.now.0 (at + 1) marks.new }
    ensures above { meter.new ≤ meter.old + 1 }
    ensures steady { meter.old ≤ meter.new }
{
    let Some(test) = test_at(program, at, meter) else {
        return true;
    };
    mark_test(test, marks)
}

/// Marks the characters that a test names. Returns `false` if it is a class that lists one past ASCII, or
/// if a folding is that of a character from [`LIMIT`] on.
fn mark_test(test: &Test, marks: &mut Set) -> bool
    requires { 131072 < length marks.old }
    ensures room { 131072 < length marks.new }
    ensures kept { KeepsMarked marks.old marks.new }
    ensures test { IsTrue result → MarksTest marks.new test.now }
{
    match test {
        Test::Char(c) => {
            mark(*c as u32, marks);
            true
        }
        Test::Folded(c) => {
            mark(*c as u32, marks);
            (*c as usize) < LIMIT
        }
        Test::Class(class) => are_ascii(class.class()),
        Test::NotSlash | Test::Any | Test::Never => true,
    }
}

/// Returns whether the class lists only ASCII characters.
fn are_ascii(class: &Class) -> bool
    ensures { result ≡ list_all lists_ascii class.now.1 }
{
    class
        .archetypes()
        .iter()
        .all(|archetype| lists_ascii(archetype))
}

fn lists_ascii(archetype: &Archetype) -> bool
    ensures { result ≡ lists_ascii archetype.now }
{
    match archetype {
        Archetype::Character(c) => (*c as u32) < 128,
        Archetype::Range(_, high) => (*high as u32) < 128,
    }
}

/// Marks the characters with a folding that is marked.
fn mark_foldings(marks: &mut Set)
    requires { 131072 < length marks.old }
    ensures room { 131072 < length marks.new }
    ensures kept { KeepsMarked marks.old marks.new }
    ensures foldings { MarksFoldings marks.old marks.new }
{
    for (c, other) in fold_pairs() {
        mark_folding(*c, *other, marks);
    }
}

/// Marks a character if its folding, which is another one, is marked.
fn mark_folding(c: u32, folding: u32, marks: &mut Set)
    requires { 131072 < length marks.old }
    ensures room { 131072 < length marks.new }
    ensures kept { KeepsMarked marks.old marks.new }
    ensures marked { folding < 131072 → HoldsPlace marks.old folding → IsMarkedBelow marks.new c }
{
    if (folding as usize) < LIMIT && marks.contains(folding as usize) {
        mark(c, marks);
    }
}

/// Returns a character that isn't marked, if one is found.
fn unmarked(marks: &Set) -> Option<char>
    requires { 131072 < length marks.now }
    ensures { IfSome result (SharesLetter marks.now) }
{
    for c in FIRST_LETTER..FIRST_SURROGATE {
        if is_unmarked(marks, c) {
            return char::from_u32(c);
        }
    }
    None
}
