//! The instructions of a program.
ghost use Rattle.std.specs.{Prelude.{◌≡◌, ◌≢◌, ◌↔◌, ℕ, IfOk, IsTrue, true}, Char.IsScalar, List.list_all};
ghost use Rattle.unicode.specs.CaseFolding.{simple_fold};
ghost use Rattle.wax_program.specs.Machine.{PassesTest};
ghost use Rattle.wax_program.specs.Onward.{FoldsOther, HoldsOther, IsOther, ListsOther, TakesOther};
ghost use Rattle.wax_token.specs.Meaning.{in_archetype, in_class, is_forward};

use crate::ranges::leaves_other;
use std::alloc::{AllocError, Global};
use std::marker::Model;
use unicode::case::simple_fold;
use wax_token::token::{Archetype, Class};

/// A test of one character.
#[derive(Drop)]
pub enum Test {
    /// Passes for this character.
    Char(char),
    /// Passes for a character whose simple case folding is this one.
    Folded(char),
    /// Passes for a character that the class matches.
    Class(BoxedClass),
    /// Passes for any character but `/`.
    NotSlash,
    /// Passes for any character.
    Any,
    /// Passes for no character.
    Never,
}

/// A class behind a pointer, so that instructions and forms without a class take little room.
/// Contracts see the class.
#[derive(Drop)]
pub struct BoxedClass {
    class: Box<Class>,
}

impl Model for BoxedClass {
    ghost use Rattle.std.specs.Prelude.{Bool, List};
    ghost use Rattle.wax_token.specs.declared.token.Archetype.{Archetype};

    ghost Value = { Bool × List Archetype };

    ghost view = { λ b. b.class.value };
}

impl BoxedClass {
    /// Copies the class.
    pub fn copied(alloc: Global, class: &Class) -> Result<BoxedClass, AllocError>
        ensures { IfOk result (λ b. b ≡ class.now) }
    {
        let archetypes = class.archetypes().to_vec(alloc)?;
        let class = Class::new(class.is_negated(), archetypes);
        Ok(BoxedClass {
            class: Box::new(alloc, class)?,
        })
    }

    /// Returns the class.
    pub fn class(&self) -> &Class
        ensures { result.now ≡ self.now }
    {
        &self.class
    }

    /// Returns whether the class matches `c`.
    fn contains(&self, c: char) -> bool
        ensures { result ≡ in_class self.now.0 self.now.1 c }
    {
        self.class.contains(c)
    }
}

/// An instruction. The next one follows, unless it says something else. A text is accepted if it
/// ends when the place after the last instruction is reached.
#[derive(Drop)]
pub enum Instruction {
    /// Takes one character, which has to pass the test.
    Check(Test),
    /// Takes zero or more characters, each of which has to pass the test.
    Repeat(Test),
    /// Takes one or more characters, the last of which has to be `/`.
    Components,
    /// Goes on in two ways: with the next instruction, and after skipping this many.
    Fork(usize),
    /// Skips this many instructions.
    Jump(usize),
    /// Goes back by this many instructions.
    Back(usize),
    /// The end of a pattern in a program of several: takes the mark of a number from the first to the
    /// second one, and nothing after it. A mark stands for a number after a text and is no character.
    End(usize, usize),
}

impl Test {
    /// Returns whether the character passes. Takes time linear in the archetypes of a class.
    #[inline]
    pub fn passes(&self, c: char) -> bool
        ensures { IsTrue result ↔ PassesTest self.now c }
    {
        match self {
            Test::Char(d) => *d == c,
            Test::Folded(d) => folds_to(c, *d),
            Test::Class(class) => is_in(class, c),
            Test::NotSlash => c != '/',
            Test::Any => true,
            Test::Never => false,
        }
    }

    /// Copies the test, with its class.
    pub fn copied(&self, alloc: Global) -> Result<Test, AllocError>
        ensures { IfOk result (λ test. test ≡ self.now) }
    {
        match self {
            Test::Char(d) => Ok(Test::Char(*d)),
            Test::Folded(d) => Ok(Test::Folded(*d)),
            Test::Class(class) => Ok(Test::Class(BoxedClass::copied(alloc, class.class())?)),
            Test::NotSlash => Ok(Test::NotSlash),
            Test::Any => Ok(Test::Any),
            Test::Never => Ok(Test::Never),
        }
    }

    /// Returns whether some character other than `/` passes. Takes time linear in the archetypes of
    /// a class, or what it takes to sort them if the class is negated.
    pub fn takes_other(&self, alloc: Global) -> Result<bool, AllocError>
        ensures { IfOk result (λ answer. IsTrue answer ↔ TakesOther self.now) }
    {
        match self {
            Test::Char(d) => Ok(is_other(*d)),
            Test::Folded(d) => Ok(folded_other(*d)),
            Test::Class(class) => holds_other(alloc, class),
            Test::NotSlash => Ok(true),
            Test::Any => Ok(true),
            Test::Never => Ok(false),
        }
    }
}

fn is_other(d: char) -> bool
    ensures scalar { IsScalar d }
    ensures other { IsTrue result ↔ (d ≢ 47) }
{
    d != '/'
}

/// Returns whether some character other than `/` has the simple case folding `d`. If one has, then
/// `d` has it, too.
fn folded_other(d: char) -> bool
    ensures { IsTrue result ↔ FoldsOther d }
{
    d != '/' && folds_to(d, d)
}

fn holds_other(alloc: Global, class: &BoxedClass) -> Result<bool, AllocError>
    ensures { IfOk result (λ answer. IsTrue answer ↔ HoldsOther class.now.0 class.now.1) }
{
    class_other(alloc, class.class.is_negated(), class.class.archetypes())
}

/// Returns whether a class has a character. It has none if a range is reversed. One that isn't
/// negated has none if all that it lists is `/`; one that is negated, if it lists all but `/`.
fn class_other(alloc: Global, negated: bool, archetypes: &[Archetype]) -> Result<bool, AllocError>
    ensures { IfOk result (λ answer. IsTrue answer ↔ HoldsOther negated archetypes.now) }
{
    if !are_forward(archetypes) {
        return Ok(false);
    }
    if negated {
        return leaves_other(alloc, archetypes);
    }
    Ok(list_other(archetypes))
}

fn are_forward(archetypes: &[Archetype]) -> bool
    ensures { result ≡ list_all is_forward archetypes.now }
{
    archetypes.iter().all(|archetype| is_forward(archetype))
}

fn is_forward(archetype: &Archetype) -> bool
    ensures { result ≡ is_forward archetype.now }
{
    match archetype {
        Archetype::Character(_) => true,
        Archetype::Range(low, high) => *low <= *high,
    }
}

/// Returns whether one of the archetypes has a character other than `/`.
fn list_other(archetypes: &[Archetype]) -> bool
    requires { list_all is_forward archetypes.now ≡ true }
    ensures { IsTrue result ↔ ListsOther archetypes.now }
{
    for archetype in archetypes {
        if has_other(archetype) {
            return true;
        }
    }
    false
}

/// Returns whether the archetype, if it isn't reversed, has a character other than `/`.
fn has_other(archetype: &Archetype) -> bool
    ensures { is_forward archetype.now ≡ true
        → IsTrue result ↔ ((c : ℕ) × IsOther c × (in_archetype c archetype.now ≡ true)) }
{
    match archetype {
        Archetype::Character(c) => is_other(*c),
        Archetype::Range(low, high) => is_other(*low) || is_other(*high),
    }
}

/// Returns whether `d` is the simple case folding of `c`.
#[inline]
pub fn folds_to(c: char, d: char) -> bool
    ensures { IsTrue result ↔ (d ≡ simple_fold c) }
{
    if c.is_ascii() {
        return c.to_ascii_lowercase() == d;
    }
    folds_far(c, d)
}

// These two aren't inlined, since otherwise each round pays for them, even without such a test.

#[inline(never)]
fn folds_far(c: char, d: char) -> bool
    ensures { IsTrue result ↔ (d ≡ simple_fold c) }
{
    d == simple_fold(c)
}

#[inline(never)]
fn is_in(class: &BoxedClass, c: char) -> bool
    ensures { IsTrue result ↔ (in_class class.now.0 class.now.1 c ≡ true) }
{
    class.contains(c)
}
