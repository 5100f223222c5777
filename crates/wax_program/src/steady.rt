//! Steady sets: sets of places that most characters lead back to, so that these need no round.
ghost use Rattle.std.specs.Prelude.{◌≡◌, ◌+◌, ◌≤◌, ℕ, List, IfSome, IsTrue, min};
ghost use Rattle.wax_program.specs.{Machine.PassesTest, Meter.most_ticks};
ghost use Rattle.wax_program.specs.Steady.{IsAbsorbing, IsKnown, MissesWatched, Misses, NotedMiss};
ghost use Rattle.wax_program.specs.{Steady.NotedRepeat, Threads.Advances};

use crate::instruction::{Instruction, Test};
use crate::machine::{CompiledProgram, Meter};
use crate::sets::Sets;

/// A set of places, held by a word, that leads back to itself by each character that the check at
/// `watch` doesn't take, apart from `/`.
#[derive(Clone, Copy)]
pub struct Steady {
    pub word: u64,
    pub watch: usize,
    /// True if `/` leads back to the set, too.
    pub by_slash: bool,
    /// True if every character but `/` leads back to the set, so that nothing has to be watched.
    pub by_others: bool,
}

/// Which characters other than `/` have the effect that the character of a round had, as far as the
/// instructions that were read show.
#[derive(Clone, Copy)]
pub enum Watched {
    /// All of them.
    Nothing,
    /// Those that the check at this place doesn't take.
    CheckAt(usize),
    /// Not known.
    Unknown,
}

impl Watched {
    /// Records that the check at the place didn't take the round's character.
    #[inline(always)]
    pub fn miss(&mut self, at: usize, test: &Test)
        ensures { NotedMiss self.old self.new at test.now }
    {
        if let Test::Char('/') = test {
            return;
        }
        *self = match self {
            Watched::Nothing => Watched::CheckAt(at),
            _ => Watched::Unknown,
        };
    }

    /// Records that a repeated test was read.
    #[inline(always)]
    pub fn repeat(&mut self, test: &Test)
        ensures { NotedRepeat self.old self.new test.now }
    {
        match test {
            Test::NotSlash | Test::Any => {}
            _ => *self = Watched::Unknown,
        }
    }

    /// Returns the place whose check has to be watched, or `None` if that isn't known. If none has
    /// to be, any place is right.
    #[inline(always)]
    pub fn place(self) -> Option<usize>
        ensures { IfSome result
            (λ k. (code : List Instruction) (d : ℕ) → Misses code k d → MissesWatched code self d) }
    {
        match self {
            Watched::Nothing => Some(0),
            Watched::CheckAt(at) => Some(at),
            Watched::Unknown => None,
        }
    }

    /// Returns whether all characters other than `/` have the effect of the round's.
    #[inline(always)]
    pub fn is_nothing(self) -> bool
        ensures { IsTrue result → (code : List Instruction) (d : ℕ) → MissesWatched code self d }
    {
        matches!(self, Watched::Nothing)
    }
}

/// Returns `false` for a check that takes the character, and `true` for any other instruction.
#[inline(always)]
fn misses(instruction: &Instruction, c: char) -> bool
    ensures { IsTrue result → (t : Test) → instruction.now ≡ Instruction.Check t → PassesTest t c → ⊥ }
{
    match instruction {
        Instruction::Check(test) => !test.passes(c),
        _ => true,
    }
}

/// Returns whether the character is known to lead from the places that are to be read back to them.
/// Reads at most one instruction.
#[inline(always)]
pub fn stays<R: Sets>(
    program: &CompiledProgram,
    c: char,
    sets: &R,
    steady: Option<Steady>,
    meter: &mut Meter,
) -> bool
    requires known { IfSome steady (IsKnown program.now.0) }
    ensures advances { IsTrue result
        → Advances program.now.0 c (R.position sets.now).pending (R.position sets.now).pending }
    ensures above { meter.new ≤ meter.old + 1 }
    ensures steady { meter.old ≤ meter.new }
    ensures below { IsTrue result → min (meter.old + 1) most_ticks ≤ meter.new }
{
    let Some(known) = steady else {
        return false;
    };
    if !sets.is_at(known.word) || (c == '/' && !known.by_slash) {
        return false;
    }
    let is_missed = misses(program.read(known.watch, meter), c);
    c == '/' || is_missed
}

/// Returns whether every character is known to lead from the places that are to be read back to
/// them. The rest of the text then changes nothing.
#[inline(always)]
#[tactic(auto, using(crate::proofs::Staying::absorbing))]
pub fn absorbs<R: Sets>(program: &CompiledProgram, sets: &R, steady: Option<Steady>) -> bool
    requires known { IfSome steady (IsKnown program.now.0) }
    ensures { IsTrue result → IsAbsorbing program.now.0 (R.position sets.now).pending }
{
    let Some(known) = steady else {
        return false;
    };
    known.by_slash && known.by_others && sets.is_at(known.word)
}
