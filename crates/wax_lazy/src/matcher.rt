//! Matchers of many texts.
ghost use Rattle.std.specs.Prelude.{◌≡◌, ◌+◌, ◌≤◌, ◌↔◌, IfOk, IsTrue, List, chars, length};
ghost use Rattle.wax_lazy.specs.Cost.{list_visits, match_visits, most_kept};
ghost use Rattle.wax_lazy.specs.{Numbers.{AreNumbers, IsLastNumber}, Verdict.IsVerdict};
ghost use Rattle.wax_program.specs.{Closed.IsClosed, Machine.Accepts, Visits.onward_visits};
ghost use Rattle.wax_program.specs.declared.instruction.Instruction.{Instruction};

use crate::dfa::LazyDfa;
use std::alloc::Global;
use std::marker::Model;
use wax_program::{CompiledProgram, Meter};
use wax_query::diagnostics::NoMemory;
use wax_query::query::Verdict;

/// A program with what else is known of the texts that it accepts, or a reference to one.
pub trait HasProgram {
    // The instructions of the program.
    ghost code: { Self → List Instruction };

    /// Returns the program.
    fn program(&self) -> &CompiledProgram
        ensures { result.now.0 ≡ code self.now };

    /// Returns `false` only if the program doesn't accept the text, by a test that takes less time
    /// than a matcher. By default, returns `true`. Doesn't allocate.
    #[inline]
    fn may_accept(&self, _text: &str) -> bool
        ensures { Accepts (code self.now) 0 (chars _text.now) → IsTrue result }
    {
        true
    }
}

impl HasProgram for CompiledProgram {
    ghost code = { λ program. program.0 };

    #[inline]
    fn program(&self) -> &CompiledProgram {
        self
    }
}

impl<P: HasProgram> HasProgram for &P {
    ghost code = { λ held. P.code held.now };

    #[inline]
    fn program(&self) -> &CompiledProgram {
        P::program(*self)
    }

    #[inline]
    fn may_accept(&self, text: &str) -> bool {
        P::may_accept(*self, text)
    }
}

/// A program for matching many texts. It keeps the states that earlier texts led to, so that later
/// texts take less time. Contracts see the instructions.
pub struct Matcher<P: HasProgram> {
    alloc: Global,
    program: P,
    dfa: LazyDfa,
}

impl<P: HasProgram + Drop> Drop for Matcher<P> {
    fn drop(self) {
        let Matcher {
            alloc: _,
            program: _,
            dfa: _,
        } = self;
    }
}

impl<P: HasProgram> Model for Matcher<P> {
    ghost use Rattle.std.specs.{Prelude.List, Coded.coded_list};
    ghost use Rattle.wax_program.specs.declared.instruction.Instruction.{Instruction};
    ghost use Rattle.wax_lazy.specs.Dfa.{IsDfaOf};
    ghost use Rattle.wax_program.specs.contracts.instruction.Instruction as instruction;

    ghost Value = { List Instruction };

    ghost coded = { coded_list instruction.the_row.coded };

    ghost view = { λ m. P.code m.program };

    ghost invariant = { λ m. IsDfaOf (P.code m.program) m.dfa };
}

impl<P: HasProgram> Matcher<P> {
    /// Creates a matcher that has seen no text. It keeps at most about 2 MiB; or 512 bytes for each
    /// instruction of the program, if that is more, but at most about 16 MiB.
    pub fn new(alloc: Global, program: P) -> Result<Matcher<P>, NoMemory>
    where
        P: Drop,
        ensures { IfOk result (λ m. m ≡ P.code program) }
    {
        let mut dfa = LazyDfa::of(program.program());
        dfa.prepare(alloc, program.program())?;
        Ok(Matcher {
            alloc,
            program,
            dfa,
        })
    }

    /// Creates a matcher that has seen no text. It keeps at most about `most_bytes` bytes, but at
    /// least what 16 states need. Doesn't allocate before the first text.
    pub fn with_most(alloc: Global, program: P, most_bytes: usize) -> Matcher<P>
        ensures { result ≡ P.code program }
    {
        let dfa = LazyDfa::new(program.program(), most_bytes);
        Matcher {
            alloc,
            program,
            dfa,
        }
    }

    /// Returns what holds the program.
    pub fn holder(&self) -> &P
        ensures { P.code result.now ≡ self.now }
    {
        &self.program
    }

    /// Returns whether the program accepts the text. If the text leads only to states that are
    /// known, this takes one load and one comparison for each byte; in a text past ASCII, a look into
    /// a hash table for each character until its states were met often.
    ///
    /// # Errors
    ///
    /// Returns `NoMemory` if allocation fails. The matcher can be used for further texts even then.
    #[inline]
    pub fn is_match(&mut self, text: &str) -> Result<bool, NoMemory>
        ensures decides { IfOk result (λ b. IsTrue b ↔ Accepts self.old 0 (chars text.now)) }
        ensures same { self.new ≡ self.old }
    {
        let mut meter = Meter::new();
        self.is_match_metered(text, &mut meter)
    }

    /// Returns what `is_match` does. The meter counts the instructions that are read, whatever earlier
    /// texts led to: for each character and at the end at most as many as the program has, and one more;
    /// or nine times as many, if it has 256 and more. Following a character by a cell that is filled reads
    /// none, and so does a text that the test before rejects.
    ///
    /// # Errors
    ///
    /// Returns `NoMemory` if allocation fails. The matcher can be used for further texts even then.
    #[inline]
    pub fn is_match_metered(&mut self, text: &str, meter: &mut Meter) -> Result<bool, NoMemory>
        ensures decides { IfOk result (λ b. IsTrue b ↔ Accepts self.old 0 (chars text.now)) }
        ensures same { self.new ≡ self.old }
        ensures above { meter.new ≤ meter.old + match_visits self.old (length (chars text.now)) }
        ensures steady { meter.old ≤ meter.new }
    {
        if !self.program.may_accept(text) {
            return Ok(false);
        }
        self.follow(text, meter)
    }

    /// Follows the text. It is a function of its own, never inlined, so that a text that the test
    /// before it rejects costs little more than the test.
    #[inline(never)]
    fn follow(&mut self, text: &str, meter: &mut Meter) -> Result<bool, NoMemory>
        ensures decides { IfOk result (λ b. IsTrue b ↔ Accepts self.old 0 (chars text.now)) }
        ensures same { self.new ≡ self.old }
        ensures above { meter.new ≤ meter.old + match_visits self.old (length (chars text.now)) }
        ensures steady { meter.old ≤ meter.new }
    {
        let program = self.program.program();
        self.dfa.is_match(self.alloc, program, text, meter)
    }

    /// Returns whether the program accepts the text, and whether it accepts one of something at most
    /// `most` names below the folder with this text; without a limit if it is `None`. Reads the text
    /// once. The first verdict without a limit finds the places of the program that lead on: that takes
    /// time linear in the program, and as much again for each of the loops that lie within one another.
    /// The first verdict with a limit takes as much for each number of names up to the limit, as long as
    /// more places lead on with one name more.
    ///
    /// # Errors
    ///
    /// Returns `NoMemory` if allocation fails. The matcher can be used for further texts even then.
    pub fn verdict(&mut self, text: &str, most: Option<usize>) -> Result<Verdict, NoMemory>
        ensures decides { IfOk result (IsVerdict self.old most (chars text.now)) }
        ensures same { self.new ≡ self.old }
    {
        let mut meter = Meter::new();
        self.verdict_metered(text, most, &mut meter)
    }

    /// Returns what `verdict` does. The meter counts as in `is_match_metered`, and also the instructions
    /// that are read to find the places of the program that lead on, unless they are known.
    ///
    /// # Errors
    ///
    /// Returns `NoMemory` if allocation fails. The matcher can be used for further texts even then.
    pub fn verdict_metered(
        &mut self,
        text: &str,
        most: Option<usize>,
        meter: &mut Meter,
    ) -> Result<Verdict, NoMemory>
        ensures decides { IfOk result (IsVerdict self.old most (chars text.now)) }
        ensures same { self.new ≡ self.old }
        ensures above { let first = onward_visits self.old most in
            meter.new ≤ meter.old + first + match_visits self.old (length (chars text.now)) }
        ensures steady { meter.old ≤ meter.new }
    {
        let program = self.program.program();
        self.dfa.verdict(self.alloc, program, text, most, meter)
    }

    /// Writes the numbers of the patterns that match the text, ascending. The program has to be one
    /// whose patterns have ends of their own. If the text leads only to states that are known, this
    /// takes what `is_match` does, without its test, and copies the numbers; the list is allocated
    /// anew only if it has too little room.
    ///
    /// # Errors
    ///
    /// Returns `NoMemory` if allocation fails. The matcher can be used for further texts even then.
    pub fn list_numbers(&mut self, text: &str, numbers: &mut Vec<usize>) -> Result<(), NoMemory>
        requires { IsClosed self.old }
        ensures numbers { IfOk result (λ _. AreNumbers self.old (chars text.now) numbers.new.items) }
        ensures same { self.new ≡ self.old }
    {
        let mut meter = Meter::new();
        self.list_numbers_metered(text, numbers, &mut meter)
    }

    /// Writes what `list_numbers` does. The meter counts as in `is_match_metered`.
    ///
    /// # Errors
    ///
    /// Returns `NoMemory` if allocation fails. The matcher can be used for further texts even then.
    pub fn list_numbers_metered(
        &mut self,
        text: &str,
        numbers: &mut Vec<usize>,
        meter: &mut Meter,
    ) -> Result<(), NoMemory>
        requires { IsClosed self.old }
        ensures numbers { IfOk result (λ _. AreNumbers self.old (chars text.now) numbers.new.items) }
        ensures same { self.new ≡ self.old }
        ensures above { meter.new ≤ meter.old + list_visits self.old (length (chars text.now)) }
        ensures steady { meter.old ≤ meter.new }
    {
        numbers.clear();
        let program = self.program.program();
        let found = self.dfa.find_numbers(self.alloc, program, text, meter)?;
        numbers.extend_from_slice(self.dfa.numbers(found))?;
        Ok(())
    }

    /// Returns the greatest number of a pattern that matches the text, or `None` if no pattern matches.
    /// The program has to be one whose patterns have ends of their own. If the text leads only to
    /// states whose numbers are known, this takes what `is_match` does, without its test, and doesn't
    /// allocate.
    ///
    /// # Errors
    ///
    /// Returns `NoMemory` if allocation fails. The matcher can be used for further texts even then.
    pub fn last_number(&mut self, text: &str) -> Result<Option<usize>, NoMemory>
        requires { IsClosed self.old }
        ensures last { IfOk result (IsLastNumber self.old (chars text.now)) }
        ensures same { self.new ≡ self.old }
    {
        let mut meter = Meter::new();
        self.last_number_metered(text, &mut meter)
    }

    /// Returns what `last_number` does. The meter counts as in `is_match_metered`.
    ///
    /// # Errors
    ///
    /// Returns `NoMemory` if allocation fails. The matcher can be used for further texts even then.
    pub fn last_number_metered(
        &mut self,
        text: &str,
        meter: &mut Meter,
    ) -> Result<Option<usize>, NoMemory>
        requires { IsClosed self.old }
        ensures last { IfOk result (IsLastNumber self.old (chars text.now)) }
        ensures same { self.new ≡ self.old }
        ensures above { meter.new ≤ meter.old + list_visits self.old (length (chars text.now)) }
        ensures steady { meter.old ≤ meter.new }
    {
        let program = self.program.program();
        let found = self.dfa.find_numbers(self.alloc, program, text, meter)?;
        Ok(self.dfa.numbers(found).last().copied())
    }

    /// Returns how many states the matcher keeps.
    pub fn states(&self) -> usize
        ensures { result ≤ most_kept }
    {
        self.dfa.states()
    }

    /// Returns whether the matcher runs its program for each text from now on, since the states
    /// that it kept served too little text.
    pub fn has_given_up(&self) -> bool {
        self.dfa.gives_up()
    }
}
