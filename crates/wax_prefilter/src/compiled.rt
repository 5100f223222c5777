//! A program with the facts by which most texts are rejected before it is run.
ghost use Rattle.std.specs.Prelude.{◌≡◌, ◌+◌, ◌*◌, ◌++◌, ◌∷◌, ◌<◌, ◌≤◌, ◌↔◌, [], ℕ, List, IfOk, IsTrue, None};
ghost use Rattle.std.specs.{Prelude.{chars, false, length, min}, Str.IsUtf8};
ghost use Rattle.wax_lazy.specs.{Cost.match_visits, Verdict.{AcceptsBelow, IsVerdict}};
ghost use Rattle.wax_program.specs.{Closed.{AcceptsMarked, IsClosed}, Last.IsLastName, Machine.Accepts};
ghost use Rattle.wax_program.specs.{Meter.most_ticks, Visits.onward_visits};
ghost use Rattle.wax_query.specs.Outcome.{MatchBuild};
ghost use Rattle.wax_token.specs.{Cost.{costs, program_length}, Meaning.MeansEach, Words.trees};
ghost use Rattle.wax_prefilter.specs.Compiled.{AcceptsAlike, IsCompiled};

use crate::prefilter::Prefilter;
use std::alloc::Global;
use std::marker::Model;
use wax_lazy::{HasProgram, LazyDfa, Matcher};
use wax_match::encode;
use wax_match::encode::{CompileError, CompiledProgram, Meter};
use wax_query::diagnostics::{NoMemory, Refusal};
use wax_query::query::Verdict;
use wax_token::token::{ExpressionMetadata, Sides, Token};

/// What tokens are compiled to: a program that accepts exactly the texts that they match, and facts
/// about these texts, by which most others are rejected before the program is run. It keeps no
/// tokens. The calls that end with `_cached` keep what they learn from each text for the next ones.
/// Contracts see the instructions of the program, and its length.
pub struct CompiledTokens {
    program: CompiledProgram,
    prefilter: Prefilter,
    /// What is known of the program, and what earlier texts led to.
    dfa: LazyDfa,
}

// Written out, so that crates that drop these don't have to prove again how their parts are dropped.
impl Drop for CompiledTokens {
    fn drop(self) {
        let CompiledTokens {
            program: _,
            prefilter: _,
            dfa: _,
        } = self;
    }
}

impl Model for CompiledTokens {
    ghost use Rattle.std.specs.Coded.{coded×, coded_list, coded_ℕ};
    ghost use Rattle.wax_lazy.specs.Dfa.{IsDfaOf};
    ghost use Rattle.wax_prefilter.specs.{Compiled.Instructions, inner.Passing.AllPass};
    ghost use Rattle.wax_program.specs.contracts.instruction.Instruction as instruction;

    ghost Value = { Instructions };

    ghost coded = { coded× (coded_list instruction.the_row.coded) coded_ℕ };

    ghost view = { λ c. c.program };

    ghost invariant = { λ c. AllPass c.program.0 c.prefilter × IsDfaOf c.program.0 c.dfa };
}

impl CompiledTokens {
    /// Compiles tokens, matched one after another, with nothing before or after them. Takes time and
    /// memory linear in the tokens and their cost.
    ///
    /// # Errors
    ///
    /// Returns `Refusal::Refused` if the cost plus 1 exceeds 1,048,576 (error 9), and
    /// `Refusal::Memory` if allocation fails.
    pub fn new<'t>(
        alloc: Global,
        tokens: &[Token<'t, ExpressionMetadata>],
    ) -> Result<CompiledTokens, Refusal<CompileError>>
        ensures means { IfOk result
            (λ c. (s : List ℕ) → Accepts c.0 0 s ↔ MeansEach (trees tokens.now) false false s) }
        ensures length { MatchBuild result
            (λ c. (c.1 ≡ costs (trees tokens.now) + 1) × (c.1 ≤ 1048576))
            (λ _. 1048576 < costs (trees tokens.now) + 1) }
        ensures longer { IfOk result (λ c. length c.0 < c.1) }
    {
        let program = encode::compile(alloc, tokens, Sides::NONE)?;
        let _size = program.size();
        let prefilter = Prefilter::new(alloc, tokens)?;
        let dfa = LazyDfa::of(&program);
        Ok(CompiledTokens {
            program,
            prefilter,
            dfa,
        })
    }

    /// Compiles a token, with nothing before or after it. Takes time and memory linear in the token
    /// and its cost.
    ///
    /// # Errors
    ///
    /// Returns `Refusal::Refused` if the cost plus 1 exceeds 1,048,576 (error 9), and
    /// `Refusal::Memory` if allocation fails.
    pub fn of_token<'t>(
        alloc: Global,
        token: &Token<'t, ExpressionMetadata>,
    ) -> Result<CompiledTokens, Refusal<CompileError>>
        ensures compiled { IfOk result (IsCompiled token.now) }
        ensures fits { MatchBuild result (λ _. program_length token.now ≤ 1048576)
            (λ _. 1048576 < program_length token.now) }
    {
        CompiledTokens::new(alloc, token.concatenation())
    }

    /// Replaces the program by that of several patterns with numbers, without the numbers, unless it is
    /// longer. In such a program patterns share their beginnings and their ends.
    pub fn with_numbered(
        self,
        alloc: Global,
        numbered: &CompiledProgram,
    ) -> Result<CompiledTokens, NoMemory>
        requires closed { IsClosed numbered.now.0 }
        requires same { (s : List ℕ) → AcceptsMarked numbered.now.0 s ↔ Accepts self.0 0 s }
        ensures { IfOk result (AcceptsAlike self) }
    {
        let len = self.program.len();
        if numbered.size() == 0 || numbered.size() >= len {
            return Ok(self);
        }
        let program = encode::without_marks(alloc, numbered, len)?;
        let _size = program.size();
        let dfa = LazyDfa::of(&program);
        let CompiledTokens {
            program: _,
            prefilter,
            dfa: _,
        } = self;
        Ok(CompiledTokens {
            program,
            prefilter,
            dfa,
        })
    }

    /// Returns `false` only if the tokens can't match the text. Doesn't allocate. If only the last
    /// component matters, texts that are searched for in any case are searched for only in that.
    pub fn may_match(&self, text: &str) -> bool
        ensures { Accepts self.now.0 0 (chars text.now) → IsTrue result }
    {
        if !self.dfa.reads_last() {
            return self.prefilter.may_match(text);
        }
        self.prefilter.may_match_quickly(text) && self.prefilter.may_match(encode::last_name(text))
    }

    /// Returns whether the tokens match the text. The meter counts the visits of the program. A text
    /// that is rejected before the program is run takes none.
    pub fn is_match_metered(
        &self,
        alloc: Global,
        text: &str,
        meter: &mut Meter,
    ) -> Result<bool, NoMemory>
        ensures decides { IfOk result (λ answer. IsTrue answer ↔ Accepts self.now.0 0 (chars text.now)) }
        ensures above { meter.new ≤ meter.old + self.now.1 * (length (chars text.now) + 1) }
        ensures below { IfOk result
            (λ answer. IsTrue answer → min (meter.old + length (chars text.now)) most_ticks ≤ meter.new) }
        ensures steady { meter.old ≤ meter.new }
    {
        if !self.may_match(text) {
            return Ok(false);
        }
        if self.dfa.reads_last() {
            return encode::run_last(alloc, &self.program, text, meter);
        }
        encode::run(alloc, &self.program, text, meter)
    }

    /// Returns whether the tokens match the text, and how far that moved a meter from 0.
    pub fn is_match_counted(&self, alloc: Global, text: &str) -> Result<(bool, u128), NoMemory>
        ensures decides { IfOk result (λ answer. IsTrue answer.0 ↔ Accepts self.now.0 0 (chars text.now)) }
        ensures above { IfOk result (λ answer. answer.1 ≤ self.now.1 * (length (chars text.now) + 1)) }
        ensures below { IfOk result (λ answer. IsTrue answer.0 → length (chars text.now) ≤ answer.1) }
    {
        let mut meter = Meter::new();
        let answer = self.is_match_metered(alloc, text, &mut meter)?;
        Ok((answer, meter.ticks()))
    }

    /// Returns whether the tokens match the text.
    pub fn is_match(&self, alloc: Global, text: &str) -> Result<bool, NoMemory>
        ensures { IfOk result (λ answer. IsTrue answer ↔ Accepts self.now.0 0 (chars text.now)) }
    {
        let (answer, _) = self.is_match_counted(alloc, text)?;
        Ok(answer)
    }

    /// Returns whether the tokens match something below the folder with this text. Finds the places
    /// of the program that lead on, in time linear in the program. For many folders a matcher is faster,
    /// which finds them once.
    pub fn goes_on(&self, alloc: Global, text: &str) -> Result<bool, NoMemory>
        ensures { IfOk result (λ answer. IsTrue answer ↔ AcceptsBelow self.now.0 None (chars text.now)) }
    {
        let mut meter = Meter::new();
        self.goes_on_metered(alloc, text, &mut meter)
    }

    /// Returns what `goes_on` does. The meter counts the instructions that are read, to find the places
    /// of the program that lead on, and along the text.
    pub fn goes_on_metered(
        &self,
        alloc: Global,
        text: &str,
        meter: &mut Meter,
    ) -> Result<bool, NoMemory>
        ensures below { IfOk result
            (λ answer. IsTrue answer ↔ AcceptsBelow self.now.0 None (chars text.now)) }
        ensures above { let first = onward_visits self.now.0 None in
            meter.new ≤ meter.old + first + match_visits self.now.0 (length (chars text.now)) }
        ensures steady { meter.old ≤ meter.new }
    {
        let mut matcher = Matcher::new(alloc, &self.program)?;
        let verdict = matcher.verdict_metered(text, None, meter)?;
        Ok(verdict.goes_on)
    }

    /// Returns what `is_match` does, with the help of what is kept of earlier texts. A quick test comes
    /// first, which rejects most texts that don't match. About 2 MiB are kept at most, or up to 16 MiB
    /// if the program is large.
    ///
    /// # Errors
    ///
    /// Returns `NoMemory` if allocation fails. Further texts can be decided even then.
    pub fn is_match_cached(&mut self, alloc: Global, text: &str) -> Result<bool, NoMemory>
        ensures decides { IfOk result (λ answer. IsTrue answer ↔ Accepts self.old.0 0 (chars text.now)) }
        ensures same { self.new ≡ self.old }
    {
        let mut meter = Meter::new();
        self.is_match_cached_metered(alloc, text, &mut meter)
    }

    /// Returns what `is_match_cached` does. The meter counts the instructions of the program that are
    /// read, whatever earlier texts led to. A text that the test rejects takes none.
    ///
    /// # Errors
    ///
    /// Returns `NoMemory` if allocation fails. Further texts can be decided even then.
    pub fn is_match_cached_metered(
        &mut self,
        alloc: Global,
        text: &str,
        meter: &mut Meter,
    ) -> Result<bool, NoMemory>
        ensures decides { IfOk result (λ answer. IsTrue answer ↔ Accepts self.old.0 0 (chars text.now)) }
        ensures same { self.new ≡ self.old }
        ensures above { meter.new ≤ meter.old + match_visits self.old.0 (length (chars text.now)) }
        ensures steady { meter.old ≤ meter.new }
    {
        if !self.prefilter.may_match_quickly(text) {
            return Ok(false);
        }
        self.dfa.is_match(alloc, &self.program, text, meter)
    }

    /// Returns whether the tokens match the text, and whether they match something at most `most` names
    /// below the folder with this text; without a limit if it is `None`. Uses what is kept of earlier
    /// texts. Reads the text once.
    ///
    /// # Errors
    ///
    /// Returns `NoMemory` if allocation fails. Further texts can be decided even then.
    pub fn verdict_cached(
        &mut self,
        alloc: Global,
        text: &str,
        most: Option<usize>,
    ) -> Result<Verdict, NoMemory>
        ensures decides { IfOk result (IsVerdict self.old.0 most (chars text.now)) }
        ensures same { self.new ≡ self.old }
    {
        let mut meter = Meter::new();
        self.verdict_cached_metered(alloc, text, most, &mut meter)
    }

    /// Returns what `verdict_cached` does. The meter counts as in `is_match_cached_metered`, and also the
    /// instructions that are read to find the places of the program that lead on, unless they are known.
    ///
    /// # Errors
    ///
    /// Returns `NoMemory` if allocation fails. Further texts can be decided even then.
    pub fn verdict_cached_metered(
        &mut self,
        alloc: Global,
        text: &str,
        most: Option<usize>,
        meter: &mut Meter,
    ) -> Result<Verdict, NoMemory>
        ensures decides { IfOk result (IsVerdict self.old.0 most (chars text.now)) }
        ensures same { self.new ≡ self.old }
        ensures above { let first = onward_visits self.old.0 most in
            meter.new ≤ meter.old + first + match_visits self.old.0 (length (chars text.now)) }
        ensures steady { meter.old ≤ meter.new }
    {
        self.dfa.verdict(alloc, &self.program, text, most, meter)
    }

    /// Returns how many bytes at the beginning of a text can be passed over in a search for lines
    /// that the tokens match: none of them ends before so many bytes. Doesn't allocate. Takes time
    /// proportional to the result.
    pub fn earliest_end(&self, text: &str) -> usize
        ensures { (x y z : List ℕ) → text.now ++ 10 ∷ [] ≡ x ++ (y ++ 10 ∷ z) → IsUtf8 y
            → Accepts self.now.0 0 (chars y) → result ≤ length (x ++ y) }
    {
        self.prefilter.earliest_end(text)
    }
}

impl HasProgram for CompiledTokens {
    ghost code = { λ compiled. compiled.0 };

    fn program(&self) -> &CompiledProgram {
        &self.program
    }

    fn may_accept(&self, text: &str) -> bool {
        self.prefilter.may_match_quickly(text)
    }
}
