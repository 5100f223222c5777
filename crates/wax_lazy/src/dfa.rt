//! Deciding many texts by one program.
ghost use Rattle.std.specs.Prelude.{◌≡◌, ◌+◌, ◌*◌, ◌≤◌, ◌↔◌, IfOk, IsFalse, IsTrue, List, None, Some, chars};
ghost use Rattle.std.specs.Prelude.{is_some, length};
ghost use Rattle.wax_lazy.specs.{Cost.{list_visits, match_visits, most_kept}, Dfa.{IsDfaOf, KnowsAhead}};
ghost use Rattle.wax_lazy.specs.{Numbers.AreNumbers, Verdict.IsVerdict};
ghost use Rattle.wax_lazy.specs.inner.Cached.{IsFollowed, IsKeptFor, numbers_known};
ghost use Rattle.wax_program.specs.{Closed.IsClosed, Last.ReadsLast, Machine.Accepts};
ghost use Rattle.wax_program.specs.{Onward.{AreFlagsOf, AreLevelsOf, HasLevel}, Visits.onward_visits};
ghost use Rattle.wax_program.specs.declared.instruction.Instruction.{Instruction};

use crate::cache::Cache;
use crate::ends::{accepts, find_numbers, verdict_at};
use crate::following::follow_text;
use std::alloc::{AllocError, Global};
use wax_program::{
    Ahead, CompiledProgram, Levels, Meter, Onward, last_name, reads_last, run, run_last,
};
use wax_query::diagnostics::NoMemory;
use wax_query::query::Verdict;
use wax_states::StateId;

/// How many bytes states and their cells may take, about.
const MOST_BYTES: usize = 2_097_152;

/// How many they may take for each instruction of a large program, about.
const BYTES_PER_INSTRUCTION: usize = 512;

/// How many they may take, about, however large the program is.
const MOST_BYTES_EVER: usize = 16_777_216;

/// What is known of a program, and the states that earlier texts led to. It is apart from the program,
/// so that a struct can hold both by value; each call takes the program. `Matcher` holds both together.
/// Contracts say of which program it is (`IsDfaOf`).
#[derive(Drop)]
pub struct LazyDfa {
    /// True if the program depends only on the last component of a text.
    reads_last: bool,
    /// How many bytes the cache may keep, about.
    most_bytes: usize,
    /// The states that texts led to, from the first text on.
    cache: Option<Cache>,
    /// The places of the program that lead on, from the first verdict without a limit on.
    onward: Option<Onward>,
    /// Those for each limit of names, from the first verdict with a limit on.
    levels: Option<Levels>,
}

impl LazyDfa {
    /// Creates what is known of a program before the first text. It will keep at most about 2 MiB; or
    /// 512 bytes for each instruction of the program, if that is more, but at most about 16 MiB. Reads
    /// each instruction at most once. Doesn't allocate before the first text.
    pub fn of(program: &CompiledProgram) -> LazyDfa
        ensures { IsDfaOf program.now.0 result }
    {
        let most_bytes = program.size().saturating_mul(BYTES_PER_INSTRUCTION);
        let most_bytes = most_bytes.max(MOST_BYTES).min(MOST_BYTES_EVER);
        LazyDfa::new(program, most_bytes)
    }

    /// Creates what is known of a program before the first text. The cache will keep at most about
    /// `most_bytes` bytes. Reads each instruction at most once. Doesn't allocate.
    pub(crate) fn new(program: &CompiledProgram, most_bytes: usize) -> LazyDfa
        ensures { IsDfaOf program.now.0 result }
    {
        let mut meter = Meter::new();
        let reads_last = reads_last(program, &mut meter);
        LazyDfa {
            reads_last,
            most_bytes,
            cache: None,
            onward: None,
            levels: None,
        }
    }

    /// Returns true only if the program depends only on the last component of a text.
    #[inline]
    pub fn reads_last(&self) -> bool
        ensures last { (code : List Instruction) → IsDfaOf code self.now → IsTrue result → ReadsLast code }
        ensures long { (code : List Instruction) → IsDfaOf code self.now → IsTrue result → 2 ≤ length code }
    {
        self.reads_last
    }

    /// Creates the cache, unless there is one.
    #[inline(always)]
    pub(crate) fn prepare(
        &mut self,
        alloc: Global,
        program: &CompiledProgram,
    ) -> Result<(), AllocError>
        requires { IsDfaOf program.now.0 self.old }
        ensures dfa { IsDfaOf program.now.0 self.new }
        ensures made { IfOk result (λ _. IsTrue (is_some self.new.cache)) }
    {
        if self.cache.is_some() {
            return Ok(());
        }
        self.create_cache(alloc, program)
    }

    /// Creates a cache for last components, which begin at the place 2, or for whole texts.
    #[inline(never)]
    fn create_cache(&mut self, alloc: Global, program: &CompiledProgram) -> Result<(), AllocError>
        requires { IsDfaOf program.now.0 self.old }
        ensures dfa { IsDfaOf program.now.0 self.new }
        ensures made { IfOk result (λ _. IsTrue (is_some self.new.cache)) }
    {
        let start = if self.reads_last { 2 } else { 0 };
        let cache = Cache::new(alloc, program, start, self.most_bytes)?;
        self.cache = Some(cache);
        Ok(())
    }

    /// Returns whether the program accepts the text. If the text leads only to states that are known,
    /// this takes what `Matcher::is_match` does, without its test.
    ///
    /// The meter counts the instructions that are read, whatever earlier texts led to: for each character
    /// and at the end at most as many as the program has, and one more; or nine times as many, if it has
    /// 256 and more. Following a character by a cell that is filled reads none.
    ///
    /// # Errors
    ///
    /// Returns `NoMemory` if allocation fails. Further texts can be decided even then.
    pub fn is_match(
        &mut self,
        alloc: Global,
        program: &CompiledProgram,
        text: &str,
        meter: &mut Meter,
    ) -> Result<bool, NoMemory>
        requires { IsDfaOf program.now.0 self.old }
        ensures dfa { IsDfaOf program.now.0 self.new }
        ensures decides { IfOk result (λ b. IsTrue b ↔ Accepts program.now.0 0 (chars text.now)) }
        ensures above { meter.new ≤ meter.old + match_visits program.now.0 (length (chars text.now)) }
        ensures steady { meter.old ≤ meter.new }
    {
        if self.gives_up() {
            return decide_once(alloc, program, self.reads_last, text, meter);
        }
        self.prepare(alloc, program)?;
        let text = followed(text, self.reads_last);
        match &mut self.cache {
            Some(cache) => Ok(accepts(program, cache, text, meter)?),
            None => unreachable!(),
        }
    }

    /// Returns whether the program accepts the text, and whether it accepts one of something at most
    /// `most` names below the folder with this text; without a limit if it is `None`. The first verdict
    /// with each limit finds the places of the program that lead on.
    ///
    /// The meter counts as in `is_match`, and also the instructions that are read to find the places that
    /// lead on, unless they are known.
    ///
    /// # Errors
    ///
    /// Returns `NoMemory` if allocation fails. Further texts can be decided even then.
    pub fn verdict(
        &mut self,
        alloc: Global,
        program: &CompiledProgram,
        text: &str,
        most: Option<usize>,
        meter: &mut Meter,
    ) -> Result<Verdict, NoMemory>
        requires { IsDfaOf program.now.0 self.old }
        ensures dfa { IsDfaOf program.now.0 self.new }
        ensures decides { IfOk result (IsVerdict program.now.0 most (chars text.now)) }
        ensures above { let first = onward_visits program.now.0 most in
            meter.new ≤ meter.old + first + match_visits program.now.0 (length (chars text.now)) }
        ensures later { KnowsAhead self.old most
            → meter.new ≤ meter.old + match_visits program.now.0 (length (chars text.now)) }
        ensures known { IfOk result (λ _. KnowsAhead self.new most) }
        ensures steady { meter.old ≤ meter.new }
    {
        match most {
            Some(most) => self.verdict_within(alloc, program, text, most, meter),
            None => self.verdict_without_limit(alloc, program, text, meter),
        }
    }

    /// Returns both answers, where something below has at most `most` names below the folder.
    fn verdict_within(
        &mut self,
        alloc: Global,
        program: &CompiledProgram,
        text: &str,
        most: usize,
        meter: &mut Meter,
    ) -> Result<Verdict, NoMemory>
        requires { IsDfaOf program.now.0 self.old }
        ensures dfa { IsDfaOf program.now.0 self.new }
        ensures decides { IfOk result (IsVerdict program.now.0 (Some most) (chars text.now)) }
        ensures above { let first = onward_visits program.now.0 (Some most) in
            meter.new ≤ meter.old + first + match_visits program.now.0 (length (chars text.now)) }
        ensures later { KnowsAhead self.old (Some most)
            → meter.new ≤ meter.old + match_visits program.now.0 (length (chars text.now)) }
        ensures known { IfOk result (λ _. KnowsAhead self.new (Some most)) }
        ensures steady { meter.old ≤ meter.new }
    {
        let levels = self.take_levels(alloc, program, most, meter)?;
        let onward = levels.level(most);
        let verdict = self.verdict_by(alloc, program, onward, text, Some(most), meter);
        self.levels = Some(levels);
        Ok(verdict?)
    }

    /// Returns both answers, where something below has any number of names below the folder.
    fn verdict_without_limit(
        &mut self,
        alloc: Global,
        program: &CompiledProgram,
        text: &str,
        meter: &mut Meter,
    ) -> Result<Verdict, NoMemory>
        requires { IsDfaOf program.now.0 self.old }
        ensures dfa { IsDfaOf program.now.0 self.new }
        ensures decides { IfOk result (IsVerdict program.now.0 None (chars text.now)) }
        ensures above { let first = onward_visits program.now.0 None in
            meter.new ≤ meter.old + first + match_visits program.now.0 (length (chars text.now)) }
        ensures later { KnowsAhead self.old None
            → meter.new ≤ meter.old + match_visits program.now.0 (length (chars text.now)) }
        ensures known { IfOk result (λ _. KnowsAhead self.new None) }
        ensures steady { meter.old ≤ meter.new }
    {
        let onward = self.take_onward(alloc, program, meter)?;
        let verdict = self.verdict_by(alloc, program, &onward, text, None, meter);
        self.onward = Some(onward);
        Ok(verdict?)
    }

    /// Returns both answers by the places that lead on.
    fn verdict_by(
        &mut self,
        alloc: Global,
        program: &CompiledProgram,
        onward: &Onward,
        text: &str,
        most: Option<usize>,
        meter: &mut Meter,
    ) -> Result<Verdict, AllocError>
        requires dfa { IsDfaOf program.now.0 self.old }
        requires onward { AreFlagsOf program.now.0 most onward.now }
        ensures dfa { IsDfaOf program.now.0 self.new }
        ensures decides { IfOk result (IsVerdict program.now.0 most (chars text.now)) }
        ensures above { meter.new ≤ meter.old + match_visits program.now.0 (length (chars text.now)) }
        ensures steady { meter.old ≤ meter.new }
    {
        self.prepare(alloc, program)?;
        match &mut self.cache {
            Some(cache) => judge(program, onward, self.reads_last, cache, text, most, meter),
            None => unreachable!(),
        }
    }

    /// Follows the text, and finds the numbers of the patterns that match it. Returns the state that
    /// keeps them, or `None` if no pattern matches. If allocation fails, further texts can be decided.
    pub(crate) fn find_numbers(
        &mut self,
        alloc: Global,
        program: &CompiledProgram,
        text: &str,
        meter: &mut Meter,
    ) -> Result<Option<StateId>, NoMemory>
        requires dfa { IsDfaOf program.now.0 self.old }
        requires closed { IsClosed program.now.0 }
        ensures dfa { IsDfaOf program.now.0 self.new }
        ensures numbers { IfOk result
            (λ state. AreNumbers program.now.0 (chars text.now) (numbers_known self.new.cache state)) }
        ensures above { meter.new ≤ meter.old + list_visits program.now.0 (length (chars text.now)) }
        ensures steady { meter.old ≤ meter.new }
    {
        self.prepare(alloc, program)?;
        let text = followed(text, self.reads_last);
        match &mut self.cache {
            Some(cache) => Ok(find_numbers(program, cache, text, meter)?),
            None => unreachable!(),
        }
    }

    /// Returns the numbers that were found for a state, if there is one.
    pub(crate) fn numbers(&self, state: Option<StateId>) -> &[usize]
        ensures { numbers_known self.now.cache state ≡ result.now }
    {
        match &self.cache {
            Some(cache) => cache.numbers(state),
            None => &[],
        }
    }

    /// Takes out the places that lead on without a limit, or finds them.
    fn take_onward(
        &mut self,
        alloc: Global,
        program: &CompiledProgram,
        meter: &mut Meter,
    ) -> Result<Onward, AllocError>
        requires { IsDfaOf program.now.0 self.old }
        ensures dfa { IsDfaOf program.now.0 self.new }
        ensures onward { IfOk result (AreFlagsOf program.now.0 None) }
        ensures above { meter.new ≤ meter.old + onward_visits program.now.0 None }
        ensures known { KnowsAhead self.old None → meter.new ≡ meter.old }
        ensures steady { meter.old ≤ meter.new }
    {
        match self.onward.take() {
            Some(onward) => Ok(onward),
            None => Onward::new(alloc, program, meter),
        }
    }

    /// Takes out the places that lead on for each limit that is known, and adds those for this limit. If
    /// that fails, they are found anew later.
    fn take_levels(
        &mut self,
        alloc: Global,
        program: &CompiledProgram,
        most: usize,
        meter: &mut Meter,
    ) -> Result<Levels, AllocError>
        requires { IsDfaOf program.now.0 self.old }
        ensures dfa { IsDfaOf program.now.0 self.new }
        ensures levels { IfOk result (AreLevelsOf program.now.0) }
        ensures found { IfOk result (λ levels. HasLevel levels most) }
        ensures above { meter.new ≤ meter.old + onward_visits program.now.0 (Some most) }
        ensures known { KnowsAhead self.old (Some most) → meter.new ≡ meter.old }
        ensures steady { meter.old ≤ meter.new }
    {
        let mut levels = match self.levels.take() {
            Some(levels) => levels,
            None => Levels::new(alloc),
        };
        levels.find(alloc, program, most, meter)?;
        Ok(levels)
    }

    /// Returns how many states are kept.
    pub(crate) fn states(&self) -> usize
        ensures { (code : List Instruction) → IsDfaOf code self.now → result ≤ most_kept }
    {
        match &self.cache {
            Some(cache) => cache.table.states.len(),
            None => 0,
        }
    }

    /// Returns whether states were removed before they had served enough text.
    pub(crate) fn gives_up(&self) -> bool {
        match &self.cache {
            Some(cache) => cache.gives_up,
            None => false,
        }
    }
}

/// Returns the part of a text that is followed: its last component if only that matters, and
/// otherwise all of it.
#[inline]
fn followed(text: &str, reads_last: bool) -> &str
    ensures part { IsFollowed reads_last (chars text.now) (chars result.now) }
    ensures shorter { length (chars result.now) ≤ length (chars text.now) }
{
    if reads_last {
        return last_name(text);
    }
    text
}

/// Follows a text, and returns both answers, where something below has at most `most` names below the
/// folder; without a limit if it is `None`. If only the last component matters, something below is
/// accepted if any plain path is.
fn judge(
    program: &CompiledProgram,
    onward: &Onward,
    reads_last: bool,
    cache: &mut Cache,
    text: &str,
    most: Option<usize>,
    meter: &mut Meter,
) -> Result<Verdict, AllocError>
    requires cache { IsKeptFor program.now.0 reads_last cache.old }
    requires onward { AreFlagsOf program.now.0 most onward.now }
    requires last { IsTrue reads_last → ReadsLast program.now.0 }
    ensures cache { IsKeptFor program.now.0 reads_last cache.new }
    ensures decides { IfOk result (IsVerdict program.now.0 most (chars text.now)) }
    ensures above { meter.new ≤ meter.old + match_visits program.now.0 (length (chars text.now)) }
    ensures steady { meter.old ≤ meter.new }
{
    if reads_last {
        let is_match = accepts(program, cache, last_name(text), meter)?;
        return Ok(Verdict {
            is_match,
            goes_on: onward.holds(Ahead::Path, 0),
        });
    }
    let next = follow_text(program, cache, text, meter)?;
    let ahead = Ahead::below(text);
    Ok(verdict_at(program, onward, cache, next, ahead, most, meter))
}

/// Decides a text by a run of the program.
fn decide_once(
    alloc: Global,
    program: &CompiledProgram,
    reads_last: bool,
    text: &str,
    meter: &mut Meter,
) -> Result<bool, NoMemory>
    requires last { IsTrue reads_last → ReadsLast program.now.0 }
    requires long { IsTrue reads_last → 2 ≤ length program.now.0 }
    ensures decides { IfOk result (λ b. IsTrue b ↔ Accepts program.now.0 0 (chars text.now)) }
    ensures above { meter.new ≤ meter.old + (length program.now.0 + 1) * (length (chars text.now) + 1) }
    ensures steady { meter.old ≤ meter.new }
{
    if reads_last {
        return run_last(alloc, program, text, meter);
    }
    run(alloc, program, text, meter)
}
