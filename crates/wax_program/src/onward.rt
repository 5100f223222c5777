//! Which places of a program lead on to an accepted text.
ghost use Rattle.std.specs.Prelude.{◌≡◌, ◌+◌, ◌*◌, ◌<◌, ◌≤◌, ◌↔◌, ◌⊎◌, ℕ, IfOk, IsFalse, IsTrue, None, Some};
ghost use Rattle.std.specs.Prelude.{chars, length, option_copied, slice_get};
ghost use Rattle.wax_program.specs.Machine.{PassesTest};
ghost use Rattle.wax_program.specs.Onward.{AreFlagsOf, AreOthers, TakesOther, ahead_of, flags_for};
ghost use Rattle.wax_program.specs.{Places.HoldsPlace, Tests.test_of, Visits.{flags_visits, onward_visits}};
ghost use Rattle.wax_program.specs.declared.instruction.Test.{Test};
ghost use Rattle.wax_program.specs.declared.instruction.Instruction.{Instruction};
ghost use Rattle.wax_program.specs.declared.instruction.Instruction.TheVariants.{Components};
ghost use Rattle.wax_program.specs.inner.Leads.{AreFlagsAfter, Gains, HaveRoom, Holds, HoldsAfter};
ghost use Rattle.wax_program.specs.inner.Leads.{HoldsByOther, LeadsBy, LeadsOn, Marks, earlier_flags};
ghost use Rattle.wax_program.specs.inner.Leads.{flag_count, onward_by_slash};
ghost use Rattle.wax_program.specs.inner.Spreads.{HasFlagOf, HasReached};
ghost use Rattle.wax_program.specs.declared.onward.Ahead.TheVariants.{Below, Path, Rest};

use crate::bits::Set;
use crate::instruction::{Instruction, Test};
use crate::jumps::Jumps;
use crate::last::last_name;
use crate::loops::test_at;
use crate::machine::{CompiledProgram, Meter};
use crate::spreading::Spreading;
use std::alloc::{AllocError, Global};
use std::marker::Model;

/// What a text is that is still to come. A plain path is one or more names with a `/` between each
/// two, which aren't empty.
#[derive(Clone, Copy)]
pub enum Ahead {
    /// What is left of a plain path after a character of a name: nothing, or more of that name, and
    /// then maybe `/` and a plain path.
    Rest,
    /// A plain path.
    Path,
    /// `/` and then a plain path.
    Below,
}

impl Ahead {
    /// Returns what follows the text of a folder in the texts of what is below it: a plain path if
    /// the text is empty or ends with `/`, or else `/` and one. Doesn't allocate.
    pub fn below(folder: &str) -> Ahead
        ensures { result ≡ ahead_of (chars folder.now) }
    {
        if last_name(folder).is_empty() {
            return Ahead::Path;
        }
        Ahead::Below
    }

    /// Returns what the text is after `/`, if it can begin with that.
    fn onward_by_slash(self) -> Option<Ahead>
        ensures { result ≡ onward_by_slash self }
    {
        match self {
            Ahead::Rest | Ahead::Below => Some(Ahead::Path),
            Ahead::Path => None,
        }
    }
}

/// What the flags of a program's places are found from.
#[derive(Clone, Copy)]
pub(crate) struct Basis<'a> {
    pub(crate) program: &'a CompiledProgram,
    /// The places whose instruction has a test that a character other than `/` passes.
    pub(crate) others: &'a Set,
    /// The flags for one name fewer, if there is a limit.
    pub(crate) earlier: Option<&'a Onward>,
}

/// The places of a program from which some text of each of these kinds is accepted, with any number
/// of names or with at most so many. Contracts see the flags.
#[derive(Drop)]
pub struct Onward {
    /// The number of instructions of the program.
    size: usize,
    rest: Set,
    path: Set,
    below: Set,
}

impl Model for Onward {
    ghost use Rattle.wax_program.specs.{Onward.PlaceFlags, inner.Leads.HaveRoom};

    ghost Value = { PlaceFlags };

    ghost view = { λ o. record { size = o.size; rest = o.rest; path = o.path; below = o.below } };

    ghost invariant = { λ o. HaveRoom
        (record { size = o.size; rest = o.rest; path = o.path; below = o.below }) };
}

impl Onward {
    /// Finds these places of a program for texts with any number of names.
    pub fn new(
        alloc: Global,
        program: &CompiledProgram,
        meter: &mut Meter,
    ) -> Result<Onward, AllocError>
        ensures flags { IfOk result (AreFlagsOf program.now.0 None) }
        ensures above { meter.new ≤ meter.old + onward_visits program.now.0 None }
        ensures steady { meter.old ≤ meter.new }
    {
        let others = others_of(alloc, program, meter)?;
        Onward::without_limit(alloc, program, &others, meter)
    }

    fn without_limit<'a>(
        alloc: Global,
        program: &'a CompiledProgram,
        others: &'a Set,
        meter: &mut Meter,
    ) -> Result<Onward, AllocError>
        requires room { length program.now.0 < length others.now }
        requires others { AreOthers program.now.0 others.now }
        ensures flags { IfOk result (AreFlagsOf program.now.0 None) }
        ensures above { meter.new ≤ meter.old + flags_visits program.now.0 }
        ensures steady { meter.old ≤ meter.new }
    {
        let basis = Basis {
            program,
            others,
            earlier: None,
        };
        Onward::find(alloc, &basis, meter)
    }

    /// Finds them for texts with a limit of names, from those for one name fewer.
    pub(crate) fn after<'a>(
        alloc: Global,
        program: &'a CompiledProgram,
        others: &'a Set,
        earlier: &'a Onward,
        meter: &mut Meter,
    ) -> Result<Onward, AllocError>
        requires room { length program.now.0 < length others.now }
        requires others { AreOthers program.now.0 others.now }
        ensures flags { IfOk result (AreFlagsAfter program.now.0 (Some earlier.now)) }
        ensures above { meter.new ≤ meter.old + flags_visits program.now.0 }
        ensures steady { meter.old ≤ meter.new }
    {
        let basis = Basis {
            program,
            others,
            earlier: Some(earlier),
        };
        Onward::find(alloc, &basis, meter)
    }

    /// Finds them: settles each place from the last one on, and then the places that lead to those
    /// whose flags are new, until none is. Reads each instruction at most eleven times, however the
    /// loops of the program lie within each other.
    fn find(alloc: Global, basis: &Basis<'_>, meter: &mut Meter) -> Result<Onward, AllocError>
        requires room { length basis.now.program.now.0 < length basis.now.others.now }
        requires others { AreOthers basis.now.program.now.0 basis.now.others.now }
        ensures flags { IfOk result
            (AreFlagsAfter basis.now.program.now.0 (option_copied basis.now.earlier)) }
        ensures above { meter.new ≤ meter.old + flags_visits basis.now.program.now.0 }
        ensures steady { meter.old ≤ meter.new }
    {
        let mut onward = Onward::empty(alloc, basis.program)?;
        onward.insert(Ahead::Rest, basis.program.size());
        let jumps = Jumps::new(alloc, basis.program, meter)?;
        let mut spreading = Spreading::new(alloc, onward);
        spreading.spread_to_all(basis, meter)?;
        while let Some(at) = spreading.due.pop() {
            spreading.spread_from(basis, &jumps, at, meter)?;
        }
        Ok(spreading.onward)
    }

    /// Returns whether each place that goes on in a name does so by the other flags, too.
    pub(crate) fn goes_on_within(&self, other: &Onward) -> bool
        ensures { IsTrue result → (k : ℕ) → Holds self.now Rest k → Holds other.now Rest k }
    {
        for at in 0..=self.size {
            if self.holds(Ahead::Rest, at) && !other.holds(Ahead::Rest, at) {
                return false;
            }
        }
        true
    }

    /// Returns whether the program accepts, from the place on, some text of that kind.
    pub fn holds(&self, m: Ahead, at: usize) -> bool
        ensures { IsTrue result ↔ HoldsPlace (flags_for m self.now) at }
    {
        if at > self.size {
            return false;
        }
        match m {
            Ahead::Rest => self.rest.contains(at),
            Ahead::Path => self.path.contains(at),
            Ahead::Below => self.below.contains(at),
        }
    }

    /// Creates flags of which none is set.
    pub(crate) fn empty(alloc: Global, program: &CompiledProgram) -> Result<Onward, AllocError>
        ensures size { IfOk result (λ o. o.size ≡ length program.now.0) }
        ensures none { IfOk result (λ o. (m : Ahead) → (k : ℕ) → Holds o m k → ⊥) }
    {
        let rest = Set::new(alloc, program.size())?;
        let path = Set::new(alloc, program.size())?;
        let below = Set::new(alloc, program.size())?;
        Ok(Onward {
            size: program.size(),
            rest,
            path,
            below,
        })
    }

    /// Adds a flag where it is missing.
    fn insert(&mut self, m: Ahead, at: usize)
        requires within { at ≤ self.old.size }
        requires missing { Holds self.old m at → ⊥ }
        ensures marks { Marks self.old self.new m at }
        ensures few { flag_count self.new ≤ 3 * (self.new.size + 1) }
    {
        match m {
            Ahead::Rest => self.rest.insert(at),
            Ahead::Path => self.path.insert(at),
            Ahead::Below => self.below.insert(at),
        }
    }

    fn holds_after(&self, m: Option<Ahead>, at: usize) -> bool
        ensures { IsTrue result ↔ HoldsAfter self.now m at }
    {
        match m {
            Some(m) => self.holds(m, at),
            None => false,
        }
    }

    fn holds_past(&self, m: Ahead, at: usize, by: usize) -> bool
        ensures { IsTrue result ↔ Holds self.now m (at + by) }
    {
        at <= self.size && by <= self.size - at && self.holds(m, at + by)
    }

    /// Returns whether a character other than `/` leads to the place, and the first one of a path to
    /// a place that goes on with one name fewer.
    fn holds_by_other(&self, basis: &Basis<'_>, m: Ahead, at: usize) -> bool
        ensures { IsTrue result ↔ HoldsByOther (option_copied basis.now.earlier) self.now m at }
    {
        match m {
            Ahead::Rest => self.holds(Ahead::Rest, at),
            Ahead::Path => self.holds_earlier(basis, at),
            Ahead::Below => false,
        }
    }

    fn holds_earlier(&self, basis: &Basis<'_>, at: usize) -> bool
        ensures { IsTrue result ↔ Holds (earlier_flags (option_copied basis.now.earlier) self.now) Rest at }
    {
        match basis.earlier {
            Some(flags) => flags.holds(Ahead::Rest, at),
            None => self.holds(Ahead::Rest, at),
        }
    }

    /// Returns whether a character that passes the test leads to the place with the flag.
    fn leads_by(
        &self,
        basis: &Basis<'_>,
        test: &Test,
        takes_other: bool,
        m: Ahead,
        at: usize,
    ) -> bool
        requires { IsTrue takes_other ↔ TakesOther test.now }
        ensures { IsTrue result ↔ LeadsBy test.now (option_copied basis.now.earlier) self.now m at }
    {
        takes_other && self.holds_by_other(basis, m, at) || self.leads_by_slash(test, m, at)
    }

    fn leads_by_slash(&self, test: &Test, m: Ahead, at: usize) -> bool
        ensures { IsTrue result ↔ (PassesTest test.now 47 × HoldsAfter self.now (onward_by_slash m) at) }
    {
        self.holds_after(m.onward_by_slash(), at) && test.passes('/')
    }

    /// Returns whether the instruction at a place leads to one with the flag.
    fn leads(
        &self,
        basis: &Basis<'_>,
        instruction: &Instruction,
        takes_other: bool,
        m: Ahead,
        at: usize,
    ) -> bool
        requires within { at < self.now.size }
        requires other { (t : Test) → test_of instruction.now ≡ Some t
            → IsTrue takes_other ↔ TakesOther t }
        ensures { IsTrue result ↔ LeadsOn instruction.now (option_copied basis.now.earlier) self.now m at }
    {
        let _size = self.size;
        match instruction {
            Instruction::Check(test) => self.leads_by(basis, test, takes_other, m, at + 1),
            Instruction::Repeat(test) => {
                self.holds(m, at + 1) || self.leads_by(basis, test, takes_other, m, at)
            }
            Instruction::Components => self.leads_by_components(basis, m, at),
            Instruction::Fork(n) => self.holds(m, at + 1) || self.holds_past(m, at + 1, *n),
            Instruction::Jump(n) => self.holds_past(m, at + 1, *n),
            Instruction::Back(n) => self.holds(m, at.saturating_sub(*n)),
            Instruction::End(_, _) => false,
        }
    }

    fn leads_by_components(&self, basis: &Basis<'_>, m: Ahead, at: usize) -> bool
        requires { at < self.now.size }
        ensures { IsTrue result ↔ LeadsOn Components (option_copied basis.now.earlier) self.now m at }
    {
        let _size = self.size;
        self.holds_by_other(basis, m, at)
            || self.holds_after(m.onward_by_slash(), at)
            || self.holds_after(m.onward_by_slash(), at + 1)
    }

    /// Adds a flag to a place if it is missing and its instruction leads to one that has it. Returns
    /// whether it was added.
    fn mark(
        &mut self,
        basis: &Basis<'_>,
        instruction: &Instruction,
        takes_other: bool,
        m: Ahead,
        at: usize,
    ) -> bool
        requires size { self.old.size ≡ length basis.now.program.now.0 }
        requires is { slice_get basis.now.program.now.0 at ≡ Some instruction.now }
        requires other { (t : Test) → test_of instruction.now ≡ Some t
            → IsTrue takes_other ↔ TakesOther t }
        ensures gains { Gains basis.now.program.now.0 (option_copied basis.now.earlier) self.old self.new }
        ensures more { IsTrue result → flag_count self.old < flag_count self.new }
        ensures few { IsTrue result → flag_count self.new ≤ 3 * (self.new.size + 1) }
        ensures same { IsFalse result → self.new ≡ self.old }
        ensures reached { LeadsOn instruction.now (option_copied basis.now.earlier) self.old m at
            → Holds self.new m at }
        ensures here { (n : Ahead) → (k : ℕ) → Holds self.new n k → Holds self.old n k ⊎ (k ≡ at) }
    {
        if self.holds(m, at) || !self.leads(basis, instruction, takes_other, m, at) {
            return false;
        }
        self.insert(m, at);
        true
    }

    /// Adds each flag to a place that is missing, where its instruction leads to one that has it.
    /// Reads that instruction. Returns whether a flag was added.
    pub(crate) fn settle(&mut self, basis: &Basis<'_>, at: usize, meter: &mut Meter) -> bool
        requires size { self.old.size ≡ length basis.now.program.now.0 }
        requires room { length basis.now.program.now.0 < length basis.now.others.now }
        requires others { AreOthers basis.now.program.now.0 basis.now.others.now }
        requires below { at < length basis.now.program.now.0 }
        ensures gains { Gains basis.now.program.now.0 (option_copied basis.now.earlier) self.old self.new }
        ensures more { IsTrue result → flag_count self.old < flag_count self.new }
        ensures few { IsTrue result → flag_count self.new ≤ 3 * (self.new.size + 1) }
        ensures same { IsFalse result → self.new ≡ self.old }
        ensures reached { let earlier = option_copied basis.now.earlier in
            HasReached basis.now.program.now.0 earlier self.old self.new at }
        ensures here { (n : Ahead) → (k : ℕ) → Holds self.new n k → Holds self.old n k ⊎ (k ≡ at) }
        ensures above { meter.new ≤ meter.old + 1 }
        ensures steady { meter.old ≤ meter.new }
    {
        let instruction = basis.program.read(at, meter);
        let other = basis.others.contains(at);
        let rest = self.mark(basis, instruction, other, Ahead::Rest, at);
        let path = self.mark(basis, instruction, other, Ahead::Path, at);
        let below = self.mark(basis, instruction, other, Ahead::Below, at);
        rest || path || below
    }

    /// Returns whether a place has each flag of another one.
    pub(crate) fn has_flags_of(&self, at: usize, other: usize) -> bool
        ensures { let HasEach = λ (m : Ahead). HasFlagOf self.now m at other in
            IsTrue result ↔ (HasEach Rest × (HasEach Path × HasEach Below)) }
    {
        self.has_flag_of(Ahead::Rest, at, other)
            && self.has_flag_of(Ahead::Path, at, other)
            && self.has_flag_of(Ahead::Below, at, other)
    }

    fn has_flag_of(&self, m: Ahead, at: usize, other: usize) -> bool
        ensures { IsTrue result ↔ HasFlagOf self.now m at other }
    {
        self.holds(m, at) || !self.holds(m, other)
    }
}

/// Returns the places whose instruction has a test that a character other than `/` passes. Reads each
/// instruction once.
pub(crate) fn others_of(
    alloc: Global,
    program: &CompiledProgram,
    meter: &mut Meter,
) -> Result<Set, AllocError>
    ensures room { IfOk result (λ others. length program.now.0 < length others) }
    ensures others { IfOk result (AreOthers program.now.0) }
    ensures above { meter.new ≤ meter.old + length program.now.0 }
    ensures steady { meter.old ≤ meter.new }
{
    let mut others = Set::new(alloc, program.size())?;
    for at in 0..program.size() {
        if takes_other_at(alloc, program, at, meter)? {
            others.insert(at);
        }
    }
    Ok(others)
}

/// Returns whether the instruction at a place has such a test.
fn takes_other_at(
    alloc: Global,
    program: &CompiledProgram,
    at: usize,
    meter: &mut Meter,
) -> Result<bool, AllocError>
    ensures answer { IfOk result (λ answer. (i : Instruction) → (t : Test)
        → slice_get program.now.0 at ≡ Some i → test_of i ≡ Some t → IsTrue answer ↔ TakesOther t) }
    ensures above { meter.new ≤ meter.old + 1 }
    ensures steady { meter.old ≤ meter.new }
{
    match test_at(program, at, meter) {
        Some(test) => test.takes_other(alloc),
        None => Ok(false),
    }
}
