//! The instructions that are read before a character is taken.
ghost use Rattle.std.specs.Prelude.{◌≡◌, ◌<◌, ℕ, IfOk, IsTrue, Contains, length};
ghost use Rattle.wax_compare.specs.inner.Distinctions.{Extends, GoesOnIn, IsClosure};

use std::alloc::{AllocError, Global};
use wax_program::instruction::Instruction;
use wax_program::{CompiledProgram, Meter};

/// The places of instructions that are read before a character is taken.
#[derive(Drop)]
pub struct Closure {
    /// The places, in the order in which they are found, each once.
    pub places: Vec<usize>,
    /// For each place of the program, its index in `places`, if it is there.
    pub index: Vec<usize>,
}

impl Closure {
    /// Creates an empty list for a program.
    pub fn new(alloc: Global, program: &CompiledProgram) -> Result<Closure, AllocError>
        ensures { IfOk result (λ c. length c.index.items ≡ length program.now.0) }
    {
        Ok(Closure {
            places: Vec::new(alloc),
            index: vec![in alloc; 0usize; program.size()]?,
        })
    }

    /// Lists what is read from `places` on. Returns whether all of it is listed. It always is, since no
    /// place is listed twice; returning it saves the proof that the places are no more than the program
    /// has.
    pub fn list(&mut self, program: &CompiledProgram, places: &[usize]) -> Result<bool, AllocError>
        requires { length self.old.index.items ≡ length program.now.0 }
        ensures room { IfOk result (λ _. length self.new.index.items ≡ length program.now.0) }
        ensures all { IfOk result (λ all. IsTrue all
            → IsClosure program.now.0 places.now self.new.places.items) }
    {
        self.places.clear();
        self.add_all(places)?;
        let mut meter = Meter::new();
        for at in 0..program.size() {
            if at >= self.places.len() {
                return Ok(true);
            }
            let place = self.places[at];
            self.go_on(program, place, &mut meter)?;
        }
        Ok(self.places.len() <= program.size())
    }

    /// Adds places of the program.
    fn add_all(&mut self, places: &[usize]) -> Result<(), AllocError>
        ensures room { IfOk result (λ _. length self.new.index.items ≡ length self.old.index.items) }
        ensures has { IfOk result (λ _. (k : ℕ) → Contains places.now k → k < length self.old.index.items
            → Contains self.new.places.items k) }
    {
        for place in places {
            self.add(*place)?;
        }
        Ok(())
    }

    /// Adds the places to which the instruction at a place leads without a character.
    fn go_on(
        &mut self,
        program: &CompiledProgram,
        place: usize,
        meter: &mut Meter,
    ) -> Result<(), AllocError>
        requires { length self.old.index.items ≡ length program.now.0 }
        ensures room { IfOk result (λ _. length self.new.index.items ≡ length program.now.0) }
        ensures extends { IfOk result (λ _. Extends self.old.places.items self.new.places.items) }
        ensures leads { IfOk result (λ _. GoesOnIn program.now.0 self.new.places.items place) }
    {
        if place >= program.size() {
            return Ok(());
        }
        let next = place.saturating_add(1);
        match program.read(place, meter) {
            Instruction::Check(_) | Instruction::Components | Instruction::End(_, _) => Ok(()),
            Instruction::Repeat(_) => self.add(next),
            Instruction::Fork(skipped) => {
                self.add(next)?;
                self.add(next.saturating_add(*skipped))
            }
            Instruction::Jump(skipped) => self.add(next.saturating_add(*skipped)),
            Instruction::Back(count) => self.add(place.saturating_sub(*count)),
        }
    }

    /// Adds a place, if the program has it, unless it is listed.
    fn add(&mut self, place: usize) -> Result<(), AllocError>
        ensures room { IfOk result (λ _. length self.new.index.items ≡ length self.old.index.items) }
        ensures extends { IfOk result (λ _. Extends self.old.places.items self.new.places.items) }
        ensures has { IfOk result (λ _. place < length self.old.index.items
            → Contains self.new.places.items place) }
    {
        if place >= self.index.len() || self.has(place) {
            return Ok(());
        }
        self.index[place] = self.places.len();
        self.places.push(place)?;
        Ok(())
    }

    /// Returns whether a place is listed.
    fn has(&self, place: usize) -> bool
        ensures { IsTrue result → Contains self.now.places.items place }
    {
        if place >= self.index.len() {
            return false;
        }
        let at = self.index[place];
        at < self.places.len() && self.places[at] == place
    }
}
