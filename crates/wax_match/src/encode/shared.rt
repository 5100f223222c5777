//! Ends of patterns, which those with the same number share.
ghost use Rattle.std.specs.Prelude.{◌≡◌, ◌≤◌, ◌+◌, ◌++◌, [], All, IfOk, IsTrue, OnOk, length};
ghost use Rattle.wax_match.specs.{inner.Ends.{AreWritten, IsIn}, inner.LeadCode.gap_code};
ghost use Rattle.wax_match.specs.inner.Left.{EndMeans};

use crate::encode::left::{Gap, is_same};
use crate::encode::tail::Tail;
use std::alloc::{AllocError, Global};
use wax_program::instruction::{Instruction, Test};

/// How many ends a number may have: one after each wildcard.
const GAPS: usize = 5;

/// An end of a number after a wildcard, and how many instructions there were when it had been written;
/// 0 if there is none.
#[derive(Clone, Copy)]
pub struct WrittenEnd {
    number: usize,
    gap: Gap,
    len: usize,
}

/// Makes room for the ends of patterns, for each number below `limit`. Greater ones share the room of
/// these: if one takes the place of another, that is written again.
pub fn room_for_ends(alloc: Global, limit: usize) -> Result<Vec<WrittenEnd>, AllocError>
    ensures { IfOk result (λ ends. All (IsIn []) ends.items) }
{
    let none = WrittenEnd {
        number: 0,
        gap: Gap::Nothing,
        len: 0,
    };
    vec![in alloc; none; limit.saturating_mul(GAPS)]
}

impl Tail {
    /// Writes a wildcard and the end of a number after it, or a jump to where they are.
    pub fn put_end(
        &mut self,
        ends: &mut [WrittenEnd],
        number: usize,
        gap: Gap,
    ) -> Result<(), AllocError>
        requires { All (IsIn self.old) ends.old }
        ensures written { OnOk result (AreWritten self.old self.new (EndMeans number gap)) }
        ensures kept { OnOk result (All (IsIn self.new) ends.new) }
        ensures cost { OnOk result (length self.new ≤ length self.old + length (gap_code gap) + 1) }
    {
        let at = room_of(number, gap, ends.len());
        if at >= ends.len() {
            return self.put_new_end(number, gap);
        }
        let end = ends[at];
        if is_end_of(end, number, gap) {
            let by = self.len() - end.len;
            return self.put(Instruction::Jump(by));
        }
        self.put_new_end(number, gap)?;
        ends[at] = WrittenEnd {
            number,
            gap,
            len: self.len(),
        };
        Ok(())
    }

    fn put_new_end(&mut self, number: usize, gap: Gap) -> Result<(), AllocError>
        ensures written { OnOk result (AreWritten self.old self.new (EndMeans number gap)) }
        ensures cost { OnOk result (length self.new ≤ length self.old + length (gap_code gap) + 1) }
    {
        self.put(Instruction::End(number, number))?;
        self.put_gap(gap)
    }

    /// Writes a wildcard.
    pub fn put_gap(&mut self, gap: Gap) -> Result<(), AllocError>
        ensures { OnOk result (self.new ≡ gap_code gap ++ self.old) }
    {
        match gap {
            Gap::Nothing => Ok(()),
            Gap::Star => self.put(Instruction::Repeat(Test::NotSlash)),
            Gap::Folders => self.put_components(),
            Gap::Below => {
                self.put_rest()?;
                self.put(Instruction::Fork(2))
            }
            Gap::Anything => self.put(Instruction::Repeat(Test::Any)),
        }
    }
}

/// Returns the index of the room of an end.
fn room_of(number: usize, gap: Gap, room: usize) -> usize {
    let numbers = (room / GAPS).max(1);
    let index = match gap {
        Gap::Nothing => 0,
        Gap::Star => 1,
        Gap::Folders => 2,
        Gap::Below => 3,
        Gap::Anything => 4,
    };
    (number % numbers)
        .saturating_mul(GAPS)
        .saturating_add(index)
}

fn is_end_of(end: WrittenEnd, number: usize, gap: Gap) -> bool
    ensures { IsTrue result → (1 ≤ end.len) × (end.number ≡ number) × (end.gap ≡ gap) }
{
    end.len > 0 && end.number == number && is_same(end.gap, gap)
}
