//! Writing patterns into one program. What they begin with, and how they end, is written once.
ghost use Rattle.std.specs.Prelude.{◌≡◌, ◌-◌, ◌+◌, ◌<◌, ◌≤◌, ◌++◌, ◌∷◌, All, IfOk, OnOk, length, sum_by};
ghost use Rattle.std.specs.{Prelude.take, List.Sorted.IsPermutation};
ghost use Rattle.wax_match.specs.inner.Ends.{AreWritten, IsIn};
ghost use Rattle.wax_match.specs.inner.Left.{IsAfterAt, IsLed, MeansBetween, OneLeftMeans, SomeLeftMeans};
ghost use Rattle.wax_match.specs.{inner.LeadCode.lead_code, inner.LeftCost.left_cost};

use crate::encode::left::{Gap, Lead, Left};
use crate::encode::shared::WrittenEnd;
use crate::encode::tail::Tail;
use std::alloc::{AllocError, Global};
use wax_program::instruction::Instruction;
use wax_token::token::Sides;

/// How many leads are written one behind another at most. What is left after so many is written apart, so
/// that this takes little of the stack.
pub const MOST_LEADS: usize = 256;

impl Tail {
    /// Writes what is left of patterns, one beside another. At most `most` leads are written one behind
    /// another; what is left after these is written apart.
    #[cycle(put_lefts)]
    pub fn put_lefts<'t>(
        &mut self,
        ends: &mut [WrittenEnd],
        lefts: &[Left<'_, 't>],
        most: usize,
    ) -> Result<(), AllocError>
        requires some { 1 ≤ length lefts.now }
        requires kept { All (IsIn self.old) ends.old }
        ensures written { OnOk result (AreWritten self.old self.new (SomeLeftMeans lefts.now)) }
        ensures kept { OnOk result (All (IsIn self.new) ends.new) }
        ensures cost { OnOk result (length self.new + 1 ≤ length self.old + sum_by left_cost lefts.now) }
    {
        let mut start = 0;
        while start < lefts.len() {
            let before = self.len();
            let next = self.put_first(ends, lefts, start, most)?;
            self.put_beside(start, before)?;
            start = next;
        }
        Ok(())
    }

    /// Writes what is left of the pattern with the index `start`, and of those after it that share what
    /// it begins with. Returns the index after them.
    #[cycle(put_lefts)]
    fn put_first<'t>(
        &mut self,
        ends: &mut [WrittenEnd],
        lefts: &[Left<'_, 't>],
        start: usize,
        most: usize,
    ) -> Result<usize, AllocError>
        requires start { start < length lefts.now }
        requires kept { All (IsIn self.old) ends.old }
        ensures next { IfOk result (λ next. (start < next) × (next ≤ length lefts.now)) }
        ensures written { IfOk result (λ next.
            AreWritten self.old self.new (MeansBetween lefts.now start next)) }
        ensures kept { OnOk result (All (IsIn self.new) ends.new) }
        ensures cost { IfOk result (λ next. length self.new + 1 + sum_by left_cost (take start lefts.now)
            ≤ length self.old + sum_by left_cost (take next lefts.now)) }
    {
        let first = &lefts[start];
        let len = shared_len(lefts, start);
        let Some((lead, after)) = first.head(len) else {
            self.put_end(ends, first.number, first.gap)?;
            return Ok(start + 1);
        };
        if most == 0 {
            self.put_apart(first)?;
            return Ok(start + 1);
        }
        let led = led_by(self.allocator(), lefts, start, lead, after)?;
        let next = start + led.len();
        let led = sorted(led);
        self.put_lefts(ends, &led, most - 1)?;
        self.put_lead(lead)?;
        Ok(next)
    }

    /// Makes what was written since there were `before` instructions an alternative to what was written
    /// before that, unless it is the first.
    fn put_beside(&mut self, start: usize, before: usize) -> Result<(), AllocError>
        requires { before ≤ length self.old }
        ensures first { OnOk result (start ≡ 0 → self.new ≡ self.old) }
        ensures beside { OnOk result (0 < start
            → self.new ≡ Instruction.Fork (length self.old - before) ∷ self.old) }
    {
        if start == 0 {
            return Ok(());
        }
        self.put_skip(before)
    }

    /// Writes all that is left of a pattern, with an end of its own.
    fn put_apart(&mut self, left: &Left<'_, '_>) -> Result<(), AllocError>
        ensures written { OnOk result (AreWritten self.old self.new (OneLeftMeans left.now)) }
        ensures cost { OnOk result (length self.new + 1 ≤ length self.old + left_cost left.now) }
    {
        let sides = Sides {
            before: left.before,
            after: false,
        };
        self.put(Instruction::End(left.number, left.number))?;
        self.put_sequence(left.tokens, sides)?;
        self.put_gap(left.gap)?;
        self.put_text(left.text, false)
    }

    fn put_lead(&mut self, lead: Lead<'_, '_>) -> Result<(), AllocError>
        ensures { OnOk result (self.new ≡ lead_code lead.entry ++ self.old) }
    {
        match lead {
            Lead::Letters(text) => self.put_text(text, false),
            Lead::Wild(gap) => self.put_gap(gap),
            Lead::Token(token, sides) => self.put_token(token, sides),
        }
    }
}

/// Returns what is left of patterns after the lead with which that with the index `start` begins. They
/// are all that follow one another and begin with it.
fn led_by<'a, 't>(
    alloc: Global,
    lefts: &[Left<'a, 't>],
    start: usize,
    lead: Lead<'a, 't>,
    after: Left<'a, 't>,
) -> Result<Vec<Left<'a, 't>>, AllocError>
    requires start { start < length lefts.now }
    requires after { IsAfterAt lead lefts.now start after }
    ensures { IfOk result (λ led. IsLed lead.entry lefts.now start led.items) }
{
    let mut led = Vec::new(alloc);
    led.push(after)?;
    let mut next = start + 1;
    while next < lefts.len() {
        let Some(after) = lefts[next].after(lead) else {
            return Ok(led);
        };
        led.push(after)?;
        next += 1;
    }
    Ok(led)
}

/// Sorts what is left of patterns, so that those that begin with the same follow one another.
pub fn sorted<'a, 't>(lefts: Vec<Left<'a, 't>>) -> Vec<Left<'a, 't>>
    ensures { IsPermutation lefts.entry.items result.items }
{
    let mut lefts = lefts;
    lefts.sort_unstable_by_key(|left| (left.text, kind(left)));
    lefts
}

/// Returns a number of what it begins with after its text.
fn kind(left: &Left<'_, '_>) -> u8 {
    if left.tokens.is_empty() {
        return 0;
    }
    match left.gap {
        Gap::Nothing => 1,
        Gap::Star => 2,
        Gap::Folders => 3,
        Gap::Below => 4,
        Gap::Anything => 5,
    }
}

/// Returns how many bytes the text with the index `start` shares with all those after it that begin with
/// the same character.
fn shared_len(lefts: &[Left<'_, '_>], start: usize) -> usize
    requires { start < length lefts.now }
{
    let text = lefts[start].text;
    let mut len = text.len();
    for left in &lefts[start + 1..] {
        let shared = common_len(text, left.text).min(len);
        if shared == 0 {
            return len;
        }
        len = shared;
    }
    len
}

/// Returns how many bytes both texts begin with, without those of a character that differs.
fn common_len(left: &str, right: &str) -> usize {
    let mut len = common_bytes(left.as_bytes(), right.as_bytes());
    while len > 0 && !left.is_char_boundary(len) {
        len -= 1;
    }
    len
}

fn common_bytes(left: &[u8], right: &[u8]) -> usize {
    let most = left.len().min(right.len());
    for index in 0..most {
        if left[index] != right[index] {
            return index;
        }
    }
    most
}
