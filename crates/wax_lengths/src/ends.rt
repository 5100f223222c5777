//! Finding in one pass which parts of a text that begin at a place a program accepts.
ghost use Rattle.std.specs.Prelude.{◌≡◌, ◌+◌, ◌*◌, ◌<◌, ◌≤◌, OnOk, drop, length};
ghost use Rattle.wax_program.specs.Places.{IsEmpty};
ghost use Rattle.wax_lengths.specs.Ends.{MarksBeginnings};

use crate::text::Text;
use std::alloc::{AllocError, Global};
use wax_program::{CompiledProgram, HeapSets, Meter, Sets, WordSets, advance, finish};

/// Fills `ends` with one flag for each part of the text that begins at `at`, from the empty one on:
/// whether the program accepts it. Flags that are missing at the end count as `false`. Reads each
/// instruction at most once for each character and once at the end; the meter counts these.
pub fn run_ends(
    alloc: Global,
    program: &CompiledProgram,
    text: &Text<'_>,
    at: usize,
    ends: &mut Vec<bool>,
    meter: &mut Meter,
) -> Result<(), AllocError>
    requires { at ≤ length text.now }
    ensures marked { OnOk result (MarksBeginnings program.now.0 (drop at text.now) ends.new.items
        (length (drop at text.now) + 1)) }
    ensures few { OnOk result (at + length ends.new.items ≤ length text.now + 1) }
    ensures above { meter.new ≤ meter.old + length program.now.0 * (length text.now + 1) }
    ensures steady { meter.old ≤ meter.new }
{
    let size = program.size();
    if size < 64 {
        let mut sets = WordSets::new(size);
        ends_over(program, text, at, &mut sets, ends, meter)?;
        return Ok(());
    }
    let mut sets = HeapSets::new(alloc, size)?;
    ends_over(program, text, at, &mut sets, ends, meter)?;
    Ok(())
}

/// Fills `ends` as `run_ends` does. The sets must be empty.
fn ends_over<R: Sets>(
    program: &CompiledProgram,
    text: &Text<'_>,
    at: usize,
    sets: &mut R,
    ends: &mut Vec<bool>,
    meter: &mut Meter,
) -> Result<(), AllocError>
    requires at { at ≤ length text.now }
    requires size { (R.position sets.old).size ≡ length program.now.0 }
    requires pending { IsEmpty (R.position sets.old).pending }
    requires read { IsEmpty (R.position sets.old).read }
    requires next { IsEmpty (R.position sets.old).next }
    ensures marked { OnOk result (MarksBeginnings program.now.0 (drop at text.now) ends.new.items
        (length (drop at text.now) + 1)) }
    ensures few { OnOk result (at + length ends.new.items ≤ length text.now + 1) }
    ensures above { meter.new ≤ meter.old + length program.now.0 * (length text.now + 1) }
    ensures steady { meter.old ≤ meter.new }
{
    ends.clear();
    sets.insert(0);
    for n in 0..text.len() - at {
        if sets.is_done() {
            let ended = finish(program, sets, meter);
            ends.push(ended)?;
            return Ok(());
        }
        advance(program, text.char_after(at, n), sets, meter);
        let ended = sets.ends();
        ends.push(ended)?;
        sets.turn();
    }
    let ended = finish(program, sets, meter);
    ends.push(ended)?;
    Ok(())
}
