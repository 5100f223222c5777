//! What is known of all paths that a set matches.
ghost use Rattle.std.specs.Prelude.{◌≡◌, pos};
ghost use Rattle.wax.specs.Language.{Span, Tree};
ghost use Rattle.wax_c.specs.{Facts.{AreFacts, HasTextAs}, SetOwned.set_at};
ghost use types.Logic.{sem};

use crate::error::number_of_bool;
use crate::facts::{WaxFacts, facts_of, write_text};
use crate::set_handle::HeldSet;
use std::alloc::Global;
use wax::Program;

/// Writes what is known of all paths that the set matches to `facts`, as `wax_glob_facts` does for a
/// glob. Returns 0. It doesn't allocate.
#[unsafe(no_mangle)]
pub unsafe extern "C" fn wax_set_facts(alloc: Global, set: *const u8, facts: &mut WaxFacts) -> i32
    ghost held: { Tree Span }
    requires* { sem 𝓛 (set_at alloc set held) }
    ensures* back { sem 𝓛 (set_at alloc set held) }
    ensures facts { AreFacts held facts.new × (result ≡ pos 0) }
{
    facts_held(alloc, &*(set as *const HeldSet), facts)
}

/// Writes the only text that the set matches to the beginning of the output, and the number of its bytes
/// to `written`. Returns 1, or 0 if a pattern isn't written as one text, or as another text than the
/// first; `written` is 0 then, and the output is unchanged. A set without patterns is written as the
/// empty text, though it matches none.
///
/// # Errors
///
/// Returns -10 and -21 as `wax_glob_text` does.
#[unsafe(no_mangle)]
pub unsafe extern "C" fn wax_set_text(
    alloc: Global,
    set: *const u8,
    output: &mut [u8],
    written: &mut usize,
) -> i32
    ghost held: { Tree Span }
    requires* { sem 𝓛 (set_at alloc set held) }
    ensures* back { sem 𝓛 (set_at alloc set held) }
    ensures text { HasTextAs held output.old (record { bytes = output.new; written = written.new }) result }
{
    text_held(alloc, &*(set as *const HeldSet), output, written)
}

fn facts_held(_alloc: Global, held: &HeldSet, facts: &mut WaxFacts) -> i32
    ensures { AreFacts held.now.matcher facts.new × (result ≡ pos 0) }
{
    let set = held.matcher.any();
    *facts = facts_of(set.depth(), set.has_root(), set.is_exhaustive());
    0
}

fn text_held(alloc: Global, held: &HeldSet, output: &mut [u8], written: &mut usize) -> i32
    ensures { HasTextAs held.now.matcher output.old
        (record { bytes = output.new; written = written.new }) result }
{
    let text = held.matcher.any().text(alloc);
    number_of_bool(&write_text(text, output, written))
}
