//! What the end of a text says of it, and of what may follow it.
ghost use Rattle.std.specs.Prelude.{◌≡◌, ◌+◌, ◌*◌, ◌≤◌, ◌↔◌, ◌/◌, ℕ, List, IfOk, IfSome, IsTrue, chars};
ghost use Rattle.std.specs.Prelude.{length};
ghost use Rattle.wax_states.specs.States.{HasState, state_of};
ghost use Rattle.wax_lazy.specs.Cost.{end_visits, numbers_visits, text_visits};
ghost use Rattle.wax_lazy.specs.inner.Cached.{AnyAhead, IsAheadVerdict, IsCacheOf, KeepsCache, LeadsText};
ghost use Rattle.wax_lazy.specs.{inner.Cached.numbers_at, Numbers.AreNumbersFrom};
ghost use Rattle.wax_program.specs.{Closed.IsClosed, Machine.Accepts, Onward.{AreFlagsOf, IsAhead}};
ghost use Rattle.wax_query.specs.Ranges.{AtMost};

use crate::cache::Cache;
use crate::following::follow_text;
use std::alloc::AllocError;
use wax_program::{Ahead, CompiledProgram, Meter, Onward};
use wax_query::query::Verdict;
use wax_states::{Next, StateId};

/// Returns whether the program, begun at the cache's place, accepts the text.
pub(crate) fn accepts(
    program: &CompiledProgram,
    cache: &mut Cache,
    text: &str,
    meter: &mut Meter,
) -> Result<bool, AllocError>
    requires { IsCacheOf program.now.0 cache.old }
    ensures kept { KeepsCache program.now.0 cache.old cache.new }
    ensures decides { IfOk result
        (λ b. IsTrue b ↔ Accepts program.now.0 cache.old.start (chars text.now)) }
    ensures above { let all = text_visits program.now.0 (length (chars text.now)) in
        meter.new ≤ meter.old + all + end_visits program.now.0 }
    ensures steady { meter.old ≤ meter.new }
{
    match follow_text(program, cache, text, meter)? {
        Next::To(state) => Ok(cache.accepts(program, state, meter)),
        Next::Nothing => Ok(false),
        Next::Everything => Ok(true),
    }
}

/// Follows a text, and finds the numbers of the patterns that match it. Returns the state that keeps
/// them, or `None` if no pattern matches.
pub(crate) fn find_numbers(
    program: &CompiledProgram,
    cache: &mut Cache,
    text: &str,
    meter: &mut Meter,
) -> Result<Option<StateId>, AllocError>
    requires cache { IsCacheOf program.now.0 cache.old }
    requires closed { IsClosed program.now.0 }
    ensures kept { KeepsCache program.now.0 cache.old cache.new }
    ensures numbers { let text = chars text.now in
        IfOk result (λ at. AreNumbersFrom program.now.0 cache.old.start text (numbers_at cache.new at)) }
    ensures above { let all = text_visits program.now.0 (length (chars text.now)) in
        meter.new ≤ meter.old + all + numbers_visits program.now.0 }
    ensures steady { meter.old ≤ meter.new }
{
    match follow_text(program, cache, text, meter)? {
        Next::To(state) => {
            cache.find_numbers(program, state, meter)?;
            Ok(Some(state))
        }
        Next::Nothing => Ok(None),
        Next::Everything => unreachable!(),
    }
}

/// Returns both answers for a text that led to `next` and goes on in the given way, with at most `most`
/// names; without a limit if it is `None`.
pub fn verdict_at(
    program: &CompiledProgram,
    onward: &Onward,
    cache: &mut Cache,
    next: Next,
    m: Ahead,
    most: Option<usize>,
    meter: &mut Meter,
) -> Verdict
    requires cache { IsCacheOf program.now.0 cache.old }
    requires onward { AreFlagsOf program.now.0 most onward.now }
    requires has_state { IfSome (state_of next) (HasState cache.old.table.states.items) }
    ensures kept { KeepsCache program.now.0 cache.old cache.new }
    ensures decides { (text : List ℕ)
        → LeadsText program.now.0 cache.old.table.states.items cache.old.start text next
        → IsAheadVerdict program.now.0 most cache.old.start text m result }
    ensures above { meter.new ≤ meter.old + end_visits program.now.0 }
    ensures steady { meter.old ≤ meter.new }
{
    match next {
        Next::To(state) => Verdict {
            goes_on: any_ahead(onward, m, cache.table.places(state)),
            is_match: cache.accepts(program, state, meter),
        },
        Next::Nothing => Verdict {
            is_match: false,
            goes_on: false,
        },
        Next::Everything => Verdict {
            is_match: true,
            goes_on: has_text(m, most),
        },
    }
}

/// Returns whether there is a text of the kind with at most `most` names; without a limit if it is
/// `None`. The rest of a name needs no other name.
fn has_text(m: Ahead, most: Option<usize>) -> bool
    ensures { IsTrue result ↔ ((s : List ℕ) × IsAhead most m s) }
{
    match m {
        Ahead::Rest => true,
        Ahead::Path | Ahead::Below => allows_one(most),
    }
}

/// Returns whether one name is within the limit.
fn allows_one(most: Option<usize>) -> bool
    ensures { IsTrue result ↔ AtMost 1 most }
{
    match most {
        Some(most) => most > 0,
        None => true,
    }
}

/// Returns whether some text of the kind is accepted from one of the places.
fn any_ahead(onward: &Onward, m: Ahead, places: &[usize]) -> bool
    ensures { IsTrue result ↔ AnyAhead onward.now m places.now }
{
    for place in places {
        if onward.holds(m, *place) {
            return true;
        }
    }
    false
}
