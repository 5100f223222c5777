//! Following a text from state to state.
ghost use Rattle.std.specs.Prelude.{◌≡◌, ◌+◌, ◌*◌, ◌/◌, ◌<◌, ◌≤◌, [], IfOk, chars, drop, length};
ghost use Rattle.std.specs.Str.{IsAscii, IsUtf8};
ghost use Rattle.wax_lazy.specs.Cost.{char_visits, text_visits};
ghost use Rattle.wax_lazy.specs.inner.Cached.{DecidesLeft, IsCacheOf, KeepsCache, KnowsState, LeadsText};
ghost use Rattle.wax_lazy.specs.inner.Rows.{HasRow};
ghost use Rattle.wax_states.specs.States.{HasState, places_at};

use crate::cache::Cache;
use crate::rows::{FIRST_ROW, ROW};
use std::alloc::AllocError;
use wax_program::{CompiledProgram, Meter};
use wax_states::{ALL, DEAD, FIRST, Next, StateId};

/// Follows a text from state to state. Returns where it leads, to whatever follows it.
pub(crate) fn follow_text(
    program: &CompiledProgram,
    cache: &mut Cache,
    text: &str,
    meter: &mut Meter,
) -> Result<Next, AllocError>
    requires { IsCacheOf program.now.0 cache.old }
    ensures kept { KeepsCache program.now.0 cache.old cache.new }
    ensures leads { IfOk result
        (LeadsText program.now.0 cache.new.table.states.items cache.old.start (chars text.now)) }
    ensures above { meter.new ≤ meter.old + text_visits program.now.0 (length (chars text.now)) }
    ensures steady { meter.old ≤ meter.new }
{
    if text.is_ascii() {
        return follow_ascii(program, cache, text.as_bytes(), meter);
    }
    cache.prepare_wide(program, meter)?;
    follow_chars(program, cache, text, meter)
}

/// Follows a text of only ASCII characters, by its bytes.
fn follow_ascii(
    program: &CompiledProgram,
    cache: &mut Cache,
    text: &[u8],
    meter: &mut Meter,
) -> Result<Next, AllocError>
    requires cache { IsCacheOf program.now.0 cache.old }
    requires ascii { IsAscii text.now }
    ensures kept { KeepsCache program.now.0 cache.old cache.new }
    ensures leads { IfOk result
        (LeadsText program.now.0 cache.new.table.states.items cache.old.start text.now) }
    ensures above { meter.new ≤ meter.old + char_visits program.now.0 * length text.now }
    ensures steady { meter.old ≤ meter.new }
{
    let mut state = cache.begin(program, text.len())?;
    let mut index = 0;
    while index < text.len() {
        let (next, end) = advance_in(program, cache, state, text, index, meter)?;
        let Next::To(to) = next else {
            return Ok(next);
        };
        state = to;
        index = end;
    }
    Ok(Next::To(state))
}

/// Follows ASCII characters of a text from the byte `index` on: one if its cell is filled, and
/// otherwise one or more. Returns where they lead, and up to which byte.
#[inline(always)]
fn advance_in(
    program: &CompiledProgram,
    cache: &mut Cache,
    state: StateId,
    text: &[u8],
    index: usize,
    meter: &mut Meter,
) -> Result<(Next, usize), AllocError>
    requires here { KnowsState program.now.0 cache.old state }
    requires ascii { IsAscii text.now }
    requires within { index < length text.now }
    ensures kept { KeepsCache program.now.0 cache.old cache.new }
    ensures further { IfOk result (λ r. (index < r.1) × (r.1 ≤ length text.now)) }
    ensures decides { let places = places_at cache.old.table.states.items state in
        IfOk result (λ r. DecidesLeft program.now.0 cache.new.table.states.items places
        (drop index text.now) (drop r.1 text.now) r.0) }
    ensures spent { IfOk result (λ r.
        meter.new + char_visits program.now.0 * index ≤ meter.old + char_visits program.now.0 * r.1) }
    ensures most { let all = char_visits program.now.0 * length text.now in
        meter.new + char_visits program.now.0 * index ≤ meter.old + all }
    ensures steady { meter.old ≤ meter.new }
{
    if let Some(next) = cache.cached_ascii_next(state, text[index]) {
        return Ok((next, index + 1));
    }
    cache.advance_far(program, state, text, index, meter)
}

/// Follows any text: by rows as far as they lead, and otherwise character by character.
fn follow_chars(
    program: &CompiledProgram,
    cache: &mut Cache,
    text: &str,
    meter: &mut Meter,
) -> Result<Next, AllocError>
    requires { IsCacheOf program.now.0 cache.old }
    ensures kept { KeepsCache program.now.0 cache.old cache.new }
    ensures leads { IfOk result
        (LeadsText program.now.0 cache.new.table.states.items cache.old.start (chars text.now)) }
    ensures above { meter.new ≤ meter.old + char_visits program.now.0 * length (chars text.now) }
    ensures steady { meter.old ≤ meter.new }
{
    let mut state = cache.begin(program, text.len())?;
    let mut left = text;
    while !left.is_empty() {
        let (next, end) = advance_left(program, cache, state, left, meter)?;
        let Next::To(to) = next else {
            return Ok(next);
        };
        state = to;
        left = &left[end..];
    }
    Ok(Next::To(state))
}

/// Follows characters of a text: those that rows know, or else one. Returns where they lead, and up
/// to which byte.
#[inline(always)]
fn advance_left(
    program: &CompiledProgram,
    cache: &mut Cache,
    state: StateId,
    left: &str,
    meter: &mut Meter,
) -> Result<(Next, usize), AllocError>
    requires here { KnowsState program.now.0 cache.old state }
    requires some { 0 < length left.now }
    ensures kept { KeepsCache program.now.0 cache.old cache.new }
    ensures further { IfOk result (λ r. (0 < r.1) × (r.1 ≤ length left.now)) }
    ensures utf8 { IfOk result (λ r. IsUtf8 (drop r.1 left.now)) }
    ensures decides { let places = places_at cache.old.table.states.items state in
        IfOk result (λ r. DecidesLeft program.now.0 cache.new.table.states.items places
        (chars left.now) (chars (drop r.1 left.now)) r.0) }
    ensures spent { let all = char_visits program.now.0 * length (chars left.now) in IfOk result
        (λ r. meter.new + char_visits program.now.0 * length (chars (drop r.1 left.now)) ≤ meter.old + all) }
    ensures most { meter.new ≤ meter.old + char_visits program.now.0 * length (chars left.now) }
    ensures steady { meter.old ≤ meter.new }
{
    if let Some(row) = cache.rows.find(state) {
        let (next, end) = follow_rows(program, cache, state, row, left.as_bytes());
        if end > 0 {
            return Ok((next, end));
        }
    }
    let mut all = left.chars();
    match all.next() {
        Some(c) => {
            let next = cache.advance(program, state, c, meter)?;
            Ok((next, c.len_utf8()))
        }
        None => Ok((Next::To(state), 0)),
    }
}

/// Follows a text from a row of a state, as far as cells are filled. Returns where that leads, and
/// up to which byte, where a character ends. Takes one load and one comparison for each byte.
#[inline(always)]
fn follow_rows(
    _program: &CompiledProgram,
    cache: &Cache,
    _state: StateId,
    row: usize,
    text: &[u8],
) -> (Next, usize)
    requires cache { IsCacheOf _program.now.0 cache.now }
    requires row { HasRow cache.now.rows.keys.items row _state [] }
    requires utf8 { IsUtf8 text.now }
    ensures within { result.1 ≤ length text.now }
    ensures utf8 { IsUtf8 (drop result.1 text.now) }
    ensures decides { let places = places_at cache.now.table.states.items _state in
        DecidesLeft _program.now.0 cache.now.table.states.items places
        (chars text.now) (chars (drop result.1 text.now)) result.0 }
{
    let mut here = row + FIRST_ROW;
    let mut index = 0;
    while index < text.len() {
        let cell = cache.rows.cells[(here - FIRST_ROW) * ROW + usize::from(text[index])];
        if cell < FIRST {
            if cell == DEAD {
                return (Next::Nothing, text.len());
            }
            if cell == ALL {
                return (Next::Everything, text.len());
            }
            break;
        }
        here = usize::from(cell);
        index += 1;
    }
    let key = cache.rows.keys[here - FIRST_ROW];
    (Next::To(key.state), index - key.begun.len())
}
