//! Spans: sets of lengths, from which the best is picked, one after another.
ghost use Rattle.std.specs.Prelude.{◌≡◌, ◌+◌, ◌-◌, ◌<◌, ◌≤◌, ◌↔◌, ℕ, IsTrue, IfSome, MatchOption, length};
ghost use Rattle.std.specs.Prelude.{drop, true, false};
ghost use Rattle.wax_program.specs.Places.{HoldsPlace};
ghost use Rattle.wax_lengths.specs.Spans.{InSpan, IsMarked, IsNarrowed, IsPicked, looks, looks_of};

use crate::text::Text;
use crate::visits::Visits;

/// Which lengths of a span count.
#[derive(Drop)]
pub enum Marks {
    All,
    /// 0, and the lengths of parts that end with a `/`.
    AfterSlash,
    /// The lengths whose flag is set.
    Flags(Vec<bool>),
}

/// A set of lengths from `low` on and below `end`, in characters.
#[derive(Drop)]
pub struct LengthSpan {
    pub low: usize,
    pub end: usize,
    pub marks: Marks,
}

impl LengthSpan {
    /// Creates the span of all lengths from `low` on and below `end`.
    pub fn new(low: usize, end: usize) -> LengthSpan
        ensures { result ≡ record { low = low; end = end; marks = Marks.All } }
    {
        LengthSpan {
            low,
            end,
            marks: Marks::All,
        }
    }
}

/// Returns whether the part of `n` characters from `at` on ends with a `/` or is empty.
fn is_after_slash(text: &Text<'_>, at: usize, n: usize) -> bool
    requires { at + n ≤ length text.now }
    ensures { IsTrue result ↔ IsMarked Marks.AfterSlash (drop at text.now) n }
{
    if n == 0 {
        return true;
    }
    text.char_after(at, n - 1) == '/'
}

/// Returns whether the flag of the length is set.
fn is_flagged(flags: &[bool], n: usize) -> bool
    ensures { IsTrue result ↔ HoldsPlace flags.now n }
{
    if n >= flags.len() {
        return false;
    }
    flags[n]
}

/// Returns whether the length `n` counts for the part from `at` on.
fn is_marked(text: &Text<'_>, at: usize, n: usize, marks: &Marks, visits: &mut Visits) -> bool
    requires { at + n ≤ length text.now }
    ensures marked { IsTrue result ↔ IsMarked marks.now (drop at text.now) n }
    ensures looked { visits.new ≤ visits.old + looks_of marks.now 1 }
    ensures steady { visits.old ≤ visits.new }
{
    match marks {
        Marks::All => true,
        Marks::AfterSlash => {
            visits.add(1);
            is_after_slash(text, at, n)
        }
        Marks::Flags(flags) => is_flagged(flags.as_slice(), n),
    }
}

/// Takes the greatest length out of the span. Smaller ones stay in it.
fn pick_longest(
    text: &Text<'_>,
    at: usize,
    span: &mut LengthSpan,
    visits: &mut Visits,
) -> Option<usize>
    requires { at + span.old.end ≤ length text.now + 1 }
    ensures picked { MatchOption result ((m : ℕ) → InSpan span.old (drop at text.now) m → ⊥)
        (IsPicked span.old span.new (drop at text.now) false) }
    ensures narrowed { IsNarrowed span.old span.new (drop at text.now) }
    ensures less { IfSome result (λ _. span.new.end - span.new.low < span.old.end - span.old.low) }
    ensures end { span.new.end ≤ span.old.end }
    ensures looked { visits.new + looks span.new ≤ visits.old + looks span.old }
    ensures steady { visits.old ≤ visits.new }
{
    while span.low < span.end {
        span.end -= 1;
        if is_marked(text, at, span.end, &span.marks, visits) {
            return Some(span.end);
        }
    }
    None
}

/// Takes the least length out of the span. Greater ones stay in it.
fn pick_shortest(
    text: &Text<'_>,
    at: usize,
    span: &mut LengthSpan,
    visits: &mut Visits,
) -> Option<usize>
    requires { at + span.old.end ≤ length text.now + 1 }
    ensures picked { MatchOption result ((m : ℕ) → InSpan span.old (drop at text.now) m → ⊥)
        (IsPicked span.old span.new (drop at text.now) true) }
    ensures narrowed { IsNarrowed span.old span.new (drop at text.now) }
    ensures less { IfSome result (λ _. span.new.end - span.new.low < span.old.end - span.old.low) }
    ensures end { span.new.end ≤ span.old.end }
    ensures looked { visits.new + looks span.new ≤ visits.old + looks span.old }
    ensures steady { visits.old ≤ visits.new }
{
    while span.low < span.end {
        let n = span.low;
        span.low += 1;
        if is_marked(text, at, n, &span.marks, visits) {
            return Some(n);
        }
    }
    None
}

/// Takes the best length out of the span: the least one if `is_lazy`, and otherwise the greatest.
/// Returns `None` if no length is left.
pub fn pick(
    text: &Text<'_>,
    at: usize,
    span: &mut LengthSpan,
    is_lazy: bool,
    visits: &mut Visits,
) -> Option<usize>
    requires { at + span.old.end ≤ length text.now + 1 }
    ensures picked { MatchOption result ((m : ℕ) → InSpan span.old (drop at text.now) m → ⊥)
        (IsPicked span.old span.new (drop at text.now) is_lazy) }
    ensures narrowed { IsNarrowed span.old span.new (drop at text.now) }
    ensures less { IfSome result (λ _. span.new.end - span.new.low < span.old.end - span.old.low) }
    ensures end { span.new.end ≤ span.old.end }
    ensures looked { visits.new + looks span.new ≤ visits.old + looks span.old }
    ensures steady { visits.old ≤ visits.new }
{
    if is_lazy {
        pick_shortest(text, at, span, visits)
    } else {
        pick_longest(text, at, span, visits)
    }
}
