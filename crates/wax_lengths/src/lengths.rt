//! The lengths of the parts of a text that a form takes from a place on.
ghost use Rattle.std.specs.Prelude.{◌≡◌, ◌⊎◌, ◌||◌, ◌+◌, ◌*◌, ◌^◌, ◌<◌, ◌≤◌, ◌↔◌, ◌∷◌, [], ℕ, List, IfOk};
ghost use Rattle.std.specs.Prelude.{IsFalse, IsTrue, false, length, take, drop};
ghost use Rattle.wax_program.specs.Machine.{Accepts, PassesTest};
ghost use Rattle.wax_query.specs.{Components.BeginsWithSlash, Ranges.AtMost};
ghost use Rattle.wax_token.specs.Meaning.{HasNoSlash, TreeMeans};
ghost use Rattle.wax_lengths.specs.Forms.{EachPasses, IsLetter, IsRunOf, SpelledBy, TakenBy, form_size};
ghost use Rattle.wax_lengths.specs.{Forms.program_size, inner.Finding.FindsLengths};
ghost use Rattle.wax_lengths.specs.inner.Names.{tree_end, tree_low, tree_marks, name_len};
ghost use Rattle.wax_lengths.specs.Spans.{HasLengths, looks};

use crate::form::Form;
use crate::span::{LengthSpan, Marks};
use crate::text::Text;
use crate::visits::Visits;
use std::alloc::{AllocError, Global};
use wax_program::CompiledProgram;
use wax_program::instruction::{Test, folds_to};
use wax_token::token::Sides;

/// Returns the lengths for one character that passes the test.
fn lengths_of_char(test: &Test, text: &Text<'_>, at: usize, visits: &mut Visits) -> LengthSpan
    requires { at ≤ length text.now }
    ensures { FindsLengths (λ x. (c : ℕ) × (x ≡ c ∷ []) × PassesTest test.now c) (drop at text.now) result
        (length text.now + 1) visits.old visits.new }
{
    if at == text.len() {
        return LengthSpan::new(0, 0);
    }
    visits.add(1);
    if test.passes(text.char_at(at)) {
        LengthSpan::new(1, 2)
    } else {
        LengthSpan::new(0, 0)
    }
}

/// Returns whether the character is the letter; if the flag is set, whether the letter is its
/// folding.
fn is_letter(is_folded: bool, letter: char, c: char) -> bool
    ensures { IsTrue result ↔ IsLetter is_folded letter c }
{
    if is_folded {
        folds_to(c, letter)
    } else {
        c == letter
    }
}

/// Returns how many of the letters the text has at the place, one after another.
fn spelled_len(letters: &[char], is_folded: bool, text: &Text<'_>, at: usize) -> usize
    requires { at + length letters.now ≤ length text.now }
    ensures within { result ≤ length letters.now }
    ensures all { result ≡ length letters.now
        → SpelledBy is_folded letters.now (take (length letters.now) (drop at text.now)) }
    ensures fewer { result < length letters.now
        → (n : ℕ) → SpelledBy is_folded letters.now (take n (drop at text.now)) → ⊥ }
{
    for index in 0..letters.len() {
        if !is_letter(is_folded, letters[index], text.char_after(at, index)) {
            return index;
        }
    }
    letters.len()
}

/// Returns whether the text may have the letters at the place: whether it has the first of them.
#[inline]
fn may_begin(letters: &[char], is_folded: bool, text: &Text<'_>, at: usize) -> bool
    requires { at ≤ length text.now }
    ensures { IsFalse result
        → (n : ℕ) → SpelledBy is_folded letters.now (take n (drop at text.now)) → ⊥ }
{
    match letters.first() {
        Some(letter) => at < text.len() && is_letter(is_folded, *letter, text.char_at(at)),
        None => true,
    }
}

/// Returns whether a text from `at` on may begin with a character that passes the test.
#[inline]
fn may_pass(test: &Test, text: &Text<'_>, at: usize) -> bool
    requires { at ≤ length text.now }
    ensures { IsFalse result → (n c : ℕ) (x : List ℕ)
        → take n (drop at text.now) ≡ c ∷ x → PassesTest test.now c → ⊥ }
{
    at < text.len() && test.passes(text.char_at(at))
}

/// Returns whether the form may take a part of the text from `at` on. Looks at one character at
/// most, and takes much less time than [`lengths_of`].
#[inline]
pub fn may_take(form: &Form, text: &Text<'_>, at: usize) -> bool
    requires { at ≤ length text.now }
    ensures { IsFalse result → (n : ℕ) → TakenBy form.now (take n (drop at text.now)) → ⊥ }
{
    match form {
        Form::One(test) => may_pass(test, text, at),
        Form::Text(letters, is_folded) => may_begin(letters.as_slice(), *is_folded, text, at),
        Form::Tree { sides, has_root } => {
            tree_low(*sides, *has_root) == 0 || begins_with_slash(text, at)
        }
        Form::Run { test, low, .. } => *low == 0 || may_pass(test, text, at),
        _ => true,
    }
}

/// Returns whether the text has the letters at the place.
fn has_letters(letters: &[char], is_folded: bool, text: &Text<'_>, at: usize) -> bool
    requires { at ≤ length text.now }
    ensures { IsFalse result
        → (n : ℕ) → SpelledBy is_folded letters.now (take n (drop at text.now)) → ⊥ }
{
    if letters.len() > text.len() - at {
        return false;
    }
    spelled_len(letters, is_folded, text, at) == letters.len()
}

/// Returns whether the form may take a part of the text from `at` on. Looks at each letter of a form
/// that takes these letters only.
pub fn may_spell(form: &Form, text: &Text<'_>, at: usize) -> bool
    requires { at ≤ length text.now }
    ensures { IsFalse result → (n : ℕ) → TakenBy form.now (take n (drop at text.now)) → ⊥ }
{
    match form {
        Form::Text(letters, is_folded) => has_letters(letters.as_slice(), *is_folded, text, at),
        _ => true,
    }
}

/// Returns the lengths for the letters: only theirs, if the text has them at the place.
fn lengths_of_text(
    letters: &[char],
    is_folded: bool,
    text: &Text<'_>,
    at: usize,
    visits: &mut Visits,
) -> LengthSpan
    requires { at ≤ length text.now }
    ensures { FindsLengths (SpelledBy is_folded letters.now) (drop at text.now) result
        (length letters.now * (length text.now + 1)) visits.old visits.new }
{
    let len = letters.len();
    if len > text.len() - at {
        return LengthSpan::new(0, 0);
    }
    let spelled = spelled_len(letters, is_folded, text, at);
    visits.add(len.min(spelled + 1));
    if spelled < len {
        return LengthSpan::new(0, 0);
    }
    LengthSpan::new(len, len + 1)
}

/// Returns the number of characters from the place to the next `/`, or to the text's end.
fn name_len(text: &Text<'_>, at: usize) -> usize
    requires { at ≤ length text.now }
    ensures is { result ≡ name_len (drop at text.now) }
    ensures within { at + result ≤ length text.now }
    ensures fits { result < 2 ^ 63 }
{
    let mut end = at;
    while end < text.len() && text.char_at(end) != '/' {
        end += 1;
    }
    end - at
}

/// Returns the lengths for zero or more characters other than `/`.
fn lengths_of_name(text: &Text<'_>, at: usize, visits: &mut Visits) -> LengthSpan
    requires { at ≤ length text.now }
    ensures { FindsLengths HasNoSlash (drop at text.now) result
        (length text.now + 1) visits.old visits.new }
{
    let end = name_len(text, at) + 1;
    visits.add(end);
    LengthSpan::new(0, end)
}

fn begins_with_slash(text: &Text<'_>, at: usize) -> bool
    requires { at ≤ length text.now }
    ensures { IsTrue result ↔ BeginsWithSlash (drop at text.now) }
{
    at < text.len() && text.char_at(at) == '/'
}

/// Returns the lengths for the empty text or `/`.
fn lengths_of_slash_or_nothing(text: &Text<'_>, at: usize, visits: &mut Visits) -> LengthSpan
    requires { at ≤ length text.now }
    ensures { FindsLengths (λ x. (x ≡ []) ⊎ (x ≡ 47 ∷ [])) (drop at text.now) result
        (length text.now + 1) visits.old visits.new }
{
    visits.add(1);
    if begins_with_slash(text, at) {
        LengthSpan::new(0, 2)
    } else {
        LengthSpan::new(0, 1)
    }
}

/// Returns the least length of what a `**` matches.
fn tree_low(sides: Sides, has_root: bool) -> usize
    ensures { result ≡ tree_low sides.before sides.after has_root }
{
    if sides.before {
        sides.after as usize
    } else {
        has_root as usize
    }
}

/// Returns the end of the span, one more than its greatest length `rest`. If a `/` has to come
/// first and doesn't, only the length 0 is left.
fn tree_end(is_bound: bool, begins: bool, rest: usize) -> usize
    requires { rest + 1 < 18446744073709551616 }
    ensures { result ≡ tree_end is_bound begins rest }
{
    if is_bound && !begins { 1 } else { rest + 1 }
}

/// Returns which lengths count: if something is after the `**`, only 0 and those that end with a
/// `/`.
fn tree_marks(after: bool) -> Marks
    ensures { result ≡ tree_marks after }
{
    if after { Marks::AfterSlash } else { Marks::All }
}

/// Returns whether what a `**` matches has to begin with a `/`.
fn is_bound(sides: Sides, has_root: bool) -> bool
    ensures { result ≡ (sides.before || has_root) }
{
    sides.before || has_root
}

/// Returns the lengths for a `**`.
fn lengths_of_tree(
    sides: Sides,
    has_root: bool,
    text: &Text<'_>,
    at: usize,
    visits: &mut Visits,
) -> LengthSpan
    requires { at ≤ length text.now }
    ensures { FindsLengths (TreeMeans sides.before sides.after has_root) (drop at text.now) result
        (2 * (length text.now + 1)) visits.old visits.new }
{
    visits.add(1);
    let begins = begins_with_slash(text, at);
    LengthSpan {
        low: tree_low(sides, has_root),
        end: tree_end(is_bound(sides, has_root), begins, text.len() - at),
        marks: tree_marks(sides.after),
    }
}

/// Returns the greatest length that is allowed, of at most `rest` characters.
fn run_most(high: Option<usize>, rest: usize) -> usize
    ensures within { result ≤ rest }
    ensures most { (n : ℕ) → n ≤ rest → AtMost n high ↔ (n ≤ result) }
{
    match high {
        Some(high) => high.min(rest),
        None => rest,
    }
}

/// Returns how many characters from the place on pass the test, one after another; at most `most`.
fn run_len(test: &Test, text: &Text<'_>, at: usize, most: usize) -> usize
    requires { at + most ≤ length text.now }
    ensures within { result ≤ most }
    ensures passes { EachPasses test.now (take result (drop at text.now)) }
    ensures longest { (n : ℕ) → n ≤ most → EachPasses test.now (take n (drop at text.now)) → n ≤ result }
{
    let mut n = 0;
    while n < most && test.passes(text.char_after(at, n)) {
        n += 1;
    }
    n
}

/// Returns the lengths for so many characters that pass the test.
fn lengths_of_run(
    test: &Test,
    low: usize,
    high: Option<usize>,
    text: &Text<'_>,
    at: usize,
    visits: &mut Visits,
) -> LengthSpan
    requires { at ≤ length text.now }
    ensures { FindsLengths (IsRunOf test.now low high) (drop at text.now) result
        (length text.now + 1) visits.old visits.new }
{
    let most = run_most(high, text.len() - at);
    let end = run_len(test, text, at, most) + 1;
    visits.add(end);
    LengthSpan::new(low, end)
}

/// Returns the lengths for a program, by one pass over the rest of the text.
fn lengths_of_program(
    alloc: Global,
    program: &CompiledProgram,
    text: &Text<'_>,
    at: usize,
    visits: &mut Visits,
) -> Result<LengthSpan, AllocError>
    requires { at ≤ length text.now }
    ensures found { IfOk result (λ span. FindsLengths (Accepts program.now.0 0) (drop at text.now) span
        (program_size program.now * (length text.now + 1)) visits.old visits.new) }
    ensures above { visits.new ≤ visits.old + program_size program.now * (length text.now + 1) }
    ensures steady { visits.old ≤ visits.new }
{
    let mut flags = Vec::with_capacity(alloc, text.len() - at + 1)?;
    visits.run_ends(alloc, program, text, at, &mut flags)?;
    Ok(LengthSpan {
        low: 0,
        end: flags.len(),
        marks: Marks::Flags(flags),
    })
}

/// Returns the lengths, in characters, of the parts from `at` on that the form takes. Only a
/// program allocates.
#[tactic(auto, using(crate::proofs::Lists::end_within))]
pub fn lengths_of(
    alloc: Global,
    form: &Form,
    text: &Text<'_>,
    at: usize,
    visits: &mut Visits,
) -> Result<LengthSpan, AllocError>
    requires { at ≤ length text.now }
    ensures lengths { IfOk result (HasLengths form.now (drop at text.now)) }
    ensures end { IfOk result (λ span. at + span.end ≤ length text.now + 1) }
    ensures looked { IfOk result (λ span.
        visits.new + looks span ≤ visits.old + form_size form.now * (length text.now + 1)) }
    ensures above { visits.new ≤ visits.old + form_size form.now * (length text.now + 1) }
    ensures steady { visits.old ≤ visits.new }
{
    match form {
        Form::One(test) => Ok(lengths_of_char(test, text, at, visits)),
        Form::Text(letters, is_folded) => {
            Ok(lengths_of_text(letters.as_slice(), *is_folded, text, at, visits))
        }
        Form::Name => Ok(lengths_of_name(text, at, visits)),
        Form::SlashOrNothing => Ok(lengths_of_slash_or_nothing(text, at, visits)),
        Form::Tree { sides, has_root } => {
            Ok(lengths_of_tree(*sides, *has_root, text, at, visits))
        }
        Form::Run { test, low, high } => Ok(lengths_of_run(test, *low, *high, text, at, visits)),
        Form::Coded(program) => lengths_of_program(alloc, program, text, at, visits),
    }
}
