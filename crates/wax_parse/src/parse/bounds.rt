//! Reading the bounds of repetitions. Each function returns what it read and the text after it, or
//! `None` if the text doesn't begin like that.
ghost use Rattle.std.specs.Prelude.{◌≡◌, ◌+◌, ◌*◌, ◌-◌, ◌<◌, ◌^◌, MatchOption, Some, None, chars};
ghost use Rattle.wax_parse.specs.inner.Parser.{digit_step, next_number, number_run, read_bounds};
ghost use Rattle.wax_parse.specs.inner.Parser.{read_numbers, read_upper};

use crate::parse::text::{split_first, strip};

/// Reads a decimal digit.
fn read_digit(text: &str) -> Option<(usize, &str)>
    ensures { MatchOption result (digit_step (chars text.now) ≡ None)
        (λ r. digit_step (chars text.now) ≡ Some (r.0, chars r.1.now)) }
{
    let (c, rest) = split_first(text)?;
    if c.is_ascii_digit() {
        Some((c as usize - '0' as usize, rest))
    } else {
        None
    }
}

/// Appends a decimal digit to a number. Returns `None` if the result exceeds 64 bits.
fn push_digit(number: usize, digit: usize) -> Option<usize>
    ensures { MatchOption result (next_number number digit ≡ None) (λ n. next_number number digit ≡ Some n) }
{
    number.checked_mul(10)?.checked_add(digit)
}

/// Reads a decimal number of at most 64 bits. A longer one is an error.
fn read_number(text: &str) -> Option<(usize, &str)>
    ensures { MatchOption result (number_run (chars text.now) ≡ None)
        (λ r. number_run (chars text.now) ≡ Some (r.0, chars r.1.now)) }
{
    let (first, after) = read_digit(text)?;
    let mut number = first;
    let mut rest = after;
    while let Some((digit, next)) = read_digit(rest) {
        number = push_digit(number, digit)?;
        rest = next;
    }
    Some((number, rest))
}

/// Reads the bounds of a repetition, if it has any, and its closing bracket.
pub(super) fn read_bounds(text: &str) -> Option<((usize, Option<usize>), &str)>
    ensures { MatchOption result (read_bounds (chars text.now) ≡ None)
        (λ r. read_bounds (chars text.now) ≡ Some (r.0, chars r.1.now)) }
{
    match strip(text, ':') {
        None => Some(((0, None), strip(text, '>')?)),
        Some(rest) => match strip(rest, '>') {
            Some(rest) => Some(((1, None), rest)),
            None => read_numbers(rest),
        },
    }
}

/// Reads `n>`, `n,>` or `n,m>`.
fn read_numbers(text: &str) -> Option<((usize, Option<usize>), &str)>
    ensures { MatchOption result (read_numbers (chars text.now) ≡ None)
        (λ r. read_numbers (chars text.now) ≡ Some (r.0, chars r.1.now)) }
{
    let (lower, rest) = read_number(text)?;
    match strip(rest, ',') {
        None => Some(((lower, Some(lower)), strip(rest, '>')?)),
        Some(rest) => {
            let (upper, rest) = read_upper(rest)?;
            Some(((lower, upper), rest))
        }
    }
}

/// Reads `>` or `m>`.
fn read_upper(text: &str) -> Option<(Option<usize>, &str)>
    ensures { MatchOption result (read_upper (chars text.now) ≡ None)
        (λ r. read_upper (chars text.now) ≡ Some (r.0, chars r.1.now)) }
{
    match strip(text, '>') {
        Some(rest) => Some((None, rest)),
        None => {
            let (upper, rest) = read_number(text)?;
            Some((Some(upper), strip(rest, '>')?))
        }
    }
}
