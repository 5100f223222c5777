//! Reading flag groups, and `**`, inside of which flag groups may be written.
ghost use Rattle.std.specs.Prelude.{◌≡◌, MatchOption, Some, None, chars};
ghost use Rattle.wax_parse.specs.inner.Parser.{place, around_of, toggle_step, group_end, group_step};
ghost use Rattle.wax_parse.specs.inner.Parser.{flags_end, after_stars, after_tree};

use crate::parse::surroundings::Around;
use crate::parse::text::strip;

/// The part of the expression that is still to be read, and whether literals in it ignore case
/// until the next toggle.
#[derive(Clone, Copy)]
pub(super) struct Cursor<'t> {
    pub(super) is_case_insensitive: bool,
    pub(super) rest: &'t str,
}

/// Reads `i` or `-i`. Returns whether it sets the flag, and the text after it.
fn read_toggle(text: &str) -> Option<(bool, &str)>
    ensures { MatchOption result (toggle_step (chars text.now) ≡ None)
        (λ r. toggle_step (chars text.now) ≡ Some (r.0, chars r.1.now)) }
{
    if let Some(rest) = strip(text, 'i') {
        return Some((true, rest));
    }
    let rest = strip(text, '-')?;
    let rest = strip(rest, 'i')?;
    Some((false, rest))
}

/// Reads toggles up to the closing parenthesis, and this parenthesis. The last toggle counts; if
/// there is none, the flag is `is_case_insensitive`.
fn read_toggles(is_case_insensitive: bool, text: &str) -> Option<Cursor<'_>>
    ensures { MatchOption result (group_end is_case_insensitive (chars text.now) ≡ None)
        (λ q. group_end is_case_insensitive (chars text.now) ≡ Some (place q)) }
{
    let mut is_on = is_case_insensitive;
    let mut rest = text;
    loop {
        if let Some(after) = strip(rest, ')') {
            return Some(Cursor {
                is_case_insensitive: is_on,
                rest: after,
            });
        }
        let (toggle, next) = read_toggle(rest)?;
        is_on = toggle;
        rest = next;
    }
}

/// Reads one flag group, such as `(?i)`.
fn read_group(text: &str) -> Option<Cursor<'_>>
    ensures { MatchOption result (group_step (chars text.now) ≡ None)
        (λ q. group_step (chars text.now) ≡ Some (place q)) }
{
    let rest = strip(text, '(')?;
    let rest = strip(rest, '?')?;
    let (toggle, rest) = read_toggle(rest)?;
    read_toggles(toggle, rest)
}

/// Skips zero or more flag groups, and sets the flag as they do.
pub(super) fn read_flags(from: Cursor<'_>) -> Cursor<'_>
    ensures { flags_end (place from.entry) ≡ place result }
{
    let mut cursor = from;
    while let Some(next) = read_group(cursor.rest) {
        cursor = next;
    }
    cursor
}

/// Reads what closes a `**`: the end of the glob, or flag groups and a `/`.
fn after_stars(around: Around, from: Cursor<'_>) -> Option<Cursor<'_>>
    ensures { MatchOption result
        (after_stars (around_of around) from.entry.is_case_insensitive (chars from.entry.rest.now) ≡ None)
        (λ q. after_stars (around_of around) from.entry.is_case_insensitive (chars from.entry.rest.now)
        ≡ Some (place q)) }
{
    if around.is_end(from.rest) {
        return Some(from);
    }
    let cursor = read_flags(from);
    let rest = strip(cursor.rest, '/')?;
    Some(Cursor { rest, ..cursor })
}

/// Reads `**` and what closes it.
pub(super) fn after_tree(around: Around, from: Cursor<'_>) -> Option<Cursor<'_>>
    ensures { MatchOption result (after_tree (around_of around) (place from.entry) ≡ None)
        (λ q. after_tree (around_of around) (place from.entry) ≡ Some (place q)) }
{
    let rest = strip(from.rest, '*')?;
    let rest = strip(rest, '*')?;
    after_stars(around, Cursor { rest, ..from })
}
