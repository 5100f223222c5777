//! Reading literals.
ghost use Rattle.std.specs.Prelude.{◌≡◌, ◌++◌, List, ℕ, IfOk, MatchOption, Some, None, chars, string_bytes};
ghost use Rattle.std.specs.{Prelude.true, Cow.cow_str_bytes};
ghost use Rattle.wax_token.specs.View.{leaf_of};
ghost use Rattle.wax_parse.specs.inner.Parser.{literal_run, literal_leaf, is_plain_text, StopsPlain};

use crate::parse::text::{before, is_plain, literal_character, split_first, strip};
use std::alloc::{AllocError, Global};
use std::borrow::CowStr;
use wax_token::token::{LeafKind, Literal};

/// Splits the text before the first character that isn't plain.
fn split_plain(text: &str) -> (&str, &str)
    ensures whole { chars text.now ≡ chars result.0.now ++ chars result.1.now }
    ensures plain { is_plain_text (chars result.0.now) ≡ true }
    ensures stop { StopsPlain (chars result.1.now) }
{
    let mut rest = text;
    while let Some((c, next)) = split_first(rest) {
        if !is_plain(c) {
            break;
        }
        rest = next;
    }
    (before(text, rest), rest)
}

/// Appends the characters of a literal at the beginning of `text`, without their escapes. Returns
/// the text after them.
fn push_run<'t>(literal: &mut String, text: &'t str) -> Result<&'t str, AllocError>
    ensures { IfOk result (λ rest. (chars (string_bytes literal.new)
        ≡ chars (string_bytes literal.old) ++ (literal_run (chars text.now)).0)
        × (chars rest.now ≡ (literal_run (chars text.now)).1)) }
{
    let mut rest = text;
    while let Some((c, next)) = literal_character(rest) {
        literal.push(c)?;
        rest = next;
    }
    Ok(rest)
}

/// Reads the longest run of a literal's characters, and removes the escapes. Without an escape, the
/// text is borrowed from the expression.
fn literal_text<'t>(alloc: Global, text: &'t str) -> Result<(CowStr<'t>, &'t str), AllocError>
    ensures { IfOk result (λ r. literal_run (chars text.now) ≡ (chars (cow_str_bytes r.0), chars r.1.now)) }
{
    let (plain, rest) = split_plain(text);
    if strip(rest, '\\').is_none() {
        return Ok((CowStr::Borrowed(plain), rest));
    }
    let mut unescaped = String::from_str(alloc, plain)?;
    let rest = push_run(&mut unescaped, rest)?;
    Ok((CowStr::Owned(unescaped), rest))
}

/// Reads a literal and returns the text after it. Returns `None` for an empty one, and if a
/// backslash follows that escapes no meta character.
pub(super) fn read_literal<'t>(
    alloc: Global,
    is_case_insensitive: bool,
    text: &'t str,
) -> Result<Option<(LeafKind<'t>, &'t str)>, AllocError>
    ensures { IfOk result (λ r. MatchOption r
        (literal_leaf is_case_insensitive (literal_run (chars text.now)) ≡ None)
        (λ l. literal_leaf is_case_insensitive (literal_run (chars text.now))
        ≡ Some (leaf_of l.0, chars l.1.now))) }
{
    let (literal, rest) = literal_text(alloc, text)?;
    if literal.as_str().is_empty() {
        return Ok(None);
    }
    match strip(rest, '\\') {
        Some(_) => Ok(None),
        None => Ok(Some((
            LeafKind::Literal(Literal::new(literal, is_case_insensitive)),
            rest,
        ))),
    }
}
