//! Meta characters, and escaping them.
ghost use Rattle.std.specs.Prelude.{◌≡◌, ◌++◌, ◌↔◌, ℕ, IfOk, IsOkAnd, List, OnOk, false, chars, codes};
ghost use Rattle.std.specs.{Prelude.{encode_utf8_all, string_bytes}, Cow.{IsBorrowedStr, cow_str_bytes}};
ghost use Rattle.std.specs.List.{list_any};
ghost use Rattle.wax_token.specs.Meaning.{Means};
ghost use Rattle.wax_token.specs.Reads.{Reads, Span, all_spelled, escapable, is_one_of, spelled};
ghost use Rattle.wax_token.specs.Syntax.{Tree};
ghost use Rattle.wax_parse.specs.Backslash.{HasNoBackslash};

use std::alloc::{AllocError, Global};
use std::borrow::CowStr;
use wax_query::diagnostics::NoMemory;

/// Returns whether a literal needs a backslash before the character.
///
/// The meta characters are `? * $ : < > ( ) [ ] { } ,`.
pub fn is_meta_character(character: char) -> bool
    ensures { result ≡ is_one_of escapable character }
{
    matches!(
        character,
        '?' | '*' | '$' | ':' | '<' | '>' | '(' | ')' | '[' | ']' | '{' | '}' | ','
    )
}

/// Returns whether the character is an ordinary one in a literal, but a special one inside a class
/// and a flag group. Only `-` is.
pub fn is_contextual_meta_character(character: char) -> bool
    ensures { result ≡ is_one_of (codes "-") character }
{
    character == '-'
}

/// Escapes a text: puts a backslash before each meta character. The outcome is an expression that
/// matches only this text: `a*b` becomes `a\*b`.
///
/// A backslash can't be escaped, so the outcome for a text with one is no expression. A text
/// without meta characters is returned as it is, borrowed. Any other is copied, in two passes.
///
/// # Errors
///
/// Returns `NoMemory` if allocation fails, which it can't for a text without meta characters.
pub fn escape<'t>(alloc: Global, text: &'t str) -> Result<CowStr<'t>, NoMemory>
    ensures exact { IfOk result (λ e. chars (cow_str_bytes e) ≡ all_spelled escapable (chars text.now)) }
    ensures means { IfOk result (λ e. (t : Tree Span) → Reads (chars (cow_str_bytes e)) t
        → (s : List ℕ) → Means t false false s ↔ (s ≡ chars text.now)) }
    ensures spells { IfOk result (λ e. ((t : Tree Span) × Reads (chars (cow_str_bytes e)) t)
        ↔ HasNoBackslash (chars text.now)) }
    ensures borrowed { list_any (is_one_of escapable) (chars text.now) ≡ false
        → IsOkAnd result IsBorrowedStr }
{
    if !has_meta_character(text) {
        return Ok(CowStr::Borrowed(text));
    }
    let escaped = with_backslashes(alloc, text)?;
    Ok(CowStr::Owned(escaped))
}

fn has_meta_character(text: &str) -> bool
    ensures { result ≡ list_any (is_one_of escapable) (chars text.now) }
{
    for character in text.chars() {
        if is_meta_character(character) {
            return true;
        }
    }
    false
}

fn with_backslashes(alloc: Global, text: &str) -> Result<String, AllocError>
    ensures { IfOk result (λ e. chars (string_bytes e) ≡ all_spelled escapable (chars text.now)) }
{
    let mut escaped = String::new(alloc);
    for character in text.chars() {
        push_escaped(&mut escaped, character)?;
    }
    Ok(escaped)
}

fn push_escaped(escaped: &mut String, character: char) -> Result<(), AllocError>
    ensures { OnOk result (string_bytes escaped.new
        ≡ string_bytes escaped.old ++ encode_utf8_all (spelled escapable character)) }
{
    if is_meta_character(character) {
        escaped.push('\\')?;
    }
    escaped.push(character)
}
