//! Reading the beginning of a text. Each function returns what it read and the text after it, or
//! `None` if the text doesn't begin like that.
ghost use Rattle.std.specs.Prelude.{◌≡◌, ◌∷◌, ◌++◌, [], List, ℕ, chars, MatchOption, Some, None, not};
ghost use Rattle.wax_token.specs.Reads.{is_one_of, escapable, class_escapable};
ghost use Rattle.wax_parse.specs.inner.Parser.{strip, literal_step, class_step, is_plain_character};

/// Reads any character.
pub(super) fn split_first(text: &str) -> Option<(char, &str)>
    ensures { MatchOption result (chars text.now ≡ []) (λ r. chars text.now ≡ r.0 ∷ chars r.1.now) }
{
    let mut characters = text.chars();
    let first = characters.next()?;
    Some((first, characters.as_str()))
}

/// Returns the text after its first character, if that is `first`.
pub(super) fn strip(text: &str, first: char) -> Option<&str>
    ensures { MatchOption result (strip first (chars text.now) ≡ None)
        (λ r. strip first (chars text.now) ≡ Some (chars r.now)) }
{
    let (c, rest) = split_first(text)?;
    if first == c { Some(rest) } else { None }
}

/// Returns `text` without its suffix `rest`.
pub(super) fn before<'t>(text: &'t str, rest: &str) -> &'t str
    requires { (x : List ℕ) × (chars text.now ≡ x ++ chars rest.now) }
    ensures { (x : List ℕ) → chars text.now ≡ x ++ chars rest.now → chars result.now ≡ x }
{
    &text[..text.len() - rest.len()]
}

/// Returns whether the character has to be escaped in a literal.
fn is_meta_character(c: char) -> bool
    ensures { result ≡ is_one_of escapable c }
{
    matches!(
        c,
        '?' | '*' | '$' | ':' | '<' | '>' | '(' | ')' | '[' | ']' | '{' | '}' | ','
    )
}

/// Returns whether a literal may contain the character as it is.
pub(super) fn is_plain(c: char) -> bool
    ensures { result ≡ is_plain_character c }
{
    c != '\\' && c != '/' && !is_meta_character(c)
}

/// Returns whether the character has to be escaped in a class.
fn is_class_meta_character(c: char) -> bool
    ensures { result ≡ is_one_of class_escapable c }
{
    matches!(c, '[' | ']' | '-')
}

/// Reads one character of a literal, with its backslash if it is escaped.
pub(super) fn literal_character(text: &str) -> Option<(char, &str)>
    ensures { MatchOption result (literal_step (chars text.now) ≡ None)
        (λ r. literal_step (chars text.now) ≡ Some (r.0, chars r.1.now)) }
{
    let (c, rest) = split_first(text)?;
    if c == '\\' {
        let (escaped, rest) = split_first(rest)?;
        if is_meta_character(escaped) {
            Some((escaped, rest))
        } else {
            None
        }
    } else if c == '/' || is_meta_character(c) {
        None
    } else {
        Some((c, rest))
    }
}

/// Reads one character of a class, with its backslash if it is escaped.
pub(super) fn class_character(text: &str) -> Option<(char, &str)>
    ensures { MatchOption result (class_step (chars text.now) ≡ None)
        (λ r. class_step (chars text.now) ≡ Some (r.0, chars r.1.now)) }
{
    let (c, rest) = split_first(text)?;
    if c == '\\' {
        let (escaped, rest) = split_first(rest)?;
        if is_class_meta_character(escaped) {
            Some((escaped, rest))
        } else {
            None
        }
    } else if is_class_meta_character(c) {
        None
    } else {
        Some((c, rest))
    }
}
