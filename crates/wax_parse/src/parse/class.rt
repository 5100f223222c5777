//! Reading classes. Each function returns what it read and the text after it, or `None` if the text
//! doesn't begin like that.
ghost use Rattle.std.specs.Prelude.{◌≡◌, IfOk, MatchOption, Some, None, chars, length};
ghost use Rattle.wax_token.specs.View.{leaf_of};
ghost use Rattle.wax_parse.specs.inner.Parser.{archetype_step, class_run, class_leaf, read_class};

use crate::parse::text::{class_character, strip};
use std::alloc::{AllocError, Global};
use wax_token::token::{Archetype, Class, LeafKind};

/// Reads a character or a range, such as `a-z`.
fn read_archetype(text: &str) -> Option<(Archetype, &str)>
    ensures { MatchOption result (archetype_step (chars text.now) ≡ None)
        (λ r. archetype_step (chars text.now) ≡ Some (r.0, chars r.1.now)) }
{
    let (first, rest) = class_character(text)?;
    match strip(rest, '-') {
        None => Some((Archetype::Character(first), rest)),
        Some(after) => {
            let (last, rest) = class_character(after)?;
            Some((Archetype::Range(first, last), rest))
        }
    }
}

/// Reads archetypes up to the closing bracket, and this bracket.
fn read_archetypes(alloc: Global, text: &str) -> Result<Option<(Vec<Archetype>, &str)>, AllocError>
    ensures { IfOk result (λ r. MatchOption r (class_run (length (chars text.now)) (chars text.now) ≡ None)
        (λ a. class_run (length (chars text.now)) (chars text.now) ≡ Some (a.0.items, chars a.1.now))) }
{
    let mut archetypes = Vec::new(alloc);
    let mut rest = text;
    loop {
        if let Some(after) = strip(rest, ']') {
            return Ok(Some((archetypes, after)));
        }
        let Some((archetype, next)) = read_archetype(rest) else {
            return Ok(None);
        };
        archetypes.push(archetype)?;
        rest = next;
    }
}

/// Reads the class after its `[` or `[!`. An empty one is an error.
fn class_of<'t>(
    alloc: Global,
    is_negated: bool,
    text: &'t str,
) -> Result<Option<(LeafKind<'static>, &'t str)>, AllocError>
    ensures { IfOk result (λ r. MatchOption r
        (class_leaf is_negated (class_run (length (chars text.now)) (chars text.now)) ≡ None)
        (λ l. class_leaf is_negated (class_run (length (chars text.now)) (chars text.now))
        ≡ Some (leaf_of l.0, chars l.1.now))) }
{
    match read_archetypes(alloc, text)? {
        None => Ok(None),
        Some((archetypes, rest)) => {
            if archetypes.is_empty() {
                return Ok(None);
            }
            Ok(Some((LeafKind::Class(Class::new(is_negated, archetypes)), rest)))
        }
    }
}

/// Reads a class after its opening bracket.
pub(super) fn read_class<'t>(
    alloc: Global,
    text: &'t str,
) -> Result<Option<(LeafKind<'static>, &'t str)>, AllocError>
    ensures { IfOk result (λ r. MatchOption r (read_class (chars text.now) ≡ None)
        (λ l. read_class (chars text.now) ≡ Some (leaf_of l.0, chars l.1.now))) }
{
    match strip(text, '!') {
        Some(rest) => class_of(alloc, true, rest),
        None => class_of(alloc, false, text),
    }
}
