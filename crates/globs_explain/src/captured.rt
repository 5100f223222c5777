//! A path with what a glob captures of it.
//!
//! A match returns the texts that are captured, but not where they are. Their places follow from
//! the tokens: each takes what it captures, except for a literal, a separator, and a `/` that a
//! tree wildcard takes and doesn't capture.

use crate::page::Page;
use std::alloc::{AllocError, Global};
use wax::token::{ExpressionMetadata, Token, parse};
use wax::{CandidatePath, Glob, MatchedText, NoMemory, Program};

/// Where a capture begins and ends in the path, in bytes, and the span of its token.
#[derive(Clone, Copy)]
struct Place {
    start: usize,
    end: usize,
    token: (usize, usize),
}

/// Adds whether the glob matches the path, and its captures.
pub fn add_match(
    alloc: Global,
    glob: &Glob<'_>,
    path: &str,
    page: &mut Page,
) -> Result<(), NoMemory> {
    page.add("\n");
    page.whole(path);
    let path = CandidatePath::from(path);
    match glob.matched(alloc, &path) {
        Ok(Some(matched)) => {
            page.add("  matches\n");
            add_captures(alloc, glob.expression(), &matched, page);
            Ok(())
        }
        Ok(None) => {
            page.add("  doesn't match\n");
            Ok(())
        }
        Err(error) => Err(error),
    }
}

fn add_captures(alloc: Global, expression: &str, matched: &MatchedText<'_>, page: &mut Page) {
    match parse(alloc, expression) {
        Ok(tokens) => {
            let whole = tokens.as_token();
            match places(alloc, whole.concatenation(), matched) {
                Ok(places) => add_places(expression, matched.complete(), &places, page),
                Err(_) => page.lose(),
            }
        }
        Err(_) => page.lose(),
    }
}

fn add_places(expression: &str, path: &str, places: &[Place], page: &mut Page) {
    let mut index: usize = 0;
    for place in places {
        index = index.saturating_add(1);
        page.marks(path, place.start, place.end);
        page.add(if place.start < place.end {
            "  "
        } else {
            "  nothing, "
        });
        page.show(&index);
        page.add(" by ");
        let (start, len) = place.token;
        page.part(expression, start, start.saturating_add(len));
        page.add("\n");
    }
}

/// Returns the places of the captures. A tree wildcard at the beginning that captures nothing may
/// have taken a `/`: it has if the tokens end with the path then.
fn places<'t>(
    alloc: Global,
    tokens: &[Token<'t, ExpressionMetadata>],
    matched: &MatchedText<'_>,
) -> Result<Vec<Place>, AllocError> {
    let mut places = Vec::new(alloc);
    if is_placed(tokens, matched, true, &mut places)? {
        return Ok(places);
    }
    places.clear();
    is_placed(tokens, matched, false, &mut places)?;
    Ok(places)
}

/// Adds the places of the captures, and returns whether the tokens end where the path does.
fn is_placed<'t>(
    tokens: &[Token<'t, ExpressionMetadata>],
    matched: &MatchedText<'_>,
    takes_first: bool,
    places: &mut Vec<Place>,
) -> Result<bool, AllocError> {
    let path = matched.complete().as_bytes();
    let mut at: usize = 0;
    let mut is_first = true;
    let mut is_whole = true;
    for token in tokens {
        if let Some(literal) = token.as_literal() {
            at = after_characters(path, at, literal.text().chars().count());
        } else if token.is_separator() {
            is_whole = is_whole && path.get(at) == Some(&b'/');
            at = at.saturating_add(1);
        } else {
            let captured = matched.get(places.len().saturating_add(1)).unwrap_or("");
            let is_slash = path.get(at) == Some(&b'/');
            let skips = if is_first {
                takes_first && is_slash && captured.is_empty()
            } else {
                is_slash
            };
            if token.is_tree_wildcard() && skips {
                at = at.saturating_add(1);
            }
            let end = at.saturating_add(captured.len());
            places.push(Place {
                start: at,
                end,
                token: token.annotation().span(),
            })?;
            at = end;
        }
        is_first = false;
    }
    Ok(is_whole && at == path.len())
}

/// Returns the place of the byte after this many characters.
fn after_characters(path: &[u8], from: usize, count: usize) -> usize {
    let mut left = count;
    for at in from..path.len() {
        let begins = match path.get(at) {
            Some(byte) => *byte & 0xc0 != 0x80,
            None => false,
        };
        if begins {
            if left == 0 {
                return at;
            }
            left = left.saturating_sub(1);
        }
    }
    path.len()
}
