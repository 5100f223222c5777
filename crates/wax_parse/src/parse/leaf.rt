//! Reading leaves. Each function returns what it read and the cursor after it, or `None` if the
//! text doesn't begin like that.
ghost use Rattle.std.specs.Prelude.{◌≡◌, IfOk, MatchOption, Some, None, chars, codes};
ghost use Rattle.wax_token.specs.{Reads.starts_with_one_of, View.leaf_of};
ghost use Rattle.wax_parse.specs.inner.Parser.{place, around_of, flags_end, after_tree, boundary_leaf};
ghost use Rattle.wax_parse.specs.inner.Parser.{zero_or_more_leaf, inner_leaf, read_leaf, at};

use crate::parse::class::read_class;
use crate::parse::flags::{Cursor, after_tree, read_flags};
use crate::parse::literal::read_literal;
use crate::parse::surroundings::Around;
use crate::parse::text::split_first;
use std::alloc::{AllocError, Global};
use wax_token::token::{Evaluation, LeafKind, Separator, Wildcard};

/// Reads what follows a `/`: the rest of a tree wildcard that begins with it, or nothing. In that
/// case the `/` is a separator.
fn read_boundary(around: Around, rest: Cursor<'_>) -> (LeafKind<'static>, Cursor<'_>)
    ensures { boundary_leaf (place rest.entry) (after_tree (around_of around) (flags_end (place rest.entry)))
        ≡ (leaf_of result.0, place result.1) }
{
    match after_tree(around, read_flags(rest)) {
        None => (LeafKind::Separator(Separator), rest),
        Some(after) => (LeafKind::Wildcard(Wildcard::Tree { has_root: true }), after),
    }
}

/// Returns whether `*` or `$` follows, possibly after flag groups.
fn is_before_wildcard(rest: Cursor<'_>) -> bool
    ensures { result ≡ starts_with_one_of (codes "*$") (flags_end (place rest.entry)).rest }
{
    match split_first(read_flags(rest).rest) {
        None => false,
        Some((c, _)) => matches!(c, '*' | '$'),
    }
}

/// Reads `*` or `$` after its character. Right before another of them it is an error.
fn read_zero_or_more(
    evaluation: Evaluation,
    rest: Cursor<'_>,
) -> Option<(LeafKind<'static>, Cursor<'_>)>
    ensures { MatchOption result (zero_or_more_leaf evaluation (place rest.entry) ≡ None)
        (λ l. zero_or_more_leaf evaluation (place rest.entry) ≡ Some (leaf_of l.0, place l.1)) }
{
    if is_before_wildcard(rest) {
        return None;
    }
    Some((LeafKind::Wildcard(Wildcard::ZeroOrMore(evaluation)), rest))
}

/// Reads any leaf but a `**` without a `/` before it, which can only begin a glob.
fn read_inner_leaf<'t>(
    alloc: Global,
    around: Around,
    from: Cursor<'t>,
) -> Result<Option<(LeafKind<'t>, Cursor<'t>)>, AllocError>
    ensures { IfOk result (λ r. MatchOption r
        (inner_leaf (around_of around) from.entry.is_case_insensitive (chars from.entry.rest.now) ≡ None)
        (λ l. inner_leaf (around_of around) from.entry.is_case_insensitive (chars from.entry.rest.now)
        ≡ Some (leaf_of l.0, place l.1))) }
{
    let Some((first, rest)) = split_first(from.rest) else {
        return Ok(None);
    };
    let after = Cursor { rest, ..from };
    match first {
        '/' => Ok(Some(read_boundary(around, after))),
        '?' => Ok(Some((LeafKind::Wildcard(Wildcard::One), after))),
        '*' => Ok(read_zero_or_more(Evaluation::Eager, after)),
        '$' => Ok(read_zero_or_more(Evaluation::Lazy, after)),
        '[' => Ok(with_flag(from.is_case_insensitive, read_class(alloc, rest)?)),
        _ => Ok(with_flag(
            from.is_case_insensitive,
            read_literal(alloc, from.is_case_insensitive, from.rest)?,
        )),
    }
}

/// Adds the flag to the text after a leaf, since a leaf doesn't change it.
fn with_flag<'t>(
    is_case_insensitive: bool,
    read: Option<(LeafKind<'t>, &'t str)>,
) -> Option<(LeafKind<'t>, Cursor<'t>)>
    ensures { MatchOption read.entry (result ≡ None)
        (λ r. MatchOption result ⊥
        (λ l. (l.0 ≡ r.0) × (place l.1 ≡ at is_case_insensitive (chars r.1.now)))) }
{
    let (leaf, rest) = read?;
    Some((
        leaf,
        Cursor {
            is_case_insensitive,
            rest,
        },
    ))
}

/// Reads a leaf. Only the first token of a glob can be a `**` without a `/` before it.
pub(super) fn read_leaf<'t>(
    alloc: Global,
    around: Around,
    is_first: bool,
    from: Cursor<'t>,
) -> Result<Option<(LeafKind<'t>, Cursor<'t>)>, AllocError>
    ensures { IfOk result (λ r. MatchOption r
        (read_leaf (around_of around) is_first (place from.entry) ≡ None)
        (λ l. read_leaf (around_of around) is_first (place from.entry) ≡ Some (leaf_of l.0, place l.1))) }
{
    if is_first {
        if let Some(rest) = after_tree(around, from) {
            return Ok(Some((LeafKind::Wildcard(Wildcard::Tree { has_root: false }), rest)));
        }
    }
    read_inner_leaf(alloc, around, from)
}
