//! Globs and their branches, read by recursive descent. Each function begins at the cursor `from`,
//! and returns what it read and the cursor after it.
ghost use Rattle.std.specs.Prelude.{◌≡◌, ◌≤◌, ◌<◌, ◌+◌, ◌-◌, ◌^◌, ◌∷◌, ◌++◌, [], Bool, IfOk, OnOk, chars};
ghost use Rattle.wax_query.specs.Outcome.{MatchBuild};
ghost use Rattle.wax_token.specs.{Reads.{in_alternation, in_repetition, utf8_len}, Words.trees};
ghost use Rattle.wax_parse.specs.Accepted.{IsPlace, first_len};
ghost use Rattle.wax_parse.specs.inner.Reading.{BranchesAt, GlobAt, HasProperSuffix, HasSuffix, IsRefusal};
ghost use Rattle.wax_parse.specs.inner.Reading.{IsWithinScope, Sole, TokenAt, Unreadable};
ghost use Rattle.wax_parse.specs.inner.Parser.{around_of, flags_end, place, at};

use super::ParseError;
use crate::parse::bounds::read_bounds;
use crate::parse::flags::{Cursor, read_flags};
use crate::parse::leaf::read_leaf;
use crate::parse::surroundings::{Around, Scope};
use crate::parse::text::{split_first, strip};
use std::alloc::{AllocError, Global};
use wax_query::diagnostics::{Refusal, Span};
use wax_token::token::{
    Alternation, BranchKind, Concatenation, ExpressionMetadata, LeafKind, Repetition, Token,
    new_branch, new_leaf,
};

/// A token with its span in the expression.
type ReadToken<'t> = Token<'t, ExpressionMetadata>;

/// Reads a glob, up to the character or the end of the expression that ends it in its scope. An
/// empty one is an error.
#[cycle(read)]
pub(super) fn read_glob<'t>(
    alloc: Global,
    scope: Scope<'t>,
    from: Cursor<'t>,
) -> Result<(ReadToken<'t>, Cursor<'t>), Refusal<ParseError>>
    requires { IsWithinScope scope from }
    ensures { MatchBuild result
        (λ r. Sole (GlobAt scope.entry from.entry) r.0 (place r.1)
        × HasSuffix (chars from.entry.rest.now) (chars r.1.rest.now))
        (λ e. Unreadable (GlobAt scope.entry from.entry) × IsPlace (chars scope.entry.expression.now) e) }
{
    let mut tokens = Vec::with_capacity(alloc, first_room(scope.around))?;
    let mut cursor = from;
    while !scope.around.is_end(cursor.rest) {
        let (token, next) = read_token(alloc, scope, tokens.is_empty(), cursor)?;
        push(&mut tokens, token)?;
        cursor = next;
    }
    if cursor.rest.len() == from.rest.len() {
        return Err(refusal(scope.expression, from.rest));
    }
    let fitted = without_spare_room(scope.around, tokens);
    let annotation = metadata(scope.expression, from.rest, cursor.rest);
    let glob = new_branch(
        BranchKind::Concatenation(Concatenation { tokens: fitted }),
        annotation,
    );
    Ok((glob, cursor))
}

/// Reads a token with the flag groups before it, which belong to its span.
#[cycle(read)]
fn read_token<'t>(
    alloc: Global,
    scope: Scope<'t>,
    is_first: bool,
    from: Cursor<'t>,
) -> Result<(ReadToken<'t>, Cursor<'t>), Refusal<ParseError>>
    requires { IsWithinScope scope from }
    ensures { MatchBuild result
        (λ r. Sole (TokenAt scope.entry is_first from.entry) r.0 (place r.1)
        × HasProperSuffix (chars from.entry.rest.now) (chars r.1.rest.now))
        (λ e. Unreadable (TokenAt scope.entry is_first from.entry)
        × IsPlace (chars scope.entry.expression.now) e) }
{
    let start = read_flags(from);
    if let Some(rest) = strip(start.rest, '{') {
        return read_alternation(alloc, scope, from, Cursor { rest, ..start });
    }
    if let Some(rest) = strip(start.rest, '<') {
        return read_repetition(alloc, scope, from, Cursor { rest, ..start });
    }
    let Some((kind, next)) = read_leaf(alloc, scope.around, is_first, start)? else {
        return Err(refusal(scope.expression, start.rest));
    };
    let annotation = metadata(scope.expression, from.rest, next.rest);
    Ok((new_leaf(kind, annotation), next))
}

/// Reads an alternation after its opening brace. Its span begins at `flags`.
#[cycle(read)]
fn read_alternation<'t>(
    alloc: Global,
    scope: Scope<'t>,
    flags: Cursor<'t>,
    from: Cursor<'t>,
) -> Result<(ReadToken<'t>, Cursor<'t>), Refusal<ParseError>>
    requires within { IsWithinScope scope flags }
    requires opened { flags_end (place flags) ≡ at from.is_case_insensitive (123 ∷ chars from.rest.now) }
    ensures { (first : Bool) → MatchBuild result
        (λ r. Sole (TokenAt scope.entry first flags.entry) r.0 (place r.1)
        × HasProperSuffix (chars flags.entry.rest.now) (chars r.1.rest.now))
        (λ e. Unreadable (TokenAt scope.entry first flags.entry)
        × IsPlace (chars scope.entry.expression.now) e) }
{
    let Some(inner) = scope.inside(Around::InAlternation) else {
        return Err(refusal(scope.expression, from.rest));
    };
    let (tokens, next) = read_branches(alloc, inner, from)?;
    let annotation = metadata(scope.expression, flags.rest, next.rest);
    let alternation = new_branch(BranchKind::Alternation(Alternation { tokens }), annotation);
    Ok((alternation, next))
}

/// Reads the branches of an alternation, and its closing brace.
#[cycle(read)]
fn read_branches<'t>(
    alloc: Global,
    scope: Scope<'t>,
    from: Cursor<'t>,
) -> Result<(Vec<ReadToken<'t>>, Cursor<'t>), Refusal<ParseError>>
    requires within { IsWithinScope scope from }
    requires around { around_of scope.around ≡ in_alternation }
    ensures { MatchBuild result
        (λ r. Sole (BranchesAt scope.entry from.entry) (trees r.0.items) (place r.1)
        × HasSuffix (chars from.entry.rest.now) (chars r.1.rest.now))
        (λ e. Unreadable (BranchesAt scope.entry from.entry) × IsPlace (chars scope.entry.expression.now) e) }
{
    let mut branches = Vec::with_capacity(alloc, 2)?;
    let mut cursor = from;
    loop {
        let (branch, next) = read_glob(alloc, scope, cursor)?;
        push(&mut branches, branch)?;
        if let Some(rest) = strip(next.rest, '}') {
            branches.shrink_to_fit();
            return Ok((branches, Cursor { rest, ..next }));
        }
        let Some(rest) = strip(next.rest, ',') else {
            return Err(refusal(scope.expression, next.rest));
        };
        cursor = Cursor { rest, ..next };
    }
}

/// Reads a repetition after its opening bracket. Its span begins at `flags`.
#[cycle(read)]
fn read_repetition<'t>(
    alloc: Global,
    scope: Scope<'t>,
    flags: Cursor<'t>,
    from: Cursor<'t>,
) -> Result<(ReadToken<'t>, Cursor<'t>), Refusal<ParseError>>
    requires within { IsWithinScope scope flags }
    requires opened { flags_end (place flags) ≡ at from.is_case_insensitive (60 ∷ chars from.rest.now) }
    ensures { (first : Bool) → MatchBuild result
        (λ r. Sole (TokenAt scope.entry first flags.entry) r.0 (place r.1)
        × HasProperSuffix (chars flags.entry.rest.now) (chars r.1.rest.now))
        (λ e. Unreadable (TokenAt scope.entry first flags.entry)
        × IsPlace (chars scope.entry.expression.now) e) }
{
    let Some(inner) = scope.inside(Around::InRepetition) else {
        return Err(refusal(scope.expression, from.rest));
    };
    let (body, next) = read_glob(alloc, inner, from)?;
    let Some(((lower, upper), rest)) = read_bounds(next.rest) else {
        return Err(refusal(scope.expression, next.rest));
    };
    let annotation = metadata(scope.expression, flags.rest, rest);
    let repetition = Repetition {
        token: boxed(alloc, body)?,
        lower,
        upper,
    };
    let after = Cursor { rest, ..next };
    Ok((
        new_branch(BranchKind::Repetition(repetition), annotation),
        after,
    ))
}

/// Returns for how many tokens there is room when the reading of a glob begins. Most globs in
/// branches are one token.
fn first_room(around: Around) -> usize {
    match around {
        Around::Whole => 4,
        Around::InAlternation | Around::InRepetition => 1,
    }
}

/// Returns the tokens of a glob in a list without spare room. The list of the whole expression keeps
/// it, since there is only one.
fn without_spare_room<'t>(around: Around, tokens: Vec<ReadToken<'t>>) -> Vec<ReadToken<'t>>
    ensures { result.items ≡ tokens.entry.items }
{
    let mut fitted = tokens;
    if !matches!(around, Around::Whole) {
        fitted.shrink_to_fit();
    }
    fitted
}

fn push<'t>(tokens: &mut Vec<ReadToken<'t>>, token: ReadToken<'t>) -> Result<(), AllocError>
    ensures { OnOk result (tokens.new.items ≡ tokens.old.items ++ token.entry ∷ []) }
{
    tokens.push(token)?;
    Ok(())
}

fn boxed<'t>(alloc: Global, token: ReadToken<'t>) -> Result<Box<ReadToken<'t>>, AllocError>
    ensures { IfOk result (λ b. b.value ≡ token.entry) }
{
    Ok(Box::new(alloc, token)?)
}

/// Returns the span between two positions, each given by what follows it in the expression.
fn metadata(expression: &str, from: &str, to: &str) -> ExpressionMetadata
    requires from { utf8_len (chars from.now) ≤ utf8_len (chars expression.now) }
    requires to { utf8_len (chars to.now) ≤ utf8_len (chars from.now) }
    ensures { result ≡ (
      utf8_len (chars expression.now) - utf8_len (chars from.now),
      utf8_len (chars from.now) - utf8_len (chars to.now),
    ) }
{
    ExpressionMetadata::new((expression.len() - from.len(), from.len() - to.len()))
}

/// Builds the error at the first character of `rest`, which is a suffix of the expression.
fn refusal(expression: &str, rest: &str) -> Refusal<ParseError>
    requires { HasSuffix (chars expression.now) (chars rest.now) }
    ensures { IsRefusal (IsPlace (chars expression.now)) result }
{
    let place = (expression.len() - rest.len(), first_width(rest));
    Refusal::Refused(ParseError { place })
}

/// Returns the length of the first character in bytes, or 0 if there is none.
fn first_width(text: &str) -> usize
    ensures { result ≡ first_len (chars text.now) }
{
    match split_first(text) {
        None => 0,
        Some((c, _)) => c.len_utf8(),
    }
}
