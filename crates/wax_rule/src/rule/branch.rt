//! The rules of branches: how a sub-glob may begin and end, by the branch around it and the
//! branch's neighbours.
ghost use Rattle.std.specs.{Prelude.◌≡◌, Option.option_or};
ghost use Rattle.wax_token.specs.Words.{trees};
ghost use Rattle.wax_facts.specs.Rules.{terminal_of, side_has_boundary, has_zero_or_more, split_from};
ghost use Rattle.wax_facts.specs.Rules.{shared_rows, alternation_rows, repetition_rows, own_rows};
ghost use Rattle.wax_facts.specs.Rules.{first_that_holds, rows_of, sub_glob_breaks, alternative_breaks};
ghost use Rattle.wax_facts.specs.Rules.{branch_breaks, label_of};
ghost use Rattle.wax_rule.specs.FirstBreak.{head_of};

use super::situated::Situated;
use wax_facts::{Break, Row, RuleErrorKind, Side, Sort, Terminal};
use wax_query::diagnostics::{CompositeSpan, CorrelatedSpan, Span};
use wax_token::token::{BranchKind, ExpressionMetadata, Token, Topology};

fn terminal_of<'t>(token: &Token<'t, ExpressionMetadata>) -> Terminal
    ensures { result ≡ terminal_of token.now }
{
    let span = token.annotation().span();
    match token.topology() {
        Topology::Branch(_) => Terminal {
            span,
            is_boundary: false,
            is_separator: false,
            is_tree: false,
            is_rooting: false,
            is_zero_or_more: false,
        },
        Topology::Leaf(leaf) => Terminal {
            span,
            is_boundary: leaf.is_boundary(),
            is_separator: leaf.is_separator(),
            is_tree: leaf.is_tree_wildcard(),
            is_rooting: leaf.is_rooting(),
            is_zero_or_more: leaf.is_zero_or_more(),
        },
    }
}

fn side_has_boundary(side: Option<Side>) -> bool
    ensures { result ≡ side_has_boundary side }
{
    match side {
        Some(side) => side.has_boundary,
        None => false,
    }
}

fn has_zero_or_more(side: Option<Side>) -> bool
    ensures { result ≡ has_zero_or_more side }
{
    match side {
        Some(side) => side.has_zero_or_more,
        None => false,
    }
}

/// Builds the places that explain a break: the neighbour, if there is one, and the token.
fn split_from(side: Option<Side>, terminal: Terminal) -> CorrelatedSpan
    ensures { result ≡ split_from side terminal }
{
    match side {
        Some(side) => CorrelatedSpan::Split(side.span, terminal.span),
        None => CorrelatedSpan::Contiguous(terminal.span),
    }
}

/// Lists what neither an alternation nor a repetition may contain: a sub-glob with a boundary
/// beside a boundary, with a `*` or `$` beside another, or of only `**`.
fn shared_rows(
    left: Option<Side>,
    right: Option<Side>,
    first: Terminal,
    last: Terminal,
    several: bool,
) -> [Row; 7]
    ensures { result ≡ shared_rows left right first last several }
{
    [
        // `a/{/b}`
        Row {
            holds: first.is_separator && side_has_boundary(left),
            kind: RuleErrorKind::AdjacentBoundary,
            correlated: split_from(left, first),
        },
        // `{a/}/b`
        Row {
            holds: last.is_separator && side_has_boundary(right),
            kind: RuleErrorKind::AdjacentBoundary,
            correlated: split_from(right, last),
        },
        // `{a,**}`
        Row {
            holds: !several && first.is_tree,
            kind: RuleErrorKind::SingularTree,
            correlated: CorrelatedSpan::Contiguous(first.span),
        },
        // `a/{**/b}`
        Row {
            holds: several && first.is_tree && side_has_boundary(left),
            kind: RuleErrorKind::AdjacentBoundary,
            correlated: split_from(left, first),
        },
        // `{a/**}/b`
        Row {
            holds: several && last.is_tree && side_has_boundary(right),
            kind: RuleErrorKind::AdjacentBoundary,
            correlated: split_from(right, last),
        },
        // `*{$a}`
        Row {
            holds: first.is_zero_or_more && has_zero_or_more(left),
            kind: RuleErrorKind::AdjacentZeroOrMore,
            correlated: split_from(left, first),
        },
        // `{a$}*`
        Row {
            holds: last.is_zero_or_more && has_zero_or_more(right),
            kind: RuleErrorKind::AdjacentZeroOrMore,
            correlated: split_from(right, last),
        },
    ]
}

/// Lists what only an alternation may not contain: a root, if nothing is written before it.
fn alternation_rows(left: Option<Side>, first: Terminal) -> [Row; 1]
    ensures { result ≡ alternation_rows left first }
{
    [
        // `{/a,b}`
        Row {
            holds: left.is_none() && first.is_rooting,
            kind: RuleErrorKind::RootedSubGlob,
            correlated: CorrelatedSpan::Contiguous(first.span),
        },
    ]
}

/// Lists what only a repetition may not contain: a root if there may be no copies, and boundaries,
/// `*` or `$` that meet between two copies.
fn repetition_rows(
    left: Option<Side>,
    lower: usize,
    first: Terminal,
    last: Terminal,
    several: bool,
) -> [Row; 4]
    ensures { result ≡ repetition_rows left lower first last several }
{
    [
        // `</a>`
        Row {
            holds: left.is_none() && lower == 0 && first.is_rooting,
            kind: RuleErrorKind::RootedSubGlob,
            correlated: CorrelatedSpan::Contiguous(first.span),
        },
        // `</a/:1,>`
        Row {
            holds: several && first.is_boundary && last.is_boundary,
            kind: RuleErrorKind::AdjacentBoundary,
            correlated: CorrelatedSpan::Split(first.span, last.span),
        },
        // `a</:1,>`
        Row {
            holds: !several && first.is_separator,
            kind: RuleErrorKind::AdjacentBoundary,
            correlated: CorrelatedSpan::Contiguous(first.span),
        },
        // `<*:1,>`
        Row {
            holds: !several && first.is_zero_or_more,
            kind: RuleErrorKind::SingularZeroOrMore,
            correlated: CorrelatedSpan::Contiguous(first.span),
        },
    ]
}

fn first_that_holds(rows: &[Row]) -> Option<Row>
    ensures { result ≡ first_that_holds rows.now }
{
    for row in rows {
        if row.holds {
            return Some(*row);
        }
    }
    None
}

/// Finds the first row that holds for a sub-glob. The shared rows come first.
fn find_row(
    branch: Sort,
    left: Option<Side>,
    right: Option<Side>,
    first: Terminal,
    last: Terminal,
    several: bool,
) -> Option<Row>
    ensures { result ≡ option_or (first_that_holds (shared_rows left right first last several))
        (first_that_holds (own_rows branch left first last several)) }
{
    let shared = first_that_holds(&shared_rows(left, right, first, last, several));
    let own = match branch {
        Sort::Alternation => first_that_holds(&alternation_rows(left, first)),
        Sort::Repetition(lower) => {
            first_that_holds(&repetition_rows(left, lower, first, last, several))
        }
    };
    shared.or(own)
}

/// Finds the first row that holds for a sub-glob of these tokens, or `None` if there are none.
fn find_row_of<'t>(
    branch: Sort,
    left: Option<Side>,
    right: Option<Side>,
    tokens: &[Token<'t, ExpressionMetadata>],
) -> Option<Row>
    ensures { result ≡ first_that_holds (rows_of branch left right (trees tokens.now)) }
{
    let first = terminal_of(tokens.first()?);
    let last = terminal_of(tokens.last()?);
    find_row(branch, left, right, first, last, tokens.len() > 1)
}

fn label_of(branch: Sort) -> &'static str
    ensures { result.now ≡ label_of branch }
{
    match branch {
        Sort::Alternation => "in this alternation",
        Sort::Repetition(_) => "in this repetition",
    }
}

/// Returns the break of a sub-glob, placed at the span of the branch around it.
fn sub_glob_break<'t>(
    branch: Sort,
    span: Span,
    left: Option<Side>,
    right: Option<Side>,
    sub_glob: &Token<'t, ExpressionMetadata>,
) -> Option<Break>
    ensures { result ≡ head_of (sub_glob_breaks branch span left right sub_glob.now) }
{
    let row = find_row_of(branch, left, right, sub_glob.concatenation())?;
    Some(Break {
        kind: row.kind,
        location: CompositeSpan::correlated(label_of(branch), span, row.correlated),
    })
}

/// Returns the break of the first branch of an alternation that has one.
fn alternative_break<'t>(
    span: Span,
    left: Option<Side>,
    right: Option<Side>,
    branches: &[Token<'t, ExpressionMetadata>],
) -> Option<Break>
    ensures { result ≡ head_of (alternative_breaks span left right (trees branches.now)) }
{
    for sub_glob in branches {
        if let Some(found) = sub_glob_break(Sort::Alternation, span, left, right, sub_glob) {
            return Some(found);
        }
    }
    None
}

/// Returns the first break of the rules of branches at this token itself, not inside it.
pub(super) fn branch_break(token: &Situated<'_, '_>) -> Option<Break>
    ensures { result ≡ head_of (branch_breaks token.now.left token.now.right token.now.token) }
{
    let (left, right) = (token.left.side(), token.right.side());
    let token = token.token();
    let span = token.annotation().span();
    match token.as_branch()? {
        BranchKind::Alternation(a) => alternative_break(span, left, right, a.tokens.as_slice()),
        BranchKind::Repetition(r) => {
            sub_glob_break(Sort::Repetition(r.lower), span, left, right, &r.token)
        }
        BranchKind::Concatenation(_) => None,
    }
}
