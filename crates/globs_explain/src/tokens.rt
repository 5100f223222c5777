//! The tokens of an expression as an indented tree.

use crate::page::Page;
use crate::visits::{Visit, visits};
use std::alloc::Global;
use wax::NoMemory;
use wax::token::{Evaluation, ExpressionMetadata, LeafKind, Token, Topology, Wildcard};

/// Adds a line for each token: its span, its text, what it is, and the number of its capture.
pub fn add_tree(
    alloc: Global,
    expression: &str,
    whole: &Token<'_, ExpressionMetadata>,
    page: &mut Page,
) -> Result<(), NoMemory> {
    for visit in &visits(alloc, whole)? {
        add_line(expression, visit, page);
    }
    Ok(())
}

fn add_line(expression: &str, visit: &Visit<'_, '_>, page: &mut Page) {
    for _ in 0..visit.depth.saturating_add(1) {
        page.add("  ");
    }
    let (start, len) = visit.token.annotation().span();
    let end = start.saturating_add(len);
    page.show(&start);
    page.add("..");
    page.show(&end);
    page.add("  ");
    page.part(expression, start, end);
    page.add("  ");
    add_kind(visit.token, page);
    if visit.capture > 0 {
        page.add(", capture ");
        page.show(&visit.capture);
    }
    page.add("\n");
}

/// Adds what a token is.
pub fn add_kind(token: &Token<'_, ExpressionMetadata>, page: &mut Page) {
    match token.topology() {
        Topology::Leaf(leaf) => page.add(leaf_kind(leaf)),
        Topology::Branch(_) => add_branch(token, page),
    }
}

fn leaf_kind(leaf: &LeafKind<'_>) -> &'static str {
    match leaf {
        LeafKind::Literal(literal) if literal.is_case_insensitive() => "literal in any case",
        LeafKind::Literal(_) => "literal",
        LeafKind::Separator(_) => "separator",
        LeafKind::Class(class) if class.is_negated() => "negated class",
        LeafKind::Class(_) => "class",
        LeafKind::Wildcard(wildcard) => match wildcard {
            Wildcard::One => "one character",
            Wildcard::ZeroOrMore(Evaluation::Eager) => "wildcard, the longest",
            Wildcard::ZeroOrMore(Evaluation::Lazy) => "wildcard, the shortest",
            Wildcard::Tree { .. } => "tree wildcard",
        },
    }
}

fn add_branch(token: &Token<'_, ExpressionMetadata>, page: &mut Page) {
    let Some(repetition) = token.as_repetition() else {
        return page.add(if token.is_alternation() {
            "alternation"
        } else {
            "sequence"
        });
    };
    let (lower, upper) = repetition.bound_specification();
    page.add("repetition, ");
    page.show(&lower);
    match upper {
        None => page.add(" or more"),
        Some(upper) if upper == lower => {}
        Some(upper) => {
            page.add(" to ");
            page.show(&upper);
        }
    }
}
