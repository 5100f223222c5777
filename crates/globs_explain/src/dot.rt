//! The tokens of an expression as a graph for Graphviz.

use crate::page::Page;
use crate::tokens::add_kind;
use crate::visits::{Visit, visits};
use std::alloc::Global;
use wax::NoMemory;
use wax::token::{ExpressionMetadata, Token};

/// Adds the graph: the expression above its tokens, and each token above those in it.
pub fn add_graph(
    alloc: Global,
    expression: &str,
    whole: &Token<'_, ExpressionMetadata>,
    page: &mut Page,
) -> Result<(), NoMemory> {
    page.add("digraph glob {\n  node [shape=box, fontname=\"monospace\"];\n  0 [label=\"");
    page.quoted_part(expression, 0, expression.len());
    page.add("\"];\n");
    let mut index: usize = 0;
    for visit in &visits(alloc, whole)? {
        index = index.saturating_add(1);
        add_node(expression, index, visit, page);
    }
    page.add("}\n");
    Ok(())
}

/// Adds a token, and the edge that leads to it.
fn add_node(expression: &str, index: usize, visit: &Visit<'_, '_>, page: &mut Page) {
    let (start, len) = visit.token.annotation().span();
    page.add("  ");
    page.show(&index);
    page.add(" [label=\"");
    page.quoted_part(expression, start, start.saturating_add(len));
    page.add("\\n");
    add_kind(visit.token, page);
    if visit.capture > 0 {
        page.add("\\ncapture ");
        page.show(&visit.capture);
    }
    page.add("\"];\n  ");
    page.show(&visit.parent);
    page.add(" -> ");
    page.show(&index);
    page.add(";\n");
}
