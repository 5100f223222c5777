//! Leading components of globs.
ghost use Rattle.std.specs.{Prelude.{◌≡◌, ◌↔◌, ◌<◌, ◌≤◌, IfOk, IsTrue, chars, false}, List.list_any};
ghost use Rattle.wax_token.specs.{Cost.{costs, program_length}, Kinds.has_boundary, Meaning.MeansEach};
ghost use Rattle.wax_token.specs.Words.{trees};
ghost use Rattle.wax_components.specs.TopLevel.{tokens_of};
ghost use Rattle.wax_exclude.specs.Leading.{begins_with_separator, component_test, leading_of};

use crate::fitting::compile_fitting;
use std::alloc::Global;
use std::marker::Model;
use wax_components::components;
use wax_prefilter::CompiledTokens;
use wax_query::diagnostics::NoMemory;
use wax_token::token::{ExpressionMetadata, Token};
use wax_tree::NameTest;

/// A component of a glob, compiled by itself. Contracts see its tokens.
#[derive(Drop)]
pub struct LeadingComponent<'g, 't> {
    tokens: &'g [Token<'t, ExpressionMetadata>],
    compiled: CompiledTokens,
}

impl<'g, 't> Model for LeadingComponent<'g, 't> {
    ghost use Rattle.std.specs.Prelude.{List};
    ghost use Rattle.wax_token.specs.{Reads.Span, Syntax.Tree};
    ghost use Rattle.wax_exclude.specs.Compiled.{AcceptsEach, row_code};

    ghost Value = { List (Tree Span) };

    ghost coded = { row_code };

    ghost view = { λ c. c.tokens.now };

    ghost invariant = { λ c. AcceptsEach c.compiled c.tokens.now };
}

impl<'g, 't> NameTest for LeadingComponent<'g, 't> {
    ghost use Rattle.wax_exclude.specs.Leading.{component_test};

    ghost decides = { λ component name. component_test component name };

    /// Returns whether the component matches the whole name.
    fn is_match(&self, alloc: Global, name: &str) -> Result<bool, NoMemory>
        ensures decides { IfOk result (λ answer. answer ≡ component_test self.now (chars name.now)) }
        ensures means { IfOk result (λ answer.
            IsTrue answer ↔ MeansEach (trees self.now) false false (chars name.now)) }
    {
        self.compiled.is_match(alloc, name)
    }
}

fn compiled_component<'g, 't>(
    alloc: Global,
    tokens: &'g [Token<'t, ExpressionMetadata>],
) -> Result<LeadingComponent<'g, 't>, NoMemory>
    requires { costs (trees tokens.now) < 1048576 }
    ensures { IfOk result (λ c. c ≡ tokens.now) }
{
    let compiled = compile_fitting(alloc, tokens)?;
    Ok(LeadingComponent { tokens, compiled })
}

fn hold_boundary<'t>(tokens: &[Token<'t, ExpressionMetadata>]) -> bool
    ensures { result ≡ list_any has_boundary tokens.now }
{
    tokens.iter().any(|token| token.has_boundary())
}

fn begins_with_separator<'t>(token: &Token<'t, ExpressionMetadata>) -> bool
    ensures { result ≡ begins_with_separator (tokens_of token.now) }
{
    match token.concatenation().first() {
        Some(first) => first.is_separator(),
        None => false,
    }
}

/// Compiles the leading components of a glob, each by itself: those before the first that
/// contains a boundary anywhere. If the walk begins at the root and the glob's first token isn't
/// `/`, there are none. It takes time and memory in proportion to the tokens and their cost.
pub fn leading<'g, 't>(
    alloc: Global,
    token: &'g Token<'t, ExpressionMetadata>,
    is_rooted: bool,
) -> Result<Vec<LeadingComponent<'g, 't>>, NoMemory>
    requires { program_length token.now ≤ 1048576 }
    ensures { IfOk result (λ leading. leading.items ≡ leading_of is_rooted token.now) }
{
    let mut leading = Vec::new(alloc);
    if is_rooted && !begins_with_separator(token) {
        return Ok(leading);
    }
    let components = components(alloc, token)?;
    for component in &components {
        let tokens = component.tokens();
        if hold_boundary(tokens) {
            break;
        }
        let component = compiled_component(alloc, tokens)?;
        leading.push(component)?;
    }
    Ok(leading)
}
