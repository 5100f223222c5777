//! Opened lists: the tokens of a glob, where the last token is replaced by those in it if it is an
//! alternation of one branch or a repetition of exactly one copy, and so on inside it.
ghost use Rattle.std.specs.Prelude.{◌≡◌, ◌<◌, ◌≤◌, ◌+◌, ℕ, MatchOption, None, Some};
ghost use Rattle.wax_token.specs.{Syntax.{more, none, tree_size, trees_size}, Words.trees};
ghost use Rattle.wax_facts.specs.{Prefix.{opened, opened_last}, Rest.begins_with_tree};
ghost use Rattle.wax_facts.specs.{inner.Bodies.open_body, inner.Opening.IsOpened};

use wax_token::token::{Annotation, BranchKind, LeafKind, Token, Wildcard};

/// Opens a list of only one token, as far as this is possible. A longer list is returned as it is,
/// since its last token is opened when only that one is left.
#[tactic(auto, using(crate::proofs::Sizes::element_size))]
pub fn opened_from<'i, 't, A: Annotation>(tokens: &'i [Token<'t, A>]) -> &'i [Token<'t, A>]
    ensures same { opened_last (trees result.now) ≡ opened_last (trees tokens.now) }
    ensures open { IsOpened (trees result.now) }
    ensures fewer { trees_size (trees result.now) ≤ trees_size (trees tokens.now) }
{
    if tokens.len() == 1 {
        if let Some(inside) = tokens_inside(&tokens[0]) {
            return opened_from(inside);
        }
    }
    tokens
}

// Returns the tokens that replace a last token: those of a concatenation, or of the sub-glob in it.
fn tokens_inside<'i, 't, A: Annotation>(token: &'i Token<'t, A>) -> Option<&'i [Token<'t, A>]>
    ensures tokens { MatchOption result (opened token.now ≡ more token.now none) (λ inside.
        opened_last (trees inside.now) ≡ opened token.now) }
    ensures fewer { MatchOption result (Unit {0}) (λ inside.
        trees_size (trees inside.now) < tree_size token.now + 1) }
{
    match token.as_branch()? {
        BranchKind::Concatenation(c) => Some(c.tokens()),
        _ => Some(open_body(token)?.concatenation()),
    }
}

/// Returns the only branch of an alternation, or the body of a repetition of exactly one copy.
pub fn open_body<'i, 't, A>(token: &'i Token<'t, A>) -> Option<&'i Token<'t, A>>
    ensures { MatchOption result (open_body token.now ≡ None) (λ b. open_body token.now ≡ Some b.now) }
{
    match token.as_branch()? {
        BranchKind::Alternation(a) if a.tokens.len() == 1 => a.tokens.first(),
        BranchKind::Repetition(r) if r.lower == 1 && r.upper == Some(1) => Some(r.token()),
        _ => None,
    }
}

/// Returns whether the opened list of the glob begins with `**`.
pub fn begins_with_tree<'t, A: Annotation>(glob: &Token<'t, A>) -> bool
    ensures { result ≡ begins_with_tree (opened glob.now) }
{
    match opened_from(glob.concatenation()).first() {
        Some(first) => first.is_tree_wildcard(),
        None => false,
    }
}
