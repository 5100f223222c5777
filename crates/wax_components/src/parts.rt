//! The components of a glob.
ghost use Rattle.std.specs.Prelude.{◌≡◌, All, IfOk, MatchOption, if◌then◌else◌, false, true, chars, fold};
ghost use Rattle.std.specs.{Prelude.string_bytes, List.{flat_map, list_all, position_or_len}};
ghost use Rattle.wax_components.specs.Parts.{HasEach, IsComponent, components, components_in, is_semantic};
ghost use Rattle.wax_components.specs.{Parts.{joint_span, literals_text}, inner.Dots.{dot_after, dots_of}};
ghost use Rattle.wax_components.specs.TopLevel.{tokens_of};
ghost use Rattle.wax_token.specs.{Kinds.{is_boundary, is_literal}, Words.trees};

use crate::kinds;
use std::alloc::{AllocError, Global};
use std::marker::Model;
use wax_query::diagnostics::{NoMemory, Span, SpanExt};
use wax_token::token::{Annotation, ConcatenationTree, ExpressionMetadata, Literal, Token};

/// A component of a glob: the tokens between two boundaries, or a single `**`. Contracts see the
/// tokens.
#[derive(Clone, Debug, Drop)]
pub struct Component<'i, 't, A> {
    tokens: &'i [Token<'t, A>],
}

impl<'i, 't, A> Model for Component<'i, 't, A> {
    ghost use Rattle.std.specs.{Prelude.List, Coded.coded_list};
    ghost use Rattle.wax_token.specs.{Syntax.Tree, TreeCode.tree_code};

    ghost Value = { List (Tree A) };

    ghost coded = { coded_list (tree_code A.code) };

    ghost view = { λ c. c.tokens.now };
}

impl<'t, A> ConcatenationTree<'t> for Component<'_, 't, A> {
    type Annotation = A;

    ghost tokens = { λ c. trees c };

    fn concatenation(&self) -> &[Token<'t, A>] {
        self.tokens
    }
}

impl<'i, 't, A> Component<'i, 't, A> {
    pub(crate) fn new(tokens: &'i [Token<'t, A>]) -> Self
        ensures { result ≡ tokens.now }
    {
        Component { tokens }
    }

    /// Returns the tokens from left to right.
    pub fn tokens(&self) -> &'i [Token<'t, A>]
        ensures { result.now ≡ self.now }
    {
        self.tokens
    }

    /// Returns the component as literals, or `None` if one of its tokens isn't a literal. Doesn't
    /// allocate.
    pub fn literal(&self) -> Option<LiteralSequence<'i, 't, A>>
        ensures { result ≡ (if list_all is_literal self.now then Some (literals_text self.now) else None) }
    {
        for token in self.tokens {
            if !token.is_literal() {
                return None;
            }
        }
        Some(LiteralSequence {
            tokens: self.tokens,
        })
    }
}

impl<'i, 't> Component<'i, 't, ExpressionMetadata> {
    /// Returns the smallest span that contains those of all its tokens, or (0, 0) if it has none.
    pub fn span(&self) -> Span
        ensures { result ≡ joint_span self.now }
    {
        let Some(first) = self.tokens.first() else {
            return (0, 0);
        };
        let mut span = first.annotation().span();
        for token in &self.tokens[1..] {
            span = span.union(token.annotation().span()).unwrap_or(span);
        }
        span
    }
}

/// Literals one after another, as in `a(?i)b`. Contracts see their characters together.
#[derive(Clone, Debug, Drop)]
pub struct LiteralSequence<'i, 't, A> {
    tokens: &'i [Token<'t, A>],
}

impl<'i, 't, A> Model for LiteralSequence<'i, 't, A> {
    ghost use Rattle.std.specs.Prelude.{List, ℕ};
    ghost use Rattle.wax_components.specs.Parts.{literals_text};

    ghost Value = { List ℕ };

    ghost view = { λ s. literals_text s.tokens.now };
}

impl<'i, 't, A> LiteralSequence<'i, 't, A> {
    /// Returns the literals from left to right.
    pub fn literals(&self, alloc: Global) -> Result<Vec<&'i Literal<'t>>, NoMemory>
        ensures { IfOk result (λ literals. flat_map (λ literal. literal.now.1) literals.items ≡ self.now) }
    {
        let mut literals = Vec::new(alloc);
        for token in self.tokens {
            if let Some(literal) = token.as_literal() {
                literals.push(literal)?;
            }
        }
        Ok(literals)
    }

    /// Returns the joined texts of the literals.
    pub fn text(&self, alloc: Global) -> Result<String, NoMemory>
        ensures { IfOk result (λ s. chars (string_bytes s) ≡ self.now) }
    {
        let mut text = String::new(alloc);
        for token in self.tokens {
            text.push_str(kinds::literal_text(token))?;
        }
        Ok(text)
    }

    /// Returns whether the text is `.` or `..`, which usually are names of folders relative to
    /// another. Doesn't allocate.
    pub fn is_semantic_literal(&self) -> bool
        ensures { result ≡ is_semantic self.now }
    {
        self.semantic_text().is_some()
    }

    /// Returns the text, if it is `.` or `..`. Doesn't allocate.
    pub(crate) fn semantic_text(&self) -> Option<&'static str>
        ensures { MatchOption result (is_semantic self.now ≡ false)
            (λ s. (is_semantic self.now ≡ true) × (chars s.now ≡ self.now)) }
    {
        match self.dots() {
            1 => Some("."),
            2 => Some(".."),
            _ => None,
        }
    }

    /// Returns how many dots the text consists of: 0, 1 or 2, or 3 for any other text.
    fn dots(&self) -> u8
        ensures { result ≡ dots_of self.now }
    {
        let mut dots = 0;
        for token in self.tokens {
            dots = dots_after(dots, kinds::literal_text(token));
        }
        dots
    }
}

/// Continues the count of `dots` with a text, after `before` dots.
fn dots_after(before: u8, text: &str) -> u8
    ensures { result ≡ fold dot_after before (chars text.now) }
{
    let mut dots = before;
    for c in text.chars() {
        dots = if c == '.' && dots < 2 { dots + 1 } else { 3 };
    }
    dots
}

/// Returns how many tokens are before the first boundary.
fn run_len<'t, A>(tokens: &[Token<'t, A>]) -> usize
    ensures { result ≡ position_or_len is_boundary tokens.now }
{
    let mut count = 0;
    while count < tokens.len() && !tokens[count].is_boundary() {
        count += 1;
    }
    count
}

/// Returns the components of a list of tokens.
pub(crate) fn components_in<'i, 't, A>(
    alloc: Global,
    tokens: &'i [Token<'t, A>],
) -> Result<Vec<Component<'i, 't, A>>, AllocError>
    ensures { IfOk result (λ cs. cs.items ≡ components_in true tokens.now) }
{
    let mut components = Vec::new(alloc);
    let mut start = 0;
    while start < tokens.len() {
        let end = start + run_len(&tokens[start..]).max(1);
        if !tokens[start].is_separator() {
            components.push(Component::new(&tokens[start..end]))?;
        }
        start = end;
    }
    Ok(components)
}

/// Returns the components of a glob from left to right: the longest runs of tokens other than `/`
/// and `**`, and each `**` by itself. For `a/x*/**` they are `a`, `x*` and `**`. Components inside
/// alternations and repetitions don't count.
///
/// Allocates the list. Takes time linear in the top-level tokens.
pub fn components<'i, 't, A: Annotation>(
    alloc: Global,
    token: &'i Token<'t, A>,
) -> Result<Vec<Component<'i, 't, A>>, NoMemory>
    ensures all { IfOk result (λ cs. cs.items ≡ components token.now) }
    ensures longest { IfOk result (λ cs. All (IsComponent (tokens_of token.now)) cs.items) }
    ensures each { IfOk result (λ cs. HasEach (tokens_of token.now) cs.items) }
{
    Ok(components_in(alloc, kinds::top_level(token))?)
}
