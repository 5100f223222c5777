//! What is left of patterns while they are written into one program.
ghost use Rattle.std.specs.Prelude.{◌≡◌, ◌≤◌, ◌+◌, IfSome, IsTrue, MatchOption, chars, false, length};
ghost use Rattle.wax_match.specs.inner.LeadCode.{gap_code};
ghost use Rattle.wax_match.specs.inner.Left.{AreSame, GapMeans, IsAfter, LeftMeans, SpeltMeans};
ghost use Rattle.wax_match.specs.inner.LeftCost.{left_cost};
ghost use Rattle.wax_token.specs.Cost.{cost, costs, leaf_cost};
ghost use Rattle.wax_token.specs.{Meaning.{LeafMeans, Means, MeansEach, TreeMeans}, View.wildcard_leaf};
ghost use Rattle.wax_token.specs.Words.{trees};

use wax_token::token::{ExpressionMetadata, LeafKind, Sides, Token, Wildcard};

/// A wildcard, apart from the `/` before it.
#[derive(Clone, Copy)]
pub enum Gap {
    /// No wildcard.
    Nothing,
    /// `*` or `$`.
    Star,
    /// `**` with tokens after it: components, each with the `/` after it.
    Folders,
    /// `**` at the end of a pattern, after other tokens: nothing, or a `/` and any text.
    Below,
    /// `**` alone: any text.
    Anything,
}

/// What is left of a pattern: a text, a wildcard, and then tokens.
#[derive(Clone, Copy)]
pub struct Left<'a, 't> {
    pub number: usize,
    pub text: &'a str,
    pub gap: Gap,
    pub tokens: &'a [Token<'t, ExpressionMetadata>],
    /// True if something is before the tokens.
    pub before: bool,
}

/// What is written before what is left of patterns.
#[derive(Clone, Copy)]
pub enum Lead<'a, 't> {
    Letters(&'a str),
    Wild(Gap),
    Token(&'a Token<'t, ExpressionMetadata>, Sides),
}

impl<'a, 't> Left<'a, 't> {
    /// Returns what is left of tokens, of which the first one is taken apart.
    pub fn new(
        number: usize,
        tokens: &'a [Token<'t, ExpressionMetadata>],
        before: bool,
    ) -> Left<'a, 't>
        ensures number { result.number ≡ number }
        ensures means { AreSame (LeftMeans result) (MeansEach (trees tokens.now) before false) }
        ensures cost { left_cost result ≤ costs (trees tokens.now) + 2 }
    {
        if let [first, rest @ ..] = tokens {
            let sides = Sides {
                before,
                after: !rest.is_empty(),
            };
            if let Some((text, gap)) = spelt(first, sides) {
                return Left {
                    number,
                    text,
                    gap,
                    tokens: rest,
                    before: true,
                };
            }
        }
        Left {
            number,
            text: "",
            gap: Gap::Nothing,
            tokens,
            before,
        }
    }

    /// Returns what it begins with, and what is left after that: the first `len` bytes of the text, the
    /// wildcard, or a token. Returns `None` if it is only a wildcard.
    pub fn head(&self, len: usize) -> Option<(Lead<'a, 't>, Left<'a, 't>)>
        ensures { MatchOption result (AreSame (LeftMeans self.now) (GapMeans self.now.gap))
            (λ head. IsAfter head.0 self.now head.1) }
    {
        if !self.text.is_empty() {
            return Some(self.split_text(len));
        }
        let [first, rest @ ..] = self.tokens else {
            return None;
        };
        if let Gap::Nothing = self.gap {
            let sides = Sides {
                before: self.before,
                after: !rest.is_empty(),
            };
            let after = Left::new(self.number, rest, true);
            return Some((Lead::Token(first, sides), after));
        }
        let after = Left::new(self.number, self.tokens, self.before);
        Some((Lead::Wild(self.gap), after))
    }

    /// Parts the first `len` bytes of the text from what is left after them. If no character ends there,
    /// parts all of the text.
    fn split_text(&self, len: usize) -> (Lead<'a, 't>, Left<'a, 't>)
        ensures { IsAfter result.0 self.now result.1 }
    {
        match self.text.split_at_checked(len) {
            Some((text, rest)) => (Lead::Letters(text), self.with_text(rest)),
            None => (Lead::Letters(self.text), self.with_text("")),
        }
    }

    /// Returns what is left after the lead, if it begins with that and doesn't end there.
    pub fn after(&self, lead: Lead<'_, '_>) -> Option<Left<'a, 't>>
        ensures { IfSome result (λ after. IsAfter lead.entry self.now after) }
    {
        match lead {
            Lead::Letters(text) => self.after_text(text),
            Lead::Wild(gap) => self.after_gap(gap),
            Lead::Token(_, _) => None,
        }
    }

    fn after_text(&self, text: &str) -> Option<Left<'a, 't>>
        ensures { IfSome result (λ after. IsAfter (Lead.Letters text.entry) self.now after) }
    {
        let (front, rest) = self.text.split_at_checked(text.len())?;
        if front != text {
            return None;
        }
        Some(self.with_text(rest))
    }

    fn after_gap(&self, gap: Gap) -> Option<Left<'a, 't>>
        ensures { IfSome result (λ after. IsAfter (Lead.Wild gap) self.now after) }
    {
        if !self.text.is_empty() || self.tokens.is_empty() || !is_same(self.gap, gap) {
            return None;
        }
        Some(Left::new(self.number, self.tokens, self.before))
    }

    /// Returns what is left with this text in place of its own.
    fn with_text(&self, text: &'a str) -> Left<'a, 't>
        ensures number { result.number ≡ self.now.number }
        ensures means { AreSame (LeftMeans result) (LeftMeans (record self.now { text = text.entry })) }
        ensures cost { left_cost result ≤ left_cost (record self.now { text = text.entry }) }
    {
        if text.is_empty() && is_same(self.gap, Gap::Nothing) {
            return Left::new(self.number, self.tokens, self.before);
        }
        Left {
            number: self.number,
            text,
            gap: self.gap,
            tokens: self.tokens,
            before: self.before,
        }
    }
}

/// Returns the text and the wildcard that together match what the token does, if there are such.
fn spelt<'a, 't>(token: &'a Token<'t, ExpressionMetadata>, sides: Sides) -> Option<(&'a str, Gap)>
    ensures means { IfSome result (λ spelt.
        AreSame (SpeltMeans spelt.0.now spelt.1) (Means token.now sides.before sides.after)) }
    ensures cost { IfSome result (λ spelt.
        length (chars spelt.0.now) + length (gap_code spelt.1) ≤ cost token.now) }
{
    match token.as_leaf()? {
        LeafKind::Literal(literal) => {
            if literal.is_case_insensitive() {
                return None;
            }
            Some((literal.text(), Gap::Nothing))
        }
        LeafKind::Separator(_) => Some(("/", Gap::Nothing)),
        LeafKind::Wildcard(wildcard) => spelt_wildcard(*wildcard, sides),
        LeafKind::Class(_) => None,
    }
}

fn spelt_wildcard(wildcard: Wildcard, sides: Sides) -> Option<(&'static str, Gap)>
    ensures means { IfSome result (λ spelt. AreSame (SpeltMeans spelt.0.now spelt.1)
        (LeafMeans (wildcard_leaf wildcard) sides.before sides.after)) }
    ensures cost { IfSome result (λ spelt.
        length (chars spelt.0.now) + length (gap_code spelt.1) ≤ leaf_cost (wildcard_leaf wildcard)) }
{
    match wildcard {
        Wildcard::One => None,
        Wildcard::ZeroOrMore(_) => Some(("", Gap::Star)),
        Wildcard::Tree { has_root } => Some(spelt_tree(has_root, sides)),
    }
}

fn spelt_tree(has_root: bool, sides: Sides) -> (&'static str, Gap)
    ensures means { AreSame (SpeltMeans result.0.now result.1) (TreeMeans sides.before sides.after has_root) }
    ensures cost { length (chars result.0.now) + length (gap_code result.1) ≤ 6 }
{
    match (sides.before, sides.after) {
        (true, false) => ("", Gap::Below),
        (true, true) => ("/", Gap::Folders),
        (false, true) => (if has_root { "/" } else { "" }, Gap::Folders),
        (false, false) => (if has_root { "/" } else { "" }, Gap::Anything),
    }
}

/// Returns whether the wildcards are the same.
pub fn is_same(left: Gap, right: Gap) -> bool
    ensures { IsTrue result → left ≡ right }
{
    match (left, right) {
        (Gap::Nothing, Gap::Nothing) => true,
        (Gap::Star, Gap::Star) => true,
        (Gap::Folders, Gap::Folders) => true,
        (Gap::Below, Gap::Below) => true,
        (Gap::Anything, Gap::Anything) => true,
        (_, _) => false,
    }
}
