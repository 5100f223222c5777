//! Tokens: the syntax tree of a glob.
ghost use Rattle.std.specs.Prelude.{◌≡◌, ◌↔◌, ◌+◌, ◌^◌, ◌<◌, ℕ, Bool, List, IsSome, IfSome, true, false, []};
ghost use Rattle.std.specs.{Prelude.◌∷◌, Str.chars, Cow.cow_str_bytes};
ghost use Rattle.wax_query.specs.Ranges.{ordered, range_of};
ghost use Rattle.wax_token.specs.{Syntax.leaf, Words.{members, trees, is_leaf_tree, annotation_of}};

use std::borrow::CowStr;
use std::marker::Model;
use wax_query::diagnostics::Span;
use wax_query::query::NaturalRange;

mod boundary;
mod composition;
mod copied;
mod kinds;
mod leaves;
mod made;
mod members;
mod owned;
mod same;
mod sides;
mod tree;

pub use boundary::Boundary;
pub use composition::{Composition, TokenComposition};
pub use made::{new_branch, new_leaf};
pub use sides::Sides;
pub use tree::{ConcatenationTree, TokenTree};

/// The root `/`, as an expression writes it.
pub const ROOT_SEPARATOR_EXPRESSION: &str = "/";

/// The shape of a token: a branch, which contains tokens, or a leaf.
#[derive(Clone, Debug, Drop, Eq, PartialEq)]
pub enum Topology<B, L> {
    Branch(B),
    Leaf(L),
}

/// The shape of a token, with its kind of branch or leaf.
pub type TokenTopology<'t, A> = Topology<BranchKind<'t, A>, LeafKind<'t>>;

/// A token of a glob, with an annotation such as its span. Contracts see it as a plain tree.
#[derive(Debug)]
#[cycle(token)]
pub struct Token<'t, A> {
    topology: TokenTopology<'t, A>,
    annotation: A,
}

impl<'t, A: Drop> Drop for Token<'t, A> {
    #[cycle(token)]
    fn drop(self) {
        let Token {
            topology: _,
            annotation: _,
        } = self;
    }
}

impl<'t, A> Model for Token<'t, A> {
    ghost use Rattle.wax_token.specs.Syntax.{Tree};

    ghost Value = { Tree A };

    ghost use Rattle.wax_token.specs.TreeCode.{tree_code};

    ghost coded = { tree_code A.code };

    ghost use Rattle.wax_token.specs.View.{topology_tree};

    ghost view = { λ t. topology_tree t.topology t.annotation };

    ghost use Rattle.wax_token.specs.Syntax.{tree_size};

    ghost size = { tree_size };

    ghost use Rattle.wax_token.specs.TreeFalls.{deep_le};

    ghost size_decreases = { λ a h. deep_le a.topology a.annotation };
}

/// A token that contains tokens.
#[derive(Debug, Drop)]
#[cycle(token)]
pub enum BranchKind<'t, A> {
    Alternation(Alternation<'t, A>),
    Concatenation(Concatenation<'t, A>),
    Repetition(Repetition<'t, A>),
}

/// `{..,..}`: matches what one of its branches matches.
#[derive(Debug, Drop)]
#[cycle(token)]
pub struct Alternation<'t, A> {
    pub tokens: Vec<Token<'t, A>>,
}

impl<'t, A> Alternation<'t, A> {
    /// Returns the branches in order.
    pub fn tokens(&self) -> &[Token<'t, A>]
        ensures { result.now ≡ self.now.tokens.items }
    {
        self.tokens.as_slice()
    }
}

/// The tokens of a glob or a sub-glob, matched one after another.
#[derive(Debug, Drop)]
#[cycle(token)]
pub struct Concatenation<'t, A> {
    pub tokens: Vec<Token<'t, A>>,
}

impl<'t, A> Concatenation<'t, A> {
    /// Returns the tokens in order.
    pub fn tokens(&self) -> &[Token<'t, A>]
        ensures { result.now ≡ self.now.tokens.items }
    {
        self.tokens.as_slice()
    }
}

/// `<..:n,m>`: matches from `lower` to `upper` copies of its sub-glob. If `upper` is `None`, there
/// is no limit.
#[derive(Debug, Drop)]
#[cycle(token)]
pub struct Repetition<'t, A> {
    pub token: Box<Token<'t, A>>,
    pub lower: usize,
    pub upper: Option<usize>,
}

impl<'t, A> Repetition<'t, A> {
    /// Returns the sub-glob that is repeated.
    pub fn token(&self) -> &Token<'t, A>
        ensures { result.now ≡ self.now.token.value }
    {
        &self.token
    }

    /// Returns the least and the greatest number of copies, as the expression states them. `None`
    /// is no limit.
    pub fn bound_specification(&self) -> (usize, Option<usize>)
        ensures { result ≡ (self.now.lower, self.now.upper) }
    {
        (self.lower, self.upper)
    }

    /// Returns the number of copies as a range. Reversed bounds are put in order.
    pub fn variance(&self) -> NaturalRange
        ensures { result ≡ range_of (ordered self.now.lower self.now.upper) }
    {
        let (lower, upper) = self.bound_specification();
        NaturalRange::from_closed_and_open(lower, upper)
    }
}

/// A token that contains no tokens.
#[derive(Clone, Debug, Drop)]
pub enum LeafKind<'t> {
    Class(Class),
    Literal(Literal<'t>),
    Separator(Separator),
    Wildcard(Wildcard),
}

/// A member of a class: a character, or all characters from the first to the second, inclusive.
#[derive(Clone, Copy, Debug)]
pub enum Archetype {
    Character(char),
    Range(char, char),
}

/// `[..]` or `[!..]`: matches one character other than `/` that is in one of the archetypes, or in
/// none of them if the class is negated. A class with a reversed range matches nothing. Contracts
/// see the negation and the archetypes as a pair.
#[derive(Clone, Debug, Drop)]
pub struct Class {
    is_negated: bool,
    archetypes: Vec<Archetype>,
}

impl Model for Class {
    ghost use Rattle.std.specs.Prelude.{Bool, List};
    ghost use Rattle.wax_token.specs.declared.token.Archetype.{Archetype};

    ghost Value = { Bool × List Archetype };

    ghost view = { λ c. (c.is_negated, c.archetypes.items) };
}

impl Class {
    /// Creates the class of these archetypes, or of all other characters if `is_negated`.
    pub fn new(is_negated: bool, archetypes: Vec<Archetype>) -> Self
        ensures { result ≡ (is_negated, archetypes.items) }
    {
        Class {
            is_negated,
            archetypes,
        }
    }

    /// Returns the archetypes in the order in which they are written.
    pub fn archetypes(&self) -> &[Archetype]
        ensures { result.now ≡ self.now.1 }
    {
        self.archetypes.as_slice()
    }

    /// Returns whether the class begins with `!`.
    pub fn is_negated(&self) -> bool
        ensures { result ≡ self.now.0 }
    {
        self.is_negated
    }
}

/// A run of ordinary characters. It matches these, or with the flag `i` any characters with the
/// same simple case folding. The text is without the backslashes of escaped characters. Contracts
/// see the flag and the characters as a pair.
#[derive(Clone, Debug, Drop)]
pub struct Literal<'t> {
    text: CowStr<'t>,
    is_case_insensitive: bool,
}

impl<'t> Model for Literal<'t> {
    ghost Value = { Bool × List ℕ };

    ghost view = { λ l. (l.is_case_insensitive, chars (cow_str_bytes l.text)) };
}

impl<'t> Literal<'t> {
    /// Creates a literal that matches `text` as it is: a backslash in it escapes nothing.
    pub fn new(text: CowStr<'t>, is_case_insensitive: bool) -> Self
        ensures { result ≡ (is_case_insensitive, chars (cow_str_bytes text.entry)) }
    {
        Literal {
            text,
            is_case_insensitive,
        }
    }

    /// Returns the text without its escapes: for `a\*b` it is `a*b`.
    pub fn text(&self) -> &str
        ensures { chars result.now ≡ self.now.1 }
    {
        self.text.as_str()
    }

    /// Returns whether the flag `i` holds for the literal.
    pub fn is_case_insensitive(&self) -> bool
        ensures { result ≡ self.now.0 }
    {
        self.is_case_insensitive
    }
}

/// `/`, which separates components.
#[derive(Clone, Copy, Debug)]
pub struct Separator;

/// Which piece a wildcard captures: the longest possible (`*`) or the shortest (`$`).
#[derive(Clone, Copy, Debug, Eq, PartialEq)]
pub enum Evaluation {
    Eager,
    Lazy,
}

/// `?`, `*`, `$` or `**`. For the tree wildcard `**`, `has_root` says whether a `/` is written
/// before it.
#[derive(Clone, Copy, Debug)]
pub enum Wildcard {
    /// `?`: one character other than `/`.
    One,
    /// `*` or `$`: zero or more characters other than `/`.
    ZeroOrMore(Evaluation),
    /// `**`: zero or more components.
    Tree { has_root: bool },
}

/// The annotation of a parsed token: its span in the expression. Contracts see the span.
#[derive(Clone, Copy, Debug)]
pub struct ExpressionMetadata {
    span: Span,
}

impl Model for ExpressionMetadata {
    ghost use Rattle.std.specs.Prelude.{ℕ, ◌+◌, ◌^◌, ◌<◌};

    ghost Value = { ℕ × ℕ };

    ghost view = { λ m. m.span };

    ghost invariant = { λ m. m.span.0 + m.span.1 < 2 ^ 64 };

    ghost inverse = { λ s. record { span = s } };
}

impl ExpressionMetadata {
    /// Creates the metadata of a token with this span, whose end has to fit in 64 bits.
    pub fn new(span: Span) -> Self
        requires { span.0 + span.1 < 2 ^ 64 }
        ensures { result ≡ span }
    {
        ExpressionMetadata { span }
    }

    /// Returns the token's span in bytes, which begins with the flags before the token.
    pub fn span(&self) -> Span
        ensures span { result ≡ self.now }
        ensures fits { self.now.0 + self.now.1 < 2 ^ 64 }
    {
        self.span
    }
}

/// An expression, and the token that it was parsed to.
#[derive(Debug)]
pub struct Tokenized<'t, A> {
    pub expression: CowStr<'t>,
    pub token: Token<'t, A>,
}

// Written out, so that crates that drop these don't have to prove again how tokens are dropped.
impl<'t, A: Drop> Drop for Tokenized<'t, A> {
    fn drop(self) {
        let Tokenized {
            expression: _,
            token: _,
        } = self;
    }
}

impl<'t, A> Tokenized<'t, A> {
    /// Returns the expression as it was written.
    pub fn expression(&self) -> &CowStr<'t>
        ensures { result.now ≡ self.now.expression }
    {
        &self.expression
    }

    pub fn as_token(&self) -> &Token<'t, A>
        ensures { result.now ≡ self.now.token }
    {
        &self.token
    }

    /// Splits the value into the expression and the token.
    pub fn into_parts(self) -> (CowStr<'t>, Token<'t, A>)
        ensures { result ≡ (self.entry.expression, self.entry.token) }
    {
        let Tokenized { expression, token } = self;
        (expression, token)
    }

    /// Returns the token, and drops the expression.
    pub fn into_token(self) -> Token<'t, A>
        ensures { result ≡ self.entry.token }
    {
        let (_, token) = self.into_parts();
        token
    }
}

/// A type with which tokens can be annotated.
pub trait Annotation: Sized {
    /// Returns a list of only this token.
    fn lone<'i, 't>(token: &'i Token<'t, Self>) -> &'i [Token<'t, Self>]
        ensures { result.now ≡ token.now ∷ [] };
}

impl Annotation for () {
    fn lone<'i, 't>(token: &'i Token<'t, ()>) -> &'i [Token<'t, ()>] {
        std::slice::from_ref(token)
    }
}

impl Annotation for ExpressionMetadata {
    fn lone<'i, 't>(
        token: &'i Token<'t, ExpressionMetadata>,
    ) -> &'i [Token<'t, ExpressionMetadata>] {
        std::slice::from_ref(token)
    }
}

impl<'t, A> Token<'t, A> {
    ghost use Rattle.wax_token.specs.View.{leaf_of, branch_tree, topology_tree};

    /// Returns what the token is annotated with: after parsing, its span.
    pub fn annotation(&self) -> &A
        ensures { result.now ≡ annotation_of self.now }
    {
        &self.annotation
    }

    /// Returns the token's shape, to be matched on.
    pub fn topology(&self) -> &TokenTopology<'t, A>
        ensures { topology_tree result.now (annotation_of self.now) ≡ self.now }
    {
        &self.topology
    }

    /// Returns the token as a branch, or `None` for a leaf.
    pub fn as_branch(&self) -> Option<&BranchKind<'t, A>>
        ensures kind { IsSome result ↔ (is_leaf_tree self.now ≡ false) }
        ensures some { IfSome result (λ b. self.now ≡ branch_tree b.now (annotation_of self.now)) }
    {
        match &self.topology {
            Topology::Branch(branch) => Some(branch),
            Topology::Leaf(_) => None,
        }
    }

    /// Returns the token as a leaf, or `None` for a branch.
    pub fn as_leaf(&self) -> Option<&LeafKind<'t>>
        ensures kind { IsSome result ↔ (is_leaf_tree self.now ≡ true) }
        ensures some { IfSome result (λ l. self.now ≡ leaf (annotation_of self.now) (leaf_of l.now)) }
    {
        match &self.topology {
            Topology::Branch(_) => None,
            Topology::Leaf(leaf) => Some(leaf),
        }
    }
}

impl<'t, A: Annotation> Tokenized<'t, A> {
    /// Returns the tokens of the glob in order: those of its concatenation, or its only token.
    pub fn concatenation(&self) -> &[Token<'t, A>]
        ensures { trees result.now ≡ members self.now.token }
    {
        self.token.concatenation()
    }
}

impl<'t, A: Annotation> Token<'t, A> {
    /// Returns the tokens of a concatenation in order. For any other token, returns a list of only
    /// it.
    pub fn concatenation(&self) -> &[Self]
        ensures { trees result.now ≡ members self.now }
    {
        if let Topology::Branch(branch) = &self.topology {
            if let BranchKind::Concatenation(c) = branch {
                return c.tokens.as_slice();
            }
        }
        A::lone(self)
    }
}
