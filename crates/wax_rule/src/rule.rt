//! The rules that reject expressions which would match other paths than their authors expect.
ghost use Rattle.std.specs.Prelude.{◌≡◌, ◌∷◌, ◌++◌, ◌<◌, [], ℕ, Bool, IfOk, None, chars, codes};
ghost use Rattle.std.specs.{Cow.cow_str_bytes, List.flat_map, Option.option_or};
ghost use Rattle.wax_token.specs.Words.{trees};
ghost use Rattle.wax_query.specs.Outcome.{MatchBuild};
ghost use Rattle.wax_facts.specs.{Situated.breadth_first, Rules.{broken, break_here, size_breaks}};
ghost use Rattle.wax_rule.specs.FirstBreak.{TellsFirst, head_of, breaks_of, shape_breaks, oversized_among};
ghost use Rattle.wax_rule.specs.{FirstBreak.{oversized_in, oversized_inside}, Keeping.KeepsRules};

mod boundary;
mod bounds;
mod branch;
mod checked_tokens;
mod natural;
mod situated;
pub(crate) mod size;

use crate::rule::boundary::boundary_break;
use crate::rule::bounds::bounds_break;
use crate::rule::branch::branch_break;
use crate::rule::situated::{Situated, breadth_first};
use crate::rule::size::is_oversized;
pub use checked_tokens::{RuledTree, already_checked};
use std::alloc::{AllocError, Global};
use std::borrow::CowStr;
use std::fmt::{self, Display, Formatter};
use std::marker::Model;
use wax_facts::Break;
pub use wax_facts::RuleErrorKind;
use wax_query::diagnostics::{CompositeSpan, NoMemory, Refusal, Span};
use wax_token::token::{BranchKind, ExpressionMetadata, Token, Tokenized, Topology};

/// The first rule that an expression breaks, and the place (errors 2 to 8). Its `Display` form
/// describes the rule. Contracts see the rule, the place and the characters of the expression.
#[derive(Clone, Debug)]
pub struct RuleError<'t> {
    expression: CowStr<'t>,
    kind: RuleErrorKind,
    location: CompositeSpan,
}

// Written out, so that crates that drop these don't have to prove again how places are dropped.
impl Drop for RuleError<'_> {
    fn drop(self) {
        let RuleError {
            expression: _,
            kind: _,
            location: _,
        } = self;
    }
}

impl<'t> Model for RuleError<'t> {
    ghost use Rattle.std.specs.{Str.chars, Cow.cow_str_bytes};
    ghost use Rattle.wax_rule.specs.FirstBreak.{ErrorView};

    ghost Value = { ErrorView };

    ghost view = { λ e. record {
      kind = e.kind;
      location = e.location;
      expression = chars (cow_str_bytes e.expression);
    } };
}

impl<'t> RuleError<'t> {
    /// Returns which rule is broken.
    pub fn kind(&self) -> RuleErrorKind
        ensures { result ≡ self.now.kind }
    {
        self.kind
    }

    /// Returns the places of the error. There is exactly one, with the places that explain it.
    pub fn locations(&self) -> &[CompositeSpan]
        ensures { result.now ≡ self.now.location ∷ [] }
    {
        std::slice::from_ref(&self.location)
    }

    /// Returns the whole expression that breaks the rule.
    pub fn expression(&self) -> &str
        ensures { chars result.now ≡ self.now.expression }
    {
        self.expression.as_str()
    }

    /// Converts the error to one that owns its expression. Copies the expression if it is borrowed.
    pub fn into_owned(self, alloc: Global) -> Result<RuleError<'static>, NoMemory>
        ensures { IfOk result (λ e. e ≡ self.entry) }
    {
        let RuleError {
            expression,
            kind,
            location,
        } = self;
        let expression = CowStr::Owned(expression.into_owned(alloc)?);
        Ok(RuleError {
            expression,
            kind,
            location,
        })
    }
}

impl Display for RuleError<'_> {
    fn fmt<W: fmt::Write>(&self, f: &mut Formatter<W>) -> fmt::Result {
        Display::fmt(&self.kind, f)
    }
}

/// A type whose values can keep the rules: a token, or an expression with its token.
pub trait Ruled {
    /// The value keeps the rules.
    ghost keeps_rules: { Self → Type 0 };
}

impl<'t> Ruled for Token<'t, ExpressionMetadata> {
    ghost keeps_rules = { KeepsRules };
}

impl<'t> Ruled for Tokenized<'t, ExpressionMetadata> {
    ghost keeps_rules = { λ tokenized. KeepsRules tokenized.token };
}

/// Tokens that keep the rules: they passed `check`, or were combined from such tokens. Contracts
/// see it as its content.
#[derive(Debug, Drop)]
pub struct Checked<T: Ruled> {
    inner: T,
}

impl<T: Ruled> Model for Checked<T> {
    ghost Value = { T };

    ghost view = { λ c. c.inner };

    ghost inverse = { λ t. record { inner = t } };

    ghost invariant = { λ c. T.keeps_rules c.inner };
}

impl<T: Ruled + Copy> Clone for Checked<T> {
    fn clone(&self) -> Result<Self, AllocError> {
        Ok(*self)
    }
}

impl<T: Ruled + Copy> Copy for Checked<T> {}

impl<T: Ruled> Checked<T> {
    /// Returns what was checked.
    pub fn release(self) -> T
        ensures same { result ≡ self }
        ensures rules { T.keeps_rules result }
    {
        self.inner
    }
}

/// Builds a break at one place, which no other place explains.
fn break_here(kind: RuleErrorKind, span: Span) -> Break
    ensures { result ≡ break_here kind span }
{
    Break {
        kind,
        location: CompositeSpan::spanned("here", span),
    }
}

/// A rule, or several that look at one kind of token.
#[derive(Clone, Copy)]
enum Rule {
    Boundary,
    Bounds,
    Branch,
}

/// Returns the first break of a rule at a token.
fn first_break(rule: Rule, token: &Situated<'_, '_>) -> Option<Break>
    ensures { result ≡ head_of (breaks_of rule token.now) }
{
    match rule {
        Rule::Boundary => boundary_break(token.token()),
        Rule::Bounds => bounds_break(token.token()),
        Rule::Branch => branch_break(token),
    }
}

/// Finds the first break of the rule.
fn find_rule_break(rule: Rule, row: &[Situated<'_, '_>]) -> Option<Break>
    ensures { result ≡ head_of (flat_map (breaks_of rule) row.now) }
{
    for token in row {
        if let Some(found) = first_break(rule, token) {
            return Some(found);
        }
    }
    None
}

/// Finds the first break of any rule but that of sizes, in the order of the rules.
fn find_shape_break(row: &[Situated<'_, '_>]) -> Option<Break>
    ensures { result ≡ head_of (shape_breaks row.now) }
{
    find_rule_break(Rule::Boundary, row)
        .or(find_rule_break(Rule::Bounds, row))
        .or(find_rule_break(Rule::Branch, row))
}

/// Returns the break of the rule of sizes at this token itself, not inside it.
fn size_break<'t>(
    alloc: Global,
    token: &Token<'t, ExpressionMetadata>,
) -> Result<Option<Break>, AllocError>
    ensures { IfOk result (λ found. found ≡ head_of (size_breaks token.now)) }
{
    if is_oversized(alloc, token)? {
        let span = token.annotation().span();
        return Ok(Some(break_here(RuleErrorKind::OversizedInvariant, span)));
    }
    Ok(None)
}

/// Finds the first of the tokens that is too large.
fn find_oversized_among<'t>(
    alloc: Global,
    tokens: &[Token<'t, ExpressionMetadata>],
) -> Result<Option<Break>, AllocError>
    ensures { IfOk result (λ found. found ≡ head_of (oversized_among (trees tokens.now))) }
{
    for token in tokens {
        if let Some(found) = size_break(alloc, token)? {
            return Ok(Some(found));
        }
    }
    Ok(None)
}

/// Finds the first of the tokens that this one contains, at the next level, that is too large.
fn find_oversized_in<'t>(
    alloc: Global,
    token: &Token<'t, ExpressionMetadata>,
) -> Result<Option<Break>, AllocError>
    ensures { IfOk result (λ found. found ≡ head_of (oversized_in token.now)) }
{
    match token.topology() {
        Topology::Branch(branch) => match branch {
            BranchKind::Alternation(a) => find_oversized_among(alloc, a.tokens.as_slice()),
            BranchKind::Concatenation(c) => find_oversized_among(alloc, c.tokens.as_slice()),
            BranchKind::Repetition(r) => size_break(alloc, &r.token),
        },
        Topology::Leaf(_) => Ok(None),
    }
}

/// Finds the first token that is too large inside one of the row.
fn find_oversized(alloc: Global, row: &[Situated<'_, '_>]) -> Result<Option<Break>, AllocError>
    ensures { IfOk result (λ found. found ≡ head_of (oversized_inside row.now)) }
{
    for token in row {
        if let Some(found) = find_oversized_in(alloc, token.token())? {
            return Ok(Some(found));
        }
    }
    Ok(None)
}

/// Finds the first token of a glob that is too large, the whole glob first. `row` lists all tokens
/// that contain tokens.
fn find_size_break<'t>(
    alloc: Global,
    whole: &Token<'t, ExpressionMetadata>,
    row: &[Situated<'_, '_>],
) -> Result<Option<Break>, AllocError>
    ensures { IfOk result (λ found. found
        ≡ option_or (head_of (size_breaks whole.now)) (head_of (oversized_inside row.now))) }
{
    match size_break(alloc, whole)? {
        Some(found) => Ok(Some(found)),
        None => find_oversized(alloc, row),
    }
}

/// Finds the first break of any rule in a token, at any depth. Leaves can only be too large. Sizes
/// are computed only if no other rule is broken.
fn find_break_in_tree<'t>(
    alloc: Global,
    token: &Token<'t, ExpressionMetadata>,
) -> Result<Option<Break>, AllocError>
    ensures { IfOk result (λ found. found ≡ head_of (broken token.now)) }
{
    let row = breadth_first(alloc, token)?;
    match find_shape_break(row.as_slice()) {
        Some(found) => Ok(Some(found)),
        None => find_size_break(alloc, token, row.as_slice()),
    }
}

/// Checks the rules, and returns the tokens unchanged if they break none.
///
/// Allocates a list of all tokens that contain tokens. Takes time proportional to the number of
/// tokens and to how deep they nest.
///
/// # Errors
///
/// Returns `Refusal::Refused` with the first rule that is broken (errors 2 to 8) at its first
/// place, and `Refusal::Memory` if allocation fails.
pub fn check<'t>(
    alloc: Global,
    tokenized: Tokenized<'t, ExpressionMetadata>,
) -> Result<Checked<Tokenized<'t, ExpressionMetadata>>, Refusal<RuleError<'t>>>
    ensures kept { IfOk result (λ t. t ≡ tokenized.entry) }
    ensures rules { MatchBuild result (λ t. broken t.token ≡ []) (TellsFirst (broken tokenized.entry.token)) }
    ensures expression { MatchBuild result (λ _. Unit {0})
        (λ e. e.expression ≡ chars (cow_str_bytes tokenized.entry.expression)) }
{
    let Some(found) = find_break_in_tree(alloc, &tokenized.token)? else {
        return Ok(Checked { inner: tokenized });
    };
    let (expression, _) = tokenized.into_parts();
    Err(Refusal::Refused(RuleError {
        expression,
        kind: found.kind,
        location: found.location,
    }))
}
