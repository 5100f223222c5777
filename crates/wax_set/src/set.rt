//! Sets of patterns: the alternation of their tokens, compiled, and a program that says which of them match.
ghost use Rattle.std.specs.Prelude.{◌≡◌, ◌≤◌, ◌<◌, ◌↔◌, ◌+◌, ◌*◌, ◌++◌, ◌∷◌, ℕ, List, IsTrue, chars, false};
ghost use Rattle.std.specs.Prelude.{[], IfOk, IfSome, MatchOption, None, Some, codes, length, min};
ghost use Rattle.wax_program.specs.{Closed.IsClosed, Machine.{Accepts, mark}, Meter.most_ticks};
ghost use Rattle.wax_lazy.specs.Cost.{first_visits, path_visits};
ghost use Rattle.wax_query.specs.{Components.{Bare, BeginsWithSlash, component_total}, Outcome.MatchBuild};
ghost use Rattle.wax_query.specs.{Ranges.{AtMost, bounds}, Variances.text_of};
ghost use Rattle.wax_query.specs.declared.query.when.When.TheVariants.{Always};
ghost use Rattle.wax_prefilter.specs.{Below.{MeansBelow, goes_test}, Compiled.IsCompiled};
ghost use Rattle.wax_components.specs.Depth.{Depth};
ghost use Rattle.wax_facts.specs.{Exhaustive.exhaustive, InvariantText.{Text, Variant}, Root.root};
ghost use Rattle.wax_token.specs.{Cost.program_length, Decided.{means_test, means_tested}};
ghost use Rattle.wax_token.specs.{Syntax.alternation, Words.trees};
ghost use Rattle.wax_set.specs.Sets.{AreMatches, BranchMeans, IsAlternation, IsNumbered, IsWhole, MeansText};
ghost use Rattle.wax_set.specs.Patterns.{LacksMemory};

mod borrowed;
mod conflicts;
mod edges;
mod matcher;
mod owned;
mod walking;

use crate::pattern::Pattern;
pub use borrowed::AnyMatcher;
pub use conflicts::Conflict;
use matcher::MOST_NUMBERED;
pub use owned::OwnedAnyMatcher;
use std::alloc::Global;
use std::borrow::CowStr;
use std::fmt;
use std::marker::Model;
pub use walking::SetWalk;
use wax_compare::{Compared, Criterion, Selector};
use wax_components::depth;
use wax_facts::{has_root, is_exhaustive, text};
use wax_lazy::{HasProgram, LazyDfa, Matcher, list_numbers_metered};
use wax_match::encode;
use wax_match::encode::{CompileError, CompiledProgram, Meter, Numbered};
use wax_prefilter::CompiledTokens;
use wax_query::diagnostics::{NoMemory, Refusal};
use wax_query::matching::{CandidatePath, MatchedText, Program};
use wax_query::query::{DepthVariance, TextVariance, Variance, When};
use wax_rule::BuildError;
use wax_rule::rule::Checked;
use wax_token::token::{BranchKind, ExpressionMetadata, Token};

/// The greatest number of patterns whose alternation is compiled as it is. With more, the states of its
/// program are large and many, since each pattern has its own beginning and its own end.
const MOST_ALTERNATED: usize = 32;

/// A set of patterns, which matches a path if one of its patterns does. `any` builds it. Contracts
/// see the alternation of their trees.
pub struct Any<'t> {
    token: Checked<Token<'t, ExpressionMetadata>>,
    compiled: CompiledTokens,
    /// The program that says which of the patterns match, with what earlier paths led to.
    numbered: Matcher<CompiledProgram>,
}

// Written out, so that a crate that drops sets needn't prove again how their tokens are dropped.
impl Drop for Any<'_> {
    fn drop(self) {
        let Any {
            token: _,
            compiled: _,
            numbered: _,
        } = self;
    }
}

impl<'t> Model for Any<'t> {
    ghost use Rattle.wax_set.specs.Sets.{IsCompiledAny, any_code};
    ghost use Rattle.wax_token.specs.{Reads.Span, Syntax.Tree};

    ghost Value = { Tree Span };

    ghost coded = { any_code };

    ghost view = { λ a. a.token };

    ghost invariant = { λ a. IsCompiledAny a.token a.compiled a.numbered };
}

/// Compiles an alternation into a set.
///
/// # Errors
///
/// Returns a `CompileError` (9) if the program would have more than 1,048,576 instructions, and
/// `Refusal::Memory` (10) if allocation fails.
pub(crate) fn compiled<'t>(
    alloc: Global,
    token: Checked<Token<'t, ExpressionMetadata>>,
) -> Result<Any<'t>, Refusal<CompileError>>
    requires { IsAlternation token }
    ensures same { IfOk result (λ any. any ≡ token.entry) }
    ensures fits { MatchBuild result (λ any. program_length any ≤ 1048576)
        (λ _. 1048576 < program_length token.entry) }
{
    let alternation = CompiledTokens::of_token(alloc, token.as_ref())?;
    let numbered = numbered_of(alloc, branches_of(token.as_ref()))?;
    let compiled = shared(alloc, token.as_ref(), alternation, &numbered)?;
    Ok(Any {
        token,
        compiled,
        numbered: Matcher::with_most(alloc, numbered, MOST_NUMBERED),
    })
}

/// Replaces the program of an alternation by that which numbers its patterns, without the numbers, if that
/// takes less time.
fn shared<'t>(
    alloc: Global,
    token: &Token<'t, ExpressionMetadata>,
    compiled: CompiledTokens,
    numbered: &CompiledProgram,
) -> Result<CompiledTokens, NoMemory>
    requires alternates { IsAlternation token.now }
    requires compiled { IsCompiled token.now compiled }
    requires numbers { IsNumbered token.now numbered.now.0 }
    ensures { IfOk result (IsCompiled token.now) }
{
    if !gains_by_sharing(token, numbered) {
        return Ok(compiled);
    }
    compiled.with_numbered(alloc, numbered)
}

/// Returns whether the program that numbers the patterns of an alternation, which share their beginnings and
/// their ends in it, takes less time than that of the alternation: there are many patterns, or it reads only
/// the last component of a path.
fn gains_by_sharing<'t>(token: &Token<'t, ExpressionMetadata>, numbered: &CompiledProgram) -> bool
    requires { IsAlternation token.now }
{
    branches_of(token).len() > MOST_ALTERNATED || LazyDfa::of(numbered).reads_last()
}

/// Compiles branches to a program that says which of them match, by their indexes.
fn numbered_of<'t>(
    alloc: Global,
    branches: &[Token<'t, ExpressionMetadata>],
) -> Result<CompiledProgram, NoMemory>
    ensures means { IfOk result (λ p. (number : ℕ) → (s : List ℕ)
        → Accepts p.0 0 (s ++ mark number ∷ []) ↔ BranchMeans (trees branches.now) number s) }
    ensures closed { IfOk result (λ p. IsClosed p.0) }
    ensures shorter { IfOk result
        (λ p. length p.0 < program_length (alternation (0, 0) (trees branches.now))) }
{
    let mut patterns = Vec::new(alloc);
    for (number, pattern) in branches.iter().enumerate() {
        patterns.push(Numbered { number, pattern })?;
    }
    encode::compile_numbered(alloc, &patterns)
}

/// Returns the branches of an alternation.
fn branches_of<'a, 't>(
    token: &'a Token<'t, ExpressionMetadata>,
) -> &'a [Token<'t, ExpressionMetadata>]
    requires { IsAlternation token.now }
    ensures { token.now ≡ alternation (0, 0) (trees result.now) }
{
    match token.as_branch() {
        Some(BranchKind::Alternation(alternation)) => alternation.tokens(),
        _ => unreachable!(),
    }
}

impl Any<'_> {
    /// Returns whether one of the patterns matches the whole path, and moves the meter by the number
    /// of instructions that the set's program visits: at most its length for each character and once
    /// more at the end. If the path matches, it is at least the number of characters. Most paths that
    /// don't match are rejected before the program is run, and move the meter by nothing.
    pub fn is_match_metered(
        &self,
        alloc: Global,
        path: &CandidatePath<'_>,
        meter: &mut Meter,
    ) -> Result<bool, NoMemory>
        ensures means { IfOk result (λ answer. IsTrue answer ↔ MeansText self.now path.now) }
        ensures above { meter.new ≤ meter.old + program_length self.now * (length path.now + 1) }
        ensures below { IfOk result
            (λ answer. IsTrue answer → min (meter.old + length path.now) most_ticks ≤ meter.new) }
        ensures steady { meter.old ≤ meter.new }
    {
        self.compiled.is_match_metered(alloc, path.as_str(), meter)
    }

    /// Returns the indexes of all patterns that match the whole path, ascending. The first pattern of
    /// those of which the set was built has the index 0. Takes time in proportion to the set's program
    /// for each character. For many paths `AnyMatcher::matches` is faster.
    ///
    /// ```
    /// use wax::any;
    ///
    /// let owners = any(alloc, vec![in alloc; "**/*.rs", "docs/**", "**/test*"]?)?;
    /// let path = CandidatePath::from("src/test.rs");
    /// println!(rt; "{:?}", owners.matches(alloc, &path)?)?; // [0, 2]
    /// ```
    pub fn matches(&self, alloc: Global, path: &CandidatePath<'_>) -> Result<Vec<usize>, NoMemory>
        ensures { IfOk result (λ indexes. AreMatches self.now path.now indexes.items) }
    {
        let mut meter = Meter::new();
        self.matches_metered(alloc, path, &mut meter)
    }

    /// Returns what `matches` does, and moves the meter by the number of instructions that are visited. Its
    /// bound is that of `AnyMatcher::matches_metered`. Most paths that don't match are rejected before, and
    /// move the meter by nothing.
    pub fn matches_metered(
        &self,
        alloc: Global,
        path: &CandidatePath<'_>,
        meter: &mut Meter,
    ) -> Result<Vec<usize>, NoMemory>
        ensures matches { IfOk result (λ indexes. AreMatches self.now path.now indexes.items) }
        ensures above { let size = program_length self.now in
            meter.new ≤ meter.old + path_visits size (length path.now) + size }
        ensures steady { meter.old ≤ meter.new }
    {
        let mut indexes = Vec::new(alloc);
        if self.may_match(path) {
            list_numbers_metered(
                alloc,
                self.numbered.holder(),
                path.as_str(),
                &mut indexes,
                meter,
            )?;
        }
        Ok(indexes)
    }

    /// Returns whether something below the folder with this path can match: whether one of the
    /// patterns matches the path of something below it. Takes time in proportion to the set's program,
    /// for each character and to find what leads on. For many folders `AnyMatcher::goes_on` is faster.
    pub fn goes_on(&self, alloc: Global, path: &CandidatePath<'_>) -> Result<bool, NoMemory>
        ensures { IfOk result (λ answer. IsTrue answer ↔ MeansBelow self.now path.now) }
    {
        let mut meter = Meter::new();
        self.goes_on_metered(alloc, path, &mut meter)
    }

    /// Returns what `goes_on` does, and moves the meter by the number of instructions that are visited to
    /// find what leads on, and along the path. Its bound is that of `AnyMatcher::verdict_metered`.
    pub fn goes_on_metered(
        &self,
        alloc: Global,
        path: &CandidatePath<'_>,
        meter: &mut Meter,
    ) -> Result<bool, NoMemory>
        ensures below { IfOk result (λ answer. IsTrue answer ↔ MeansBelow self.now path.now) }
        ensures above { let size = program_length self.now in
            meter.new ≤ meter.old + first_visits size None + path_visits size (length path.now) }
        ensures steady { meter.old ≤ meter.new }
    {
        self.compiled.goes_on_metered(alloc, path.as_str(), meter)
    }

    /// Returns `false` only if no pattern matches the path, by a quick test. It doesn't allocate.
    fn may_match(&self, path: &CandidatePath<'_>) -> bool
        ensures { MeansText self.now path.now → IsTrue result }
    {
        self.compiled.may_match(path.as_str())
    }

    /// Returns `false` only if no pattern matches the path, by a test that takes less time than a
    /// matcher. It doesn't allocate.
    fn may_match_quickly(&self, path: &CandidatePath<'_>) -> bool
        ensures { MeansText self.now path.now → IsTrue result }
    {
        self.compiled.may_accept(path.as_str())
    }
}

/// Prints `Any { .. }`, since a set has no expression.
impl fmt::Debug for Any<'_> {
    ghost debug_output = { λ _. Some (codes "Any { .. }") };

    fn fmt<W: fmt::Write>(&self, f: &mut fmt::Formatter<W>) -> fmt::Result {
        f.write_str("Any { .. }")
    }
}

impl Program for Any<'_> {
    ghost means = { MeansText };

    ghost decides = { λ any. means_test any false false };

    ghost goes_on = { λ any. goes_test any };

    ghost captured = { λ any. IsWhole };

    ghost program_length = { λ any. program_length any };

    ghost is_decided = { λ any. means_tested any false false };

    fn is_match_counted(
        &self,
        alloc: Global,
        path: &CandidatePath<'_>,
    ) -> Result<(bool, u128), NoMemory> {
        self.compiled.is_match_counted(alloc, path.as_str())
    }

    fn matched_counted<'p>(
        &self,
        alloc: Global,
        path: &'p CandidatePath<'_>,
    ) -> Result<(Option<MatchedText<'p>>, u128), NoMemory> {
        let text = path.as_str();
        let (is_match, visits) = self.compiled.is_match_counted(alloc, text)?;
        if !is_match {
            return Ok((None, visits));
        }
        let captures = vec![in alloc; (0, text.len())]?;
        Ok((Some(MatchedText::new(text, captures)), visits))
    }

    /// Returns the least and the greatest number of components of the texts of all branches, where
    /// `*`, `$` and a class count as one character; 0 if there is no branch. It doesn't allocate,
    /// and takes time in proportion to the branches.
    fn depth(&self) -> DepthVariance
        ensures depth { Depth self.now (bounds result) }
        ensures least { (s : List ℕ) → MeansText self.now s → Bare s → (bounds result).0 ≤ component_total s }
        ensures greatest { (s : List ℕ) → MeansText self.now s
            → AtMost (component_total s) (bounds result).1 }
    {
        depth(self.token.as_ref())
    }

    /// Returns the only text that can match, if every branch is written as this text; the empty
    /// text if there is no branch.
    fn text(&self, alloc: Global) -> Result<TextVariance<'static>, NoMemory>
        ensures exact { IfOk result (λ text. MatchOption (text_of text) (Variant self.now) (λ t.
            Text self.now (chars t))) }
        ensures only { IfOk result (λ text. IfSome (text_of text) (λ t. (s : List ℕ)
            → MeansText self.now s → s ≡ chars t)) }
    {
        Ok(match text(alloc, self.token.as_ref())? {
            Some(text) => Variance::Invariant(CowStr::Owned(text)),
            None => Variance::Variant(()),
        })
    }

    /// Returns whether every match begins with `/`, from the first tokens of the branches; `Never`
    /// if there is no branch.
    fn has_root(&self) -> When
        ensures root { result ≡ root self.now }
        ensures always { result ≡ Always → (s : List ℕ) → MeansText self.now s → BeginsWithSlash s }
    {
        has_root(self.token.as_ref())
    }

    /// Returns whether everything below a match matches too, from the last tokens of the branches;
    /// `Never` if there is no branch.
    fn is_exhaustive(&self) -> When
        ensures exhaustive { result ≡ exhaustive self.now }
        ensures always { result ≡ Always → (s r : List ℕ)
            → MeansText self.now s → MeansText self.now (s ++ 47 ∷ r) }
    {
        is_exhaustive(self.token.as_ref())
    }
}

impl Compared for Any<'_> {
    ghost selects = { MeansText };

    fn selector(&self) -> Selector<'_> {
        Selector {
            program: self.compiled.program(),
            criterion: Criterion::Accepted,
        }
    }
}

impl<'t> Pattern for Any<'t> {
    ghost spells = { λ any t. t ≡ any };

    ghost refuses = { λ any. LacksMemory };

    fn into_checked(
        self,
        alloc: Global,
    ) -> Result<Checked<Token<'static, ExpressionMetadata>>, BuildError> {
        let Any {
            token,
            compiled: _,
            numbered: _,
        } = self;
        Ok(token.into_owned(alloc)?)
    }
}
