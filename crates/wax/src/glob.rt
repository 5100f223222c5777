//! Globs: an expression with its tokens, what they are compiled to, and the pieces by which it captures.
ghost use Rattle.std.specs.Prelude.{◌≡◌, ◌<◌, ◌≤◌, ◌↔◌, ◌+◌, ◌*◌, ◌++◌, ◌∷◌, [], ℕ, List, IsTrue, IfOk};
ghost use Rattle.std.specs.Prelude.{IfSome, MatchOption, None, Some, chars, encode_utf8_all, length, false};
ghost use Rattle.std.specs.Prelude.{min};
ghost use Rattle.wax_lazy.specs.Cost.{first_visits, path_visits};
ghost use Rattle.wax_program.specs.Meter.{most_ticks};
ghost use Rattle.wax_query.specs.Components.{Bare, BeginsWithSlash, component_total};
ghost use Rattle.wax_query.specs.{Ranges.{AtMost, bounds}, Variances.text_of};
ghost use Rattle.wax_query.specs.{declared.query.when.When.TheVariants.Always, Outcome.MatchBuild};
ghost use Rattle.wax_prefilter.specs.Below.{MeansBelow, goes_test};
ghost use Rattle.wax_components.specs.{Capturing.captures, Warnings.{has_semantic_literals, warnings}};
ghost use Rattle.wax_components.specs.Depth.{Depth};
ghost use Rattle.wax_facts.specs.{Exhaustive.exhaustive, InvariantText.{Text, Variant}, Root.root};
ghost use Rattle.wax_token.specs.{Cost.program_length, Decided.{means_test, means_tested}};
ghost use Rattle.wax_partition.specs.Partition.{spelled_rest};
ghost use Rattle.wax.specs.{GlobView.{HasCaptures, HasSpans, IsKept, IsMeant}, Partition.as_glob};

mod borrowed;
mod matcher;
mod owned;
mod parts;
mod pattern;
mod values;
mod walking;

pub use borrowed::GlobMatcher;
pub use owned::OwnedGlobMatcher;
use std::alloc::Global;
use std::borrow::CowStr;
use std::fmt;
use std::marker::Model;
pub use walking::{GlobWalk, UncapturedWalk};
use wax_capture::Pieces;
use wax_compare::{Compared, Criterion, Selector};
use wax_components::{Warning, captures, depth, diagnose, has_semantic_literals};
use wax_facts::{has_root, is_exhaustive, text};
use wax_lazy::HasProgram;
use wax_match::encode::{CompileError, CompiledProgram, Meter};
use wax_prefilter::CompiledTokens;
use wax_query::diagnostics::{NoMemory, Refusal, Span};
use wax_query::matching::{CandidatePath, MatchedText, Program};
use wax_query::query::{CapturingToken, DepthVariance, TextVariance, Variance, When};
use wax_rule::rule::Checked;
use wax_rule::{BuildError, parse_and_check};
use wax_token::token::{ExpressionMetadata, LeafKind, Token, Tokenized};

/// A glob, built from an expression by `Glob::new`. It implements `Program`, which has the calls
/// that match. Contracts see the characters of its expression and its tree.
///
/// ```
/// let glob = Glob::new(alloc, "src/**/*.{c,rs}")?;
/// let path = CandidatePath::from("src/net/tcp.c");
/// println!(rt; "{}", glob.is_match(alloc, &path)?)?; // true
/// if let Some(matched) = glob.matched(alloc, &path)? {
///     println!(rt; "{:?}", matched.get(2))?; // Some("tcp")
/// }
/// ```
pub struct Glob<'t> {
    checked: Checked<Tokenized<'t, ExpressionMetadata>>,
    compiled: CompiledTokens,
    pieces: Pieces,
}

// Written out, so that a crate that drops globs needn't prove again how their tokens are dropped.
impl Drop for Glob<'_> {
    fn drop(self) {
        let Glob {
            checked: _,
            compiled: _,
            pieces: _,
        } = self;
    }
}

impl<'t> Model for Glob<'t> {
    ghost use Rattle.std.specs.{Str.chars, Cow.cow_str_bytes};
    ghost use Rattle.wax.specs.GlobView.{GlobView, glob_code, IsCompiledGlob};

    ghost Value = { GlobView };

    ghost coded = { glob_code };

    ghost view = { λ g. record {
      expression = chars (cow_str_bytes g.checked.expression);
      tree = g.checked.token;
    } };

    ghost invariant = { λ g. IsCompiledGlob g.checked.token g.compiled g.pieces };
}

impl<'t> Glob<'t> {
    ghost use Rattle.wax.specs.{Build.{IsEmptyGlob, IsTreeGlob, build_of}, Headline.MatchGlob};
    ghost use Rattle.wax.specs.GlobView.{empty_tree};
    ghost use Rattle.wax_token.specs.Spelled.{LiesBetween};

    /// Builds a glob from an expression.
    ///
    /// ```
    /// let glob = Glob::new(alloc, "src/**/*.{c,rs}")?;
    /// println!(rt; "{}", glob.is_match(alloc, &CandidatePath::from("src/net/tcp.c"))?)?; // true
    /// if let Err(error) = Glob::new(alloc, "src//*.rs") {
    ///     println!(rt; "{}: {error}", error.number())?; // 2: malformed ..
    /// }
    /// ```
    ///
    /// # Errors
    ///
    /// Returns a `BuildError`: `Parse` (1) if the expression doesn't spell a glob, `Rule` (2 to 8)
    /// if it breaks a rule, `Compile` (9) if its program would have more than 1,048,576
    /// instructions, and `Memory` (10) if allocation fails.
    pub fn new(alloc: Global, expression: &'t str) -> Result<Glob<'t>, BuildError>
        ensures build { MatchGlob (chars expression.now) result }
        ensures spans { IfOk result (λ glob. LiesBetween 0 (length expression.now) glob.tree) }
    {
        let checked = match parse_and_check(alloc, expression) {
            Ok(checked) => checked,
            Err(error) => return Err(error),
        };
        Ok(compiled(alloc, checked)?)
    }

    /// Builds a glob from an expression, and returns it with its warnings.
    ///
    /// # Errors
    ///
    /// Returns the errors of `Glob::new`.
    pub fn diagnosed(
        alloc: Global,
        expression: &'t str,
    ) -> Result<(Glob<'t>, Vec<Warning<'t>>), BuildError>
        ensures glob { MatchGlob (chars expression.now) (build_of result) }
        ensures warnings { IfOk result (λ r. r.1.items ≡ warnings (chars expression.now) r.0.tree) }
    {
        let glob = Glob::new(alloc, expression)?;
        let warnings = diagnose(alloc, expression, glob.token())?;
        Ok((glob, warnings))
    }

    /// Builds the glob of the empty expression, which matches only the empty text.
    pub fn empty(alloc: Global) -> Result<Glob<'t>, NoMemory>
        ensures { IfOk result IsEmptyGlob }
    {
        match Glob::new(alloc, "") {
            Ok(glob) => Ok(glob),
            Err(_) => Err(NoMemory),
        }
    }

    /// Builds the glob of `**`, which matches every text.
    pub fn tree(alloc: Global) -> Result<Glob<'t>, NoMemory>
        ensures { IfOk result IsTreeGlob }
    {
        match Glob::new(alloc, "**") {
            Ok(glob) => Ok(glob),
            Err(_) => Err(NoMemory),
        }
    }

    /// Returns the expression from which the glob was built.
    pub fn expression(&self) -> &str
        ensures { chars result.now ≡ self.now.expression }
    {
        self.checked.as_ref().expression.as_str()
    }

    /// Returns whether this is the glob of the empty expression, which matches only the empty text.
    /// It doesn't allocate.
    pub fn is_empty(&self) -> bool
        ensures tree { IsTrue result ↔ (self.now.tree ≡ empty_tree) }
        ensures means { IsTrue result → (s : List ℕ) → IsMeant self.now s ↔ (s ≡ []) }
    {
        match self.token().as_leaf() {
            Some(LeafKind::Literal(literal)) => literal.text().is_empty(),
            _ => false,
        }
    }

    /// Returns the tokens that capture: each class, wildcard, alternation and repetition that isn't
    /// inside another token, numbered from 1, with its span in bytes.
    pub fn captures(&self, alloc: Global) -> Result<Vec<CapturingToken>, NoMemory>
        ensures { IfOk result (λ tokens. tokens.items ≡ captures self.now.tree) }
    {
        captures(alloc, self.token())
    }

    /// Returns where the captures of a path lie in it, each as its first byte and its number of bytes, in
    /// the order of `MatchedText::get` from 1 on, or `None` if the glob doesn't match the path. Takes as
    /// much time and memory as `matched`.
    ///
    /// ```
    /// let glob = Glob::new(alloc, "src/**/*.{c,rs}")?;
    /// let path = CandidatePath::from("src/net/tcp.c");
    /// println!(rt; "{:?}", glob.matched_spans(alloc, &path)?)?; // Some([(4, 4), (8, 3), (12, 1)])
    /// ```
    pub fn matched_spans(
        &self,
        alloc: Global,
        path: &CandidatePath<'_>,
    ) -> Result<Option<Vec<Span>>, NoMemory>
        ensures { IfOk result (λ found. MatchOption found (IsMeant self.now path.now → ⊥)
            (λ spans. IsMeant self.now path.now
            × HasSpans self.now (encode_utf8_all path.now) spans.items)) }
    {
        let text = path.as_str();
        if !self.compiled.may_match(text) {
            return Ok(None);
        }
        self.pieces.spans(alloc, text)
    }

    /// Returns the warnings: one for each component whose text is `.` or `..`, of the glob and then
    /// of its sub-globs, level by level, and a last one if the glob ends with a `/`.
    pub fn diagnose(&self, alloc: Global) -> Result<Vec<Warning<'_>>, NoMemory>
        ensures { IfOk result (λ ws. ws.items ≡ warnings self.now.expression self.now.tree) }
    {
        diagnose(alloc, self.expression(), self.token())
    }

    /// Returns whether the text of a component is `.` or `..`.
    pub fn has_semantic_literals(&self, alloc: Global) -> Result<bool, NoMemory>
        ensures { IfOk result (λ answer. answer ≡ has_semantic_literals self.now.tree) }
    {
        has_semantic_literals(alloc, self.token())
    }

    /// Returns whether the glob matches the whole path, and moves the meter by the number of instructions
    /// that its program visits: at most its length for each character and once more at the end. If the
    /// path matches, it is at least the number of characters. Most paths that don't match are rejected
    /// before the program is run, and move the meter by nothing.
    pub fn is_match_metered(
        &self,
        alloc: Global,
        path: &CandidatePath<'_>,
        meter: &mut Meter,
    ) -> Result<bool, NoMemory>
        ensures means { IfOk result (λ answer. IsTrue answer ↔ IsMeant self.now path.now) }
        ensures above { meter.new ≤ meter.old + program_length self.now.tree * (length path.now + 1) }
        ensures below { IfOk result
            (λ answer. IsTrue answer → min (meter.old + length path.now) most_ticks ≤ meter.new) }
        ensures steady { meter.old ≤ meter.new }
    {
        self.compiled.is_match_metered(alloc, path.as_str(), meter)
    }

    /// Returns whether something below the folder with this path can match: whether the glob matches
    /// the path of something below it. A watcher, a sync or a walk of one's own needs to look only
    /// into such folders. The empty path is the folder where paths begin.
    ///
    /// ```
    /// let glob = Glob::new(alloc, "src/*/tests/*.rs")?;
    /// for folder in ["src/net", "src/net/tests", "src/net/tests/a.rs", "doc"] {
    ///     let path = CandidatePath::from(folder);
    ///     println!(rt; "{}", glob.goes_on(alloc, &path)?)?; // true; true; false; false
    /// }
    /// ```
    ///
    /// Takes time in proportion to the program, for each character and to find what leads on. For many
    /// folders `GlobMatcher::goes_on` is faster.
    pub fn goes_on(&self, alloc: Global, path: &CandidatePath<'_>) -> Result<bool, NoMemory>
        ensures { IfOk result (λ answer. IsTrue answer ↔ MeansBelow self.now.tree path.now) }
    {
        let mut meter = Meter::new();
        self.goes_on_metered(alloc, path, &mut meter)
    }

    /// Returns what `goes_on` does, and moves the meter by the number of instructions that are visited to
    /// find what leads on, and along the path. Its bound is that of `GlobMatcher::verdict_metered`.
    pub fn goes_on_metered(
        &self,
        alloc: Global,
        path: &CandidatePath<'_>,
        meter: &mut Meter,
    ) -> Result<bool, NoMemory>
        ensures below { IfOk result (λ answer. IsTrue answer ↔ MeansBelow self.now.tree path.now) }
        ensures above { let size = program_length self.now.tree in
            meter.new ≤ meter.old + first_visits size None + path_visits size (length path.now) }
        ensures steady { meter.old ≤ meter.new }
    {
        self.compiled.goes_on_metered(alloc, path.as_str(), meter)
    }
}

impl<'t> Glob<'t> {
    /// Returns the token of the glob.
    fn token(&self) -> &Token<'t, ExpressionMetadata>
        ensures same { result.now ≡ self.now.tree }
        ensures kept { IsKept result.now }
        ensures fits { program_length result.now ≤ 1048576 }
    {
        &self.checked.as_ref().token
    }
}

// Compiles an expression that was read and checked.
fn compiled<'t>(
    alloc: Global,
    checked: Checked<Tokenized<'t, ExpressionMetadata>>,
) -> Result<Glob<'t>, Refusal<CompileError>>
    requires { IsKept checked.token }
    ensures glob { IfOk result (λ g. Some g ≡ as_glob (spelled_rest (Some checked.entry))) }
    ensures fits { MatchBuild result (λ g. program_length g.tree ≤ 1048576)
        (λ _. 1048576 < program_length checked.entry.token) }
{
    let token = &checked.as_ref().token;
    let compiled = CompiledTokens::of_token(alloc, token)?;
    let pieces = Pieces::new(alloc, token.concatenation())?;
    Ok(Glob {
        checked,
        compiled,
        pieces,
    })
}

impl fmt::Display for Glob<'_> {
    ghost output = { λ glob. Some (encode_utf8_all glob.expression) };

    fn fmt<W: fmt::Write>(&self, f: &mut fmt::Formatter<W>) -> fmt::Result {
        fmt::Display::fmt(self.expression(), f)
    }
}

impl Program for Glob<'_> {
    ghost means = { IsMeant };

    ghost decides = { λ glob. means_test glob.tree false false };

    ghost goes_on = { λ glob. goes_test glob.tree };

    ghost captured = { HasCaptures };

    ghost program_length = { λ glob. program_length glob.tree };

    ghost is_decided = { λ glob. means_tested glob.tree false false };

    fn is_match_counted(
        &self,
        alloc: Global,
        path: &CandidatePath<'_>,
    ) -> Result<(bool, u128), NoMemory> {
        self.compiled.is_match_counted(alloc, path.as_str())
    }

    fn matched_counted<'p>(
        &self,
        alloc: Global,
        path: &'p CandidatePath<'_>,
    ) -> Result<(Option<MatchedText<'p>>, u128), NoMemory> {
        let text = path.as_str();
        if !self.compiled.may_match(text) {
            return Ok((None, 0));
        }
        self.pieces.matched_counted(alloc, text)
    }

    /// Returns the least and the greatest number of components of the texts of its tree, where `*`,
    /// `$` and a class count as one character. It doesn't allocate, and takes time in proportion to
    /// the tree.
    fn depth(&self) -> DepthVariance
        ensures depth { Depth self.now.tree (bounds result) }
        ensures least { (s : List ℕ) → IsMeant self.now s → Bare s → (bounds result).0 ≤ component_total s }
        ensures greatest { (s : List ℕ) → IsMeant self.now s → AtMost (component_total s) (bounds result).1 }
    {
        depth(self.token())
    }

    /// Returns the only text that can match, if the expression is written as one text.
    fn text(&self, alloc: Global) -> Result<TextVariance<'static>, NoMemory>
        ensures exact { IfOk result (λ text. MatchOption (text_of text) (Variant self.now.tree) (λ t.
            Text self.now.tree (chars t))) }
        ensures only { IfOk result (λ text. IfSome (text_of text) (λ t. (s : List ℕ)
            → IsMeant self.now s → s ≡ chars t)) }
    {
        Ok(match text(alloc, self.token())? {
            Some(text) => Variance::Invariant(CowStr::Owned(text)),
            None => Variance::Variant(()),
        })
    }

    /// Returns whether every match begins with `/`, from the first token.
    fn has_root(&self) -> When
        ensures root { result ≡ root self.now.tree }
        ensures always { result ≡ Always → (s : List ℕ) → IsMeant self.now s → BeginsWithSlash s }
    {
        has_root(self.token())
    }

    /// Returns whether everything below a match matches too, from the last token.
    fn is_exhaustive(&self) -> When
        ensures exhaustive { result ≡ exhaustive self.now.tree }
        ensures always { result ≡ Always → (s r : List ℕ)
            → IsMeant self.now s → IsMeant self.now (s ++ 47 ∷ r) }
    {
        is_exhaustive(self.token())
    }
}

impl Compared for Glob<'_> {
    ghost selects = { IsMeant };

    fn selector(&self) -> Selector<'_> {
        Selector {
            program: self.compiled.program(),
            criterion: Criterion::Accepted,
        }
    }
}
