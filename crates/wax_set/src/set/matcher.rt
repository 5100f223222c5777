//! A matcher of one set of patterns for many paths.
ghost use Rattle.std.specs.Prelude.{◌≡◌, ◌+◌, ◌≤◌, ◌↔◌, None, IfOk, IsTrue, false, length};
ghost use Rattle.wax_set.specs.Sets.{AreMatches, MeansText};
ghost use Rattle.wax_lazy.specs.Cost.{first_visits, path_visits};
ghost use Rattle.wax_prefilter.specs.Below.{MeansBelow, goes_test, goes_tested};
ghost use Rattle.wax_query.specs.Parts.{NoLineEndsBefore};
ghost use Rattle.wax_token.specs.{Cost.program_length, Decided.{means_test, means_tested}, Reads.Span};
ghost use Rattle.wax_token.specs.Syntax.{Tree};

use std::alloc::Global;
use std::marker::Model;
use wax_match::encode::Meter;
use wax_query::diagnostics::NoMemory;
use wax_query::matching::{CandidatePath, PathMatcher};
use wax_query::query::Verdict;

/// How many bytes of earlier paths are kept at most to say which patterns match, about.
pub(crate) const MOST_NUMBERED: usize = 16_777_216;

/// A set of patterns with what earlier paths led to, which decides further paths with the help of that.
pub trait CachedSet: Drop {
    // The alternation of the trees of the patterns.
    ghost tree: { Self → Tree Span };

    /// Returns whether one of the patterns matches the whole path.
    fn is_match_cached(
        &mut self,
        _alloc: Global,
        path: &CandidatePath<'_>,
        meter: &mut Meter,
    ) -> Result<bool, NoMemory>
        ensures means { IfOk result (λ answer. IsTrue answer ↔ MeansText (tree self.old) path.now) }
        ensures same { tree self.new ≡ tree self.old }
        ensures above { let size = program_length (tree self.old) in
            meter.new ≤ meter.old + path_visits size (length path.now) }
        ensures steady { meter.old ≤ meter.new };

    /// Writes the indexes of all patterns that match the whole path into a list, ascending, in place of
    /// what was in it.
    fn list_matches(
        &mut self,
        path: &CandidatePath<'_>,
        indexes: &mut Vec<usize>,
        meter: &mut Meter,
    ) -> Result<(), NoMemory>
        ensures matches { IfOk result (λ _. AreMatches (tree self.old) path.now indexes.new.items) }
        ensures same { tree self.new ≡ tree self.old }
        ensures above { let size = program_length (tree self.old) in
            meter.new ≤ meter.old + path_visits size (length path.now) + size }
        ensures steady { meter.old ≤ meter.new };

    /// Returns whether one of the patterns matches the whole path, and whether one matches the path of
    /// something below the folder with this path, at most `most` names below it if that is some number.
    fn verdict_cached(
        &mut self,
        _alloc: Global,
        path: &CandidatePath<'_>,
        most: Option<usize>,
        meter: &mut Meter,
    ) -> Result<Verdict, NoMemory>
        ensures decides { IfOk result
            (λ verdict. verdict.is_match ≡ means_test (tree self.old) false false path.now) }
        ensures onward { IfOk result
            (λ verdict. verdict.goes_on ≡ goes_test (tree self.old) most path.now) }
        ensures same { tree self.new ≡ tree self.old }
        ensures above { let size = program_length (tree self.old) in
            meter.new ≤ meter.old + first_visits size most + path_visits size (length path.now) }
        ensures steady { meter.old ≤ meter.new };

    /// Returns how many bytes at the beginning of a text can be passed over in a search for lines
    /// that a pattern matches: none of them ends before so many bytes.
    fn earliest_end(&self, text: &str) -> usize
        ensures { NoLineEndsBefore (means_test (tree self.now) false false) text.now result };
}

/// A matcher of a set of patterns for many paths, which keeps what it learns from each for the next
/// ones. Contracts see the view of its set.
pub struct SetMatcher<S: CachedSet> {
    pub(crate) alloc: Global,
    pub(crate) set: S,
}

impl<S: CachedSet> Drop for SetMatcher<S> {
    fn drop(self) {
        let SetMatcher { alloc: _, set: _ } = self;
    }
}

impl<S: CachedSet> Model for SetMatcher<S> {
    ghost use Rattle.wax_set.specs.Sets.{any_code};
    ghost use Rattle.wax_token.specs.{Reads.Span, Syntax.Tree};

    ghost Value = { Tree Span };

    ghost coded = { any_code };

    ghost view = { λ m. S.tree m.set };
}

impl<S: CachedSet> SetMatcher<S> {
    /// Returns the set with what was learned.
    pub(crate) fn into_set(self) -> S
        ensures { S.tree result ≡ self }
    {
        let SetMatcher { alloc: _, set } = self;
        set
    }

    /// Returns whether one of the patterns matches the whole path. A quick test comes first, which
    /// rejects most texts that don't match.
    ///
    /// # Errors
    ///
    /// Returns `NoMemory` if allocation fails. The matcher can be used for further paths after
    /// that.
    pub fn is_match(&mut self, path: &CandidatePath<'_>) -> Result<bool, NoMemory>
        ensures means { IfOk result (λ answer. IsTrue answer ↔ MeansText self.old path.now) }
        ensures decides { IfOk result (λ answer. answer ≡ means_test self.old false false path.now) }
        ensures same { self.new ≡ self.old }
    {
        let mut meter = Meter::new();
        self.is_match_metered(path, &mut meter)
    }

    /// Returns what `is_match` does, and moves the meter by the number of instructions that the set's
    /// program visits, whatever earlier paths led to: at most its length for each character and once more
    /// at the end; or nine times that, if its length exceeds 256. Paths that lead only to what earlier ones
    /// led to move it by nothing.
    ///
    /// # Errors
    ///
    /// Returns `NoMemory` if allocation fails. The matcher can be used for further paths after
    /// that.
    pub fn is_match_metered(
        &mut self,
        path: &CandidatePath<'_>,
        meter: &mut Meter,
    ) -> Result<bool, NoMemory>
        ensures means { IfOk result (λ answer. IsTrue answer ↔ MeansText self.old path.now) }
        ensures decides { IfOk result (λ answer. answer ≡ means_test self.old false false path.now) }
        ensures same { self.new ≡ self.old }
        ensures above { let size = program_length self.old in
            meter.new ≤ meter.old + path_visits size (length path.now) }
        ensures steady { meter.old ≤ meter.new }
    {
        self.set.is_match_cached(self.alloc, path, meter)
    }

    /// Returns the indexes of all patterns that match the whole path, ascending. The first pattern of
    /// those of which the set was built has the index 0. Allocates the list, and nothing else if the
    /// path leads only to states that are known. A quick test comes first, which rejects most texts
    /// that don't match.
    ///
    /// # Errors
    ///
    /// Returns `NoMemory` if allocation fails. The matcher can be used for further paths after
    /// that.
    pub fn matches(&mut self, path: &CandidatePath<'_>) -> Result<Vec<usize>, NoMemory>
        ensures matches { IfOk result (λ indexes. AreMatches self.old path.now indexes.items) }
        ensures same { self.new ≡ self.old }
    {
        let mut meter = Meter::new();
        self.matches_metered(path, &mut meter)
    }

    /// Returns what `matches` does. The meter counts as in `is_match_metered`, and at the end at most as
    /// many visits more as the set's program has instructions.
    ///
    /// # Errors
    ///
    /// Returns `NoMemory` if allocation fails. The matcher can be used for further paths after
    /// that.
    pub fn matches_metered(
        &mut self,
        path: &CandidatePath<'_>,
        meter: &mut Meter,
    ) -> Result<Vec<usize>, NoMemory>
        ensures matches { IfOk result (λ indexes. AreMatches self.old path.now indexes.items) }
        ensures same { self.new ≡ self.old }
        ensures above { let size = program_length self.old in
            meter.new ≤ meter.old + path_visits size (length path.now) + size }
        ensures steady { meter.old ≤ meter.new }
    {
        let mut indexes = Vec::new(self.alloc);
        self.matches_into_metered(path, &mut indexes, meter)?;
        Ok(indexes)
    }

    /// Writes what `matches` returns into a list, in place of what was in it. Allocates only if the
    /// list has too little room or the path leads to new states.
    ///
    /// # Errors
    ///
    /// Returns `NoMemory` if allocation fails. The matcher can be used for further paths after
    /// that.
    pub fn matches_into(
        &mut self,
        path: &CandidatePath<'_>,
        indexes: &mut Vec<usize>,
    ) -> Result<(), NoMemory>
        ensures matches { IfOk result (λ _. AreMatches self.old path.now indexes.new.items) }
        ensures same { self.new ≡ self.old }
    {
        let mut meter = Meter::new();
        self.matches_into_metered(path, indexes, &mut meter)
    }

    /// Writes what `matches_into` does, and moves the meter as `matches_metered` does.
    ///
    /// # Errors
    ///
    /// Returns `NoMemory` if allocation fails. The matcher can be used for further paths after
    /// that.
    pub fn matches_into_metered(
        &mut self,
        path: &CandidatePath<'_>,
        indexes: &mut Vec<usize>,
        meter: &mut Meter,
    ) -> Result<(), NoMemory>
        ensures matches { IfOk result (λ _. AreMatches self.old path.now indexes.new.items) }
        ensures same { self.new ≡ self.old }
        ensures above { let size = program_length self.old in
            meter.new ≤ meter.old + path_visits size (length path.now) + size }
        ensures steady { meter.old ≤ meter.new }
    {
        self.set.list_matches(path, indexes, meter)
    }

    /// Returns whether something below the folder with this path can match: whether one of the
    /// patterns matches the path of something below it.
    ///
    /// # Errors
    ///
    /// Returns `NoMemory` if allocation fails. The matcher can be used for further paths after
    /// that.
    pub fn goes_on(&mut self, path: &CandidatePath<'_>) -> Result<bool, NoMemory>
        ensures below { IfOk result (λ answer. IsTrue answer ↔ MeansBelow self.old path.now) }
        ensures same { self.new ≡ self.old }
    {
        let verdict = self.verdict(path)?;
        Ok(verdict.goes_on)
    }

    /// Returns whether one of the patterns matches the whole path, and whether one matches the path
    /// of something below the folder with this path. It reads the path once.
    ///
    /// # Errors
    ///
    /// Returns `NoMemory` if allocation fails. The matcher can be used for further paths after
    /// that.
    pub fn verdict(&mut self, path: &CandidatePath<'_>) -> Result<Verdict, NoMemory>
        ensures means { IfOk result (λ verdict. IsTrue verdict.is_match ↔ MeansText self.old path.now) }
        ensures below { IfOk result (λ verdict. IsTrue verdict.goes_on ↔ MeansBelow self.old path.now) }
        ensures decides { IfOk result
            (λ verdict. verdict.is_match ≡ means_test self.old false false path.now) }
        ensures onward { IfOk result (λ verdict. verdict.goes_on ≡ goes_test self.old None path.now) }
        ensures same { self.new ≡ self.old }
    {
        let mut meter = Meter::new();
        self.verdict_metered(path, &mut meter)
    }

    /// Returns what `verdict` does. The meter counts as in `is_match_metered`, and also what the first
    /// verdict visits to find what leads on.
    ///
    /// # Errors
    ///
    /// Returns `NoMemory` if allocation fails. The matcher can be used for further paths after
    /// that.
    pub fn verdict_metered(
        &mut self,
        path: &CandidatePath<'_>,
        meter: &mut Meter,
    ) -> Result<Verdict, NoMemory>
        ensures means { IfOk result (λ verdict. IsTrue verdict.is_match ↔ MeansText self.old path.now) }
        ensures below { IfOk result (λ verdict. IsTrue verdict.goes_on ↔ MeansBelow self.old path.now) }
        ensures decides { IfOk result
            (λ verdict. verdict.is_match ≡ means_test self.old false false path.now) }
        ensures onward { IfOk result (λ verdict. verdict.goes_on ≡ goes_test self.old None path.now) }
        ensures same { self.new ≡ self.old }
        ensures above { let size = program_length self.old in
            meter.new ≤ meter.old + first_visits size None + path_visits size (length path.now) }
        ensures steady { meter.old ≤ meter.new }
    {
        self.judge(path, None, meter)
    }

    // Returns what `verdict` does, for at most `most` names below the folder, if that is some number.
    pub(crate) fn judge(
        &mut self,
        path: &CandidatePath<'_>,
        most: Option<usize>,
        meter: &mut Meter,
    ) -> Result<Verdict, NoMemory>
        ensures decides { IfOk result
            (λ verdict. verdict.is_match ≡ means_test self.old false false path.now) }
        ensures onward { IfOk result (λ verdict. verdict.goes_on ≡ goes_test self.old most path.now) }
        ensures same { self.new ≡ self.old }
        ensures above { let size = program_length self.old in
            meter.new ≤ meter.old + first_visits size most + path_visits size (length path.now) }
        ensures steady { meter.old ≤ meter.new }
    {
        self.set.verdict_cached(self.alloc, path, most, meter)
    }
}
