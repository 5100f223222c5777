//! A matcher of one glob for many paths.
ghost use Rattle.std.specs.Prelude.{◌≡◌, ◌+◌, ◌≤◌, ◌↔◌, ℕ, None, IfOk, IfSome, IsTrue, List, chars, false};
ghost use Rattle.std.specs.Prelude.{length};
ghost use Rattle.wax.specs.GlobView.{GlobView, IsMeant};
ghost use Rattle.wax_query.specs.Parts.{NoLineEndsBefore};
ghost use Rattle.wax_lazy.specs.Cost.{first_visits, path_visits};
ghost use Rattle.wax_prefilter.specs.{Below.{MeansBelow, goes_test, goes_tested}, Within.IsInFolder};
ghost use Rattle.wax_token.specs.{Cost.program_length, Decided.{means_test, means_tested}};

use std::alloc::Global;
use std::marker::Model;
use wax_prefilter::is_within;
use wax_program::Meter;
use wax_query::diagnostics::NoMemory;
use wax_query::matching::{CandidatePath, PathMatcher};
use wax_query::query::Verdict;

/// A glob with what earlier paths led to, which decides further paths with the help of that.
pub trait CachedGlob: Drop {
    // The expression and the tree of the glob.
    ghost glob: { Self → GlobView };

    /// Returns whether the glob matches the whole path.
    fn is_match_cached(
        &mut self,
        _alloc: Global,
        path: &CandidatePath<'_>,
        meter: &mut Meter,
    ) -> Result<bool, NoMemory>
        ensures means { IfOk result (λ answer. IsTrue answer ↔ IsMeant (glob self.old) path.now) }
        ensures same { glob self.new ≡ glob self.old }
        ensures above { let size = program_length (glob self.old).tree in
            meter.new ≤ meter.old + path_visits size (length path.now) }
        ensures steady { meter.old ≤ meter.new };

    /// Returns whether the glob matches the whole path, and whether it matches the path of something
    /// below the folder with this path, at most `most` names below it if that is some number.
    fn verdict_cached(
        &mut self,
        _alloc: Global,
        path: &CandidatePath<'_>,
        most: Option<usize>,
        meter: &mut Meter,
    ) -> Result<Verdict, NoMemory>
        ensures decides { IfOk result
            (λ verdict. verdict.is_match ≡ means_test (glob self.old).tree false false path.now) }
        ensures onward { IfOk result
            (λ verdict. verdict.goes_on ≡ goes_test (glob self.old).tree most path.now) }
        ensures same { glob self.new ≡ glob self.old }
        ensures above { let size = program_length (glob self.old).tree in
            meter.new ≤ meter.old + first_visits size most + path_visits size (length path.now) }
        ensures steady { meter.old ≤ meter.new };

    /// Returns the folder, if the glob matches exactly a folder and everything below it, as `usr/**` does.
    fn folder(&self) -> Option<&str>
        ensures { IfSome result (λ folder. (text : List ℕ)
            → IsMeant (glob self.now) text ↔ IsInFolder (chars folder.now) text) };

    /// Returns how many bytes at the beginning of a text can be passed over in a search for lines
    /// that the glob matches: none of them ends before so many bytes.
    fn earliest_end(&self, text: &str) -> usize
        ensures { NoLineEndsBefore (means_test (glob self.now).tree false false) text.now result };
}

/// A matcher of a glob for many paths, which keeps what it learns from each for the next ones.
/// Contracts see the view of its glob.
pub struct CachedGlobMatcher<G: CachedGlob> {
    pub(crate) alloc: Global,
    pub(crate) held: G,
    /// True if the glob is `**`, which matches a text without a look at it.
    pub(crate) matches_all: bool,
    /// True if the glob has a folder.
    pub(crate) has_folder: bool,
}

impl<G: CachedGlob> Drop for CachedGlobMatcher<G> {
    fn drop(self) {
        let CachedGlobMatcher {
            alloc: _,
            held: _,
            matches_all: _,
            has_folder: _,
        } = self;
    }
}

impl<G: CachedGlob> Model for CachedGlobMatcher<G> {
    ghost use Rattle.std.specs.Prelude.{IsTrue, List, ℕ};
    ghost use Rattle.wax.specs.GlobView.{GlobView, IsMeant, glob_code};

    ghost Value = { GlobView };

    ghost coded = { glob_code };

    ghost view = { λ m. G.glob m.held };

    ghost invariant = { λ m. IsTrue m.matches_all → (text : List ℕ) → IsMeant (G.glob m.held) text };
}

impl<G: CachedGlob> CachedGlobMatcher<G> {
    /// Returns the glob with what was learned.
    pub(crate) fn into_held(self) -> G
        ensures { G.glob result ≡ self }
    {
        let CachedGlobMatcher {
            alloc: _,
            held,
            matches_all: _,
            has_folder: _,
        } = self;
        held
    }

    /// Returns whether the glob matches the whole path. A quick test comes first, which rejects
    /// most texts that don't match.
    ///
    /// # Errors
    ///
    /// Returns `NoMemory` if allocation fails. The matcher can be used for further paths after
    /// that.
    #[inline]
    pub fn is_match(&mut self, path: &CandidatePath<'_>) -> Result<bool, NoMemory>
        ensures means { IfOk result (λ answer. IsTrue answer ↔ IsMeant self.old path.now) }
        ensures decides { IfOk result (λ answer. answer ≡ means_test self.old.tree false false path.now) }
        ensures same { self.new ≡ self.old }
    {
        let mut meter = Meter::new();
        self.is_match_metered(path, &mut meter)
    }

    /// Returns what `is_match` does, and moves the meter by the number of instructions that its program
    /// visits, whatever earlier paths led to: at most its length for each character and once more at the
    /// end; or nine times that, if its length exceeds 256. Paths that lead only to what earlier ones led
    /// to move it by nothing.
    ///
    /// # Errors
    ///
    /// Returns `NoMemory` if allocation fails. The matcher can be used for further paths after
    /// that.
    #[inline]
    pub fn is_match_metered(
        &mut self,
        path: &CandidatePath<'_>,
        meter: &mut Meter,
    ) -> Result<bool, NoMemory>
        ensures means { IfOk result (λ answer. IsTrue answer ↔ IsMeant self.old path.now) }
        ensures decides { IfOk result (λ answer. answer ≡ means_test self.old.tree false false path.now) }
        ensures same { self.new ≡ self.old }
        ensures above { let size = program_length self.old.tree in
            meter.new ≤ meter.old + path_visits size (length path.now) }
        ensures steady { meter.old ≤ meter.new }
    {
        if self.matches_all {
            return Ok(true);
        }
        if let Some(folder) = self.folder() {
            return Ok(is_within(path.as_str(), folder));
        }
        self.held.is_match_cached(self.alloc, path, meter)
    }

    /// Returns whether something below the folder with this path can match: whether the glob matches
    /// the path of something below it.
    ///
    /// # Errors
    ///
    /// Returns `NoMemory` if allocation fails. The matcher can be used for further paths after
    /// that.
    pub fn goes_on(&mut self, path: &CandidatePath<'_>) -> Result<bool, NoMemory>
        ensures below { IfOk result (λ answer. IsTrue answer ↔ MeansBelow self.old.tree path.now) }
        ensures same { self.new ≡ self.old }
    {
        let verdict = self.verdict(path)?;
        Ok(verdict.goes_on)
    }

    /// Returns whether the glob matches the whole path, and whether it matches the path of something
    /// below the folder with this path. It reads the path once.
    ///
    /// ```
    /// let glob = Glob::new(alloc, "src/*/tests/*.rs")?;
    /// let mut matcher = glob.matcher(alloc)?;
    /// let verdict = matcher.verdict(&CandidatePath::from("src/net"))?;
    /// println!(rt; "{} {}", verdict.is_match, verdict.goes_on)?; // false true
    /// ```
    ///
    /// # Errors
    ///
    /// Returns `NoMemory` if allocation fails. The matcher can be used for further paths after
    /// that.
    pub fn verdict(&mut self, path: &CandidatePath<'_>) -> Result<Verdict, NoMemory>
        ensures means { IfOk result (λ verdict. IsTrue verdict.is_match ↔ IsMeant self.old path.now) }
        ensures below { IfOk result
            (λ verdict. IsTrue verdict.goes_on ↔ MeansBelow self.old.tree path.now) }
        ensures decides { IfOk result
            (λ verdict. verdict.is_match ≡ means_test self.old.tree false false path.now) }
        ensures onward { IfOk result (λ verdict. verdict.goes_on ≡ goes_test self.old.tree None path.now) }
        ensures same { self.new ≡ self.old }
    {
        let mut meter = Meter::new();
        self.verdict_metered(path, &mut meter)
    }

    /// Returns what `verdict` does. The meter counts as in `is_match_metered`, and also what the first
    /// verdict visits to find what leads on.
    ///
    /// # Errors
    ///
    /// Returns `NoMemory` if allocation fails. The matcher can be used for further paths after
    /// that.
    pub fn verdict_metered(
        &mut self,
        path: &CandidatePath<'_>,
        meter: &mut Meter,
    ) -> Result<Verdict, NoMemory>
        ensures means { IfOk result (λ verdict. IsTrue verdict.is_match ↔ IsMeant self.old path.now) }
        ensures below { IfOk result
            (λ verdict. IsTrue verdict.goes_on ↔ MeansBelow self.old.tree path.now) }
        ensures decides { IfOk result
            (λ verdict. verdict.is_match ≡ means_test self.old.tree false false path.now) }
        ensures onward { IfOk result (λ verdict. verdict.goes_on ≡ goes_test self.old.tree None path.now) }
        ensures same { self.new ≡ self.old }
        ensures above { let size = program_length self.old.tree in
            meter.new ≤ meter.old + first_visits size None + path_visits size (length path.now) }
        ensures steady { meter.old ≤ meter.new }
    {
        self.judge(path, None, meter)
    }

    // Returns what `verdict` does, for at most `most` names below the folder, if that is some number.
    pub(crate) fn judge(
        &mut self,
        path: &CandidatePath<'_>,
        most: Option<usize>,
        meter: &mut Meter,
    ) -> Result<Verdict, NoMemory>
        ensures decides { IfOk result
            (λ verdict. verdict.is_match ≡ means_test self.old.tree false false path.now) }
        ensures onward { IfOk result
            (λ verdict. verdict.goes_on ≡ goes_test self.old.tree most path.now) }
        ensures same { self.new ≡ self.old }
        ensures above { let size = program_length self.old.tree in
            meter.new ≤ meter.old + first_visits size most + path_visits size (length path.now) }
        ensures steady { meter.old ≤ meter.new }
    {
        self.held.verdict_cached(self.alloc, path, most, meter)
    }

    /// Returns the folder, if the glob matches exactly a folder and everything below it.
    #[inline]
    fn folder(&self) -> Option<&str>
        ensures { IfSome result (λ folder. (text : List ℕ)
            → IsMeant self.now text ↔ IsInFolder (chars folder.now) text) }
    {
        if !self.has_folder {
            return None;
        }
        self.held.folder()
    }

    /// Returns how many bytes at the beginning of a text can be passed over in a search for lines
    /// that the glob matches: none of them ends before so many bytes.
    pub(crate) fn earliest_end(&self, text: &str) -> usize
        ensures { NoLineEndsBefore (means_test self.now.tree false false) text.now result }
    {
        match self.folder() {
            Some(folder) => self.earliest_end_in(folder, text),
            None => self.held.earliest_end(text),
        }
    }

    /// Returns what `earliest_end` does, for a glob with a folder. Lines in a folder often follow one
    /// another, so the first line is looked at before a search. It is a function of its own, never
    /// inlined, so that globs without a folder cost no more.
    #[inline(never)]
    fn earliest_end_in(&self, folder: &str, text: &str) -> usize
        ensures { NoLineEndsBefore (means_test self.now.tree false false) text.now result }
    {
        if text.as_bytes().starts_with(folder.as_bytes()) {
            return 0;
        }
        self.held.earliest_end(text)
    }
}
