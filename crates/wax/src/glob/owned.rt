//! A matcher that owns its glob.
ghost use Rattle.std.specs.Prelude.{◌≡◌, false};
ghost use Rattle.wax_prefilter.specs.Below.{goes_test, goes_tested};
ghost use Rattle.wax_token.specs.Decided.{means_test, means_tested};

use crate::glob::Glob;
use crate::glob::matcher::{CachedGlob, CachedGlobMatcher};
use std::alloc::Global;
use wax_exclude::is_everything;
use wax_prefilter::folder_of;
use wax_program::Meter;
use wax_query::diagnostics::NoMemory;
use wax_query::matching::{CandidatePath, PathMatcher};
use wax_query::query::Verdict;

impl CachedGlob for Glob<'_> {
    ghost glob = { λ glob. glob };

    fn is_match_cached(
        &mut self,
        alloc: Global,
        path: &CandidatePath<'_>,
        meter: &mut Meter,
    ) -> Result<bool, NoMemory> {
        self.compiled
            .is_match_cached_metered(alloc, path.as_str(), meter)
    }

    fn verdict_cached(
        &mut self,
        alloc: Global,
        path: &CandidatePath<'_>,
        most: Option<usize>,
        meter: &mut Meter,
    ) -> Result<Verdict, NoMemory> {
        self.compiled
            .verdict_cached_metered(alloc, path.as_str(), most, meter)
    }

    fn folder(&self) -> Option<&str> {
        folder_of(self.token().concatenation())
    }

    fn earliest_end(&self, text: &str) -> usize {
        self.compiled.earliest_end(text)
    }
}

/// A matcher that owns its glob, so that a struct can hold it.
pub type OwnedGlobMatcher<'t> = CachedGlobMatcher<Glob<'t>>;

impl<'t> Glob<'t> {
    /// Converts the glob into a matcher that owns it, which is faster than the glob for many paths. It
    /// keeps about 2 MiB at most, or up to 16 MiB if the expression is long. Doesn't allocate before
    /// the first path.
    ///
    /// ```
    /// let glob = Glob::new(alloc, "**/{node_modules,target,build}/**")?;
    /// let mut matcher = glob.into_matcher(alloc);
    /// for path in ["a/target/b", "a/src/b"] {
    ///     println!(rt; "{}", matcher.is_match(&CandidatePath::from(path))?)?; // true; false
    /// }
    /// println!(rt; "{}", matcher.glob())?; // **/{node_modules,target,build}/**
    /// ```
    pub fn into_matcher(self, alloc: Global) -> OwnedGlobMatcher<'t>
        ensures { result ≡ self.entry }
    {
        let matches_all = is_everything(self.token());
        let has_folder = folder_of(self.token().concatenation()).is_some();
        CachedGlobMatcher {
            alloc,
            held: self,
            matches_all,
            has_folder,
        }
    }
}

impl<'t> OwnedGlobMatcher<'t> {
    /// Returns the glob.
    pub fn glob(&self) -> &Glob<'t>
        ensures { result.now ≡ self.now }
    {
        &self.held
    }

    /// Converts the matcher into its glob, which keeps what was learned for its next matcher.
    pub fn into_glob(self) -> Glob<'t>
        ensures { result ≡ self.entry }
    {
        self.into_held()
    }
}

impl PathMatcher for CachedGlobMatcher<Glob<'_>> {
    ghost decides = { λ m. means_test m.tree false false };

    ghost goes_on = { λ m. goes_test m.tree };

    ghost leads = { λ m most folder s is all h.
        (goes_tested m.tree most folder).1 (s, is, all, (means_tested m.tree false false s).0 h) };

    fn is_match(&mut self, path: &CandidatePath<'_>) -> Result<bool, NoMemory> {
        self.is_match(path)
    }

    fn verdict(&mut self, path: &CandidatePath<'_>) -> Result<Verdict, NoMemory> {
        self.verdict(path)
    }

    fn verdict_within(
        &mut self,
        path: &CandidatePath<'_>,
        most: usize,
    ) -> Result<Verdict, NoMemory> {
        let mut meter = Meter::new();
        self.judge(path, Some(most), &mut meter)
    }

    fn earliest_end(&self, text: &str) -> usize {
        self.earliest_end(text)
    }
}
