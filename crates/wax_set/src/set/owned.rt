//! A matcher that owns its set of patterns.
ghost use Rattle.std.specs.Prelude.{◌≡◌, false};
ghost use Rattle.wax_prefilter.specs.Below.{goes_test, goes_tested};
ghost use Rattle.wax_token.specs.Decided.{means_test, means_tested};

use crate::set::Any;
use crate::set::matcher::{CachedSet, SetMatcher};
use std::alloc::Global;
use wax_match::encode::Meter;
use wax_query::diagnostics::NoMemory;
use wax_query::matching::{CandidatePath, PathMatcher};
use wax_query::query::Verdict;

impl CachedSet for Any<'_> {
    ghost tree = { λ any. any };

    fn is_match_cached(
        &mut self,
        alloc: Global,
        path: &CandidatePath<'_>,
        meter: &mut Meter,
    ) -> Result<bool, NoMemory> {
        self.compiled
            .is_match_cached_metered(alloc, path.as_str(), meter)
    }

    fn list_matches(
        &mut self,
        path: &CandidatePath<'_>,
        indexes: &mut Vec<usize>,
        meter: &mut Meter,
    ) -> Result<(), NoMemory> {
        indexes.clear();
        if !self.may_match_quickly(path) {
            return Ok(());
        }
        self.numbered
            .list_numbers_metered(path.as_str(), indexes, meter)
    }

    fn verdict_cached(
        &mut self,
        alloc: Global,
        path: &CandidatePath<'_>,
        most: Option<usize>,
        meter: &mut Meter,
    ) -> Result<Verdict, NoMemory> {
        self.compiled
            .verdict_cached_metered(alloc, path.as_str(), most, meter)
    }

    fn earliest_end(&self, text: &str) -> usize {
        self.compiled.earliest_end(text)
    }
}

/// A matcher that owns its set of patterns, so that a struct can hold it.
pub type OwnedAnyMatcher<'t> = SetMatcher<Any<'t>>;

impl<'t> Any<'t> {
    /// Converts the set into a matcher that owns it, which is faster than the set for many paths if its
    /// patterns have many branches. It keeps what `AnyMatcher` does. Doesn't allocate before the first
    /// path.
    ///
    /// ```
    /// use wax::any;
    ///
    /// let owners = any(alloc, vec![in alloc; "**/*.rs", "docs/**", "**/test*"]?)?;
    /// let mut matcher = owners.into_matcher(alloc);
    /// let path = CandidatePath::from("src/test.rs");
    /// println!(rt; "{:?}", matcher.matches(&path)?)?; // [0, 2]
    /// ```
    pub fn into_matcher(self, alloc: Global) -> OwnedAnyMatcher<'t>
        ensures { result ≡ self.entry }
    {
        SetMatcher { alloc, set: self }
    }
}

impl<'t> OwnedAnyMatcher<'t> {
    /// Returns the set.
    pub fn any(&self) -> &Any<'t>
        ensures { result.now ≡ self.now }
    {
        &self.set
    }

    /// Converts the matcher into its set, which keeps what was learned for its next matcher.
    pub fn into_any(self) -> Any<'t>
        ensures { result ≡ self.entry }
    {
        self.into_set()
    }
}

impl PathMatcher for SetMatcher<Any<'_>> {
    ghost decides = { λ m. means_test m false false };

    ghost goes_on = { λ m. goes_test m };

    ghost leads = { λ m most folder s is all h.
        (goes_tested m most folder).1 (s, is, all, (means_tested m false false s).0 h) };

    fn is_match(&mut self, path: &CandidatePath<'_>) -> Result<bool, NoMemory> {
        self.is_match(path)
    }

    fn verdict(&mut self, path: &CandidatePath<'_>) -> Result<Verdict, NoMemory> {
        self.verdict(path)
    }

    fn verdict_within(
        &mut self,
        path: &CandidatePath<'_>,
        most: usize,
    ) -> Result<Verdict, NoMemory> {
        let mut meter = Meter::new();
        self.judge(path, Some(most), &mut meter)
    }

    fn earliest_end(&self, text: &str) -> usize {
        self.set.earliest_end(text)
    }
}
