//! A matcher that borrows its set of patterns.
ghost use Rattle.std.specs.Prelude.{◌≡◌, IfOk, false};
ghost use Rattle.wax_prefilter.specs.Below.{goes_test, goes_tested};
ghost use Rattle.wax_token.specs.Decided.{means_test, means_tested};

use crate::set::Any;
use crate::set::matcher::{CachedSet, MOST_NUMBERED, SetMatcher};
use std::alloc::Global;
use std::marker::Model;
use wax_lazy::Matcher;
use wax_match::encode::{CompiledProgram, Meter};
use wax_prefilter::CompiledTokens;
use wax_query::diagnostics::NoMemory;
use wax_query::matching::{BuildMatcher, CandidatePath, PathMatcher};
use wax_query::query::Verdict;

/// A set of patterns that is borrowed, beside what earlier paths led to. Contracts see the view of the set.
pub struct BorrowedSet<'a, 't> {
    any: &'a Any<'t>,
    matcher: Matcher<&'a CompiledTokens>,
    /// The matcher of the program that says which of the patterns match.
    numbered: Matcher<&'a CompiledProgram>,
}

impl Drop for BorrowedSet<'_, '_> {
    fn drop(self) {
        let BorrowedSet {
            any: _,
            matcher: _,
            numbered: _,
        } = self;
    }
}

impl<'a, 't> Model for BorrowedSet<'a, 't> {
    ghost use Rattle.wax_set.specs.Sets.{any_code, AcceptsText, IsAlternation, IsNumbered};
    ghost use Rattle.std.specs.Prelude.{◌<◌, length};
    ghost use Rattle.wax_token.specs.{Cost.program_length, Reads.Span, Syntax.Tree};

    ghost Value = { Tree Span };

    ghost coded = { any_code };

    ghost view = { λ held. held.any.now };

    ghost invariant = { λ held. AcceptsText held.matcher held.any.now × IsNumbered held.any.now held.numbered
        × IsAlternation held.any.now × (length held.matcher < program_length held.any.now) };
}

impl CachedSet for BorrowedSet<'_, '_> {
    ghost tree = { λ held. held };

    fn is_match_cached(
        &mut self,
        _alloc: Global,
        path: &CandidatePath<'_>,
        meter: &mut Meter,
    ) -> Result<bool, NoMemory> {
        self.matcher.is_match_metered(path.as_str(), meter)
    }

    fn list_matches(
        &mut self,
        path: &CandidatePath<'_>,
        indexes: &mut Vec<usize>,
        meter: &mut Meter,
    ) -> Result<(), NoMemory> {
        indexes.clear();
        if !self.any.may_match_quickly(path) {
            return Ok(());
        }
        self.numbered
            .list_numbers_metered(path.as_str(), indexes, meter)
    }

    fn verdict_cached(
        &mut self,
        _alloc: Global,
        path: &CandidatePath<'_>,
        most: Option<usize>,
        meter: &mut Meter,
    ) -> Result<Verdict, NoMemory> {
        self.matcher.verdict_metered(path.as_str(), most, meter)
    }

    fn earliest_end(&self, text: &str) -> usize {
        self.any.earliest_end(text)
    }
}

/// A matcher that borrows its set of patterns.
pub type AnyMatcher<'a, 't> = SetMatcher<BorrowedSet<'a, 't>>;

impl<'t> Any<'t> {
    /// Builds a matcher, which is faster than the set for many paths if its patterns have many
    /// branches. It keeps about 2 MiB at most, or up to 16 MiB if the set is large; and up to 16 MiB
    /// more once it was asked which patterns match.
    pub fn matcher<'a>(&'a self, alloc: Global) -> Result<AnyMatcher<'a, 't>, NoMemory>
        ensures { IfOk result (λ m. m ≡ self.now) }
    {
        let matcher = Matcher::new(alloc, &self.compiled)?;
        let held = BorrowedSet {
            any: self,
            matcher,
            numbered: Matcher::with_most(alloc, self.numbered.holder(), MOST_NUMBERED),
        };
        Ok(SetMatcher { alloc, set: held })
    }
}

impl PathMatcher for SetMatcher<BorrowedSet<'_, '_>> {
    ghost decides = { λ m. means_test m false false };

    ghost goes_on = { λ m. goes_test m };

    ghost leads = { λ m most folder s is all h.
        (goes_tested m most folder).1 (s, is, all, (means_tested m false false s).0 h) };

    fn is_match(&mut self, path: &CandidatePath<'_>) -> Result<bool, NoMemory> {
        self.is_match(path)
    }

    fn verdict(&mut self, path: &CandidatePath<'_>) -> Result<Verdict, NoMemory> {
        self.verdict(path)
    }

    fn verdict_within(
        &mut self,
        path: &CandidatePath<'_>,
        most: usize,
    ) -> Result<Verdict, NoMemory> {
        let mut meter = Meter::new();
        self.judge(path, Some(most), &mut meter)
    }

    fn earliest_end(&self, text: &str) -> usize {
        self.set.earliest_end(text)
    }
}

impl<'a, 't: 'a> BuildMatcher<'a> for Any<'t> {
    type Matcher = AnyMatcher<'a, 't>;

    fn build_matcher(&'a self, alloc: Global) -> Result<AnyMatcher<'a, 't>, NoMemory> {
        self.matcher(alloc)
    }
}
