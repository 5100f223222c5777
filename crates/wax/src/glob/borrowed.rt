//! A matcher that borrows its glob.
ghost use Rattle.std.specs.Prelude.{◌≡◌, IfOk, false};
ghost use Rattle.wax_prefilter.specs.Below.{goes_test, goes_tested};
ghost use Rattle.wax_token.specs.Decided.{means_test, means_tested};

use crate::glob::Glob;
use crate::glob::matcher::{CachedGlob, CachedGlobMatcher};
use std::alloc::Global;
use std::marker::Model;
use wax_exclude::is_everything;
use wax_lazy::Matcher;
use wax_prefilter::{CompiledTokens, folder_of};
use wax_program::Meter;
use wax_query::diagnostics::NoMemory;
use wax_query::matching::{BuildMatcher, CandidatePath, PathMatcher};
use wax_query::query::Verdict;

/// A glob that is borrowed, beside what earlier paths led to. Contracts see the view of the glob.
pub struct BorrowedGlob<'g, 't> {
    glob: &'g Glob<'t>,
    matcher: Matcher<&'g CompiledTokens>,
    /// The folder, if the glob matches exactly a folder and everything below it, as `usr/**` does.
    folder: Option<&'g str>,
}

impl Drop for BorrowedGlob<'_, '_> {
    fn drop(self) {
        let BorrowedGlob {
            glob: _,
            matcher: _,
            folder: _,
        } = self;
    }
}

impl<'g, 't> Model for BorrowedGlob<'g, 't> {
    ghost use Rattle.std.specs.Prelude.{◌<◌, ◌↔◌, IfSome, List, chars, length, ℕ};
    ghost use Rattle.wax.specs.{GlobView.{GlobView, IsMeant, glob_code}, Matching.AcceptsMeant};
    ghost use Rattle.wax_prefilter.specs.Within.{IsInFolder};
    ghost use Rattle.wax_token.specs.Cost.{program_length};

    ghost Value = { GlobView };

    ghost coded = { glob_code };

    ghost view = { λ held. held.glob.now };

    ghost invariant = { λ held. AcceptsMeant held.matcher held.glob.now
        × IfSome held.folder (λ folder. (text : List ℕ)
        → IsMeant held.glob.now text ↔ IsInFolder (chars folder.now) text)
        × (length held.matcher < program_length held.glob.now.tree) };
}

impl CachedGlob for BorrowedGlob<'_, '_> {
    ghost glob = { λ held. held };

    #[inline]
    fn is_match_cached(
        &mut self,
        _alloc: Global,
        path: &CandidatePath<'_>,
        meter: &mut Meter,
    ) -> Result<bool, NoMemory> {
        self.matcher.is_match_metered(path.as_str(), meter)
    }

    fn verdict_cached(
        &mut self,
        _alloc: Global,
        path: &CandidatePath<'_>,
        most: Option<usize>,
        meter: &mut Meter,
    ) -> Result<Verdict, NoMemory> {
        self.matcher.verdict_metered(path.as_str(), most, meter)
    }

    #[inline]
    fn folder(&self) -> Option<&str> {
        self.folder
    }

    fn earliest_end(&self, text: &str) -> usize {
        self.glob.earliest_end(text)
    }
}

/// A matcher that borrows its glob.
pub type GlobMatcher<'g, 't> = CachedGlobMatcher<BorrowedGlob<'g, 't>>;

impl<'t> Glob<'t> {
    /// Builds a matcher, which is faster than the glob for many paths if the expression has many
    /// alternatives. It keeps about 2 MiB at most, or up to 16 MiB if the expression is long.
    ///
    /// ```
    /// let glob = Glob::new(alloc, "**/{node_modules,target,build}/**")?;
    /// let mut matcher = glob.matcher(alloc)?;
    /// for path in ["a/target/b", "a/src/b"] {
    ///     println!(rt; "{}", matcher.is_match(&CandidatePath::from(path))?)?; // true; false
    /// }
    /// ```
    pub fn matcher<'g>(&'g self, alloc: Global) -> Result<GlobMatcher<'g, 't>, NoMemory>
        ensures { IfOk result (λ m. m ≡ self.now) }
    {
        let matcher = Matcher::new(alloc, &self.compiled)?;
        let folder = folder_of(self.token().concatenation());
        let held = BorrowedGlob {
            glob: self,
            matcher,
            folder,
        };
        Ok(CachedGlobMatcher {
            alloc,
            held,
            matches_all: is_everything(self.token()),
            has_folder: folder.is_some(),
        })
    }
}

impl PathMatcher for CachedGlobMatcher<BorrowedGlob<'_, '_>> {
    ghost decides = { λ m. means_test m.tree false false };

    ghost goes_on = { λ m. goes_test m.tree };

    ghost leads = { λ m most folder s is all h.
        (goes_tested m.tree most folder).1 (s, is, all, (means_tested m.tree false false s).0 h) };

    #[inline]
    fn is_match(&mut self, path: &CandidatePath<'_>) -> Result<bool, NoMemory> {
        self.is_match(path)
    }

    fn verdict(&mut self, path: &CandidatePath<'_>) -> Result<Verdict, NoMemory> {
        self.verdict(path)
    }

    fn verdict_within(
        &mut self,
        path: &CandidatePath<'_>,
        most: usize,
    ) -> Result<Verdict, NoMemory> {
        let mut meter = Meter::new();
        self.judge(path, Some(most), &mut meter)
    }

    fn earliest_end(&self, text: &str) -> usize {
        self.earliest_end(text)
    }
}

impl<'g, 't: 'g> BuildMatcher<'g> for Glob<'t> {
    type Matcher = GlobMatcher<'g, 't>;

    fn build_matcher(&'g self, alloc: Global) -> Result<GlobMatcher<'g, 't>, NoMemory> {
        self.matcher(alloc)
    }
}
