//! Matchers of many paths, and the programs that build them.
ghost use Rattle.std.specs.Prelude.{◌≡◌, ℕ, Bool, List, Option, Some, None, IfOk, IsTrue, refl, true};
ghost use Rattle.std.specs.Str.{all_scalars};
ghost use Rattle.wax_query.specs.{Parts.NoLineEndsBefore, Below.IsBelowWithin};

use crate::diagnostics::NoMemory;
use crate::matching::candidate::CandidatePath;
use crate::matching::program::Program;
use crate::query::Verdict;
use std::alloc::Global;

/// A matcher of many paths, one after another. It may keep what it learns from each for the next
/// ones.
pub trait PathMatcher: Drop {
    // Which texts it matches, each as its characters.
    ghost decides: { Self → List ℕ → Bool };

    // For which folders, by their texts, it says that something at most so many names below may
    // match, if there is such a limit.
    ghost goes_on: { Self → Option ℕ → List ℕ → Bool } = { λ _ _ _. true };

    /// Returns whether it matches the whole path. It matches the same texts from then on.
    ///
    /// # Errors
    ///
    /// Returns `NoMemory` if allocation fails. The matcher can be used for further paths after
    /// that.
    fn is_match(&mut self, path: &CandidatePath<'_>) -> Result<bool, NoMemory>
        ensures decides { IfOk result (λ answer. answer ≡ decides self.old path.now) }
        ensures same { decides self.new ≡ decides self.old }
        ensures onward { goes_on self.new ≡ goes_on self.old };

    /// Returns whether it matches the whole path, and whether something below the folder with this
    /// path may match. If `goes_on` is false, nothing below matches. If it is true, something may: a
    /// matcher that doesn't look ahead always says true. It answers the same from then on.
    ///
    /// # Errors
    ///
    /// Returns `NoMemory` if allocation fails. The matcher can be used for further paths after
    /// that.
    fn verdict(&mut self, path: &CandidatePath<'_>) -> Result<Verdict, NoMemory>
        ensures decides { IfOk result (λ verdict. verdict.is_match ≡ decides self.old path.now) }
        ensures below { IfOk result (λ verdict. verdict.goes_on ≡ goes_on self.old None path.now) }
        ensures same { decides self.new ≡ decides self.old }
        ensures onward { goes_on self.new ≡ goes_on self.old };

    /// Returns whether it matches the whole path, and whether something at most `most` names below
    /// the folder with this path may match. A walk with a greatest depth asks this instead of
    /// `verdict`.
    ///
    /// # Errors
    ///
    /// Returns `NoMemory` if allocation fails. The matcher can be used for further paths after
    /// that.
    fn verdict_within(&mut self, path: &CandidatePath<'_>, most: usize) -> Result<Verdict, NoMemory>
        ensures decides { IfOk result (λ verdict. verdict.is_match ≡ decides self.old path.now) }
        ensures below { IfOk result
            (λ verdict. verdict.goes_on ≡ goes_on self.old (Some most) path.now) }
        ensures same { decides self.new ≡ decides self.old }
        ensures onward { goes_on self.new ≡ goes_on self.old };

    /// Returns how many bytes at the beginning of a text can be passed over in a search for lines
    /// that match: none of them ends before so many bytes. By default, that is 0.
    fn earliest_end(&self, text: &str) -> usize
        ensures { NoLineEndsBefore (decides self.now) text.now result }
    {
        0
    }

    // Where something at most so many names below a folder matches, it says that something may.
    ghost leads: { (matcher : Self) (most : Option ℕ) (folder s : List ℕ) → IsBelowWithin most folder s
        → all_scalars s ≡ true → IsTrue (decides matcher s) → IsTrue (goes_on matcher most folder) };
}

/// A program that builds matchers of itself, as a `BuildHasher` builds hashers. They may borrow it.
pub trait BuildMatcher<'p>: Program {
    /// The type of its matchers.
    type Matcher: PathMatcher;

    /// Builds a matcher, which matches exactly what the program matches.
    fn build_matcher(&'p self, alloc: Global) -> Result<Self::Matcher, NoMemory>
        ensures decides { IfOk result (λ matcher. Self.Matcher.decides matcher ≡ Self.decides self.now) }
        ensures onward { IfOk result (λ matcher. Self.Matcher.goes_on matcher ≡ Self.goes_on self.now) };
}

/// A matcher that runs the program anew for each path: for programs that learn nothing from a path.
/// It keeps nothing, building it doesn't allocate, and it says of each folder that something below
/// may match.
pub struct ProgramMatcher<'p, P> {
    pub alloc: Global,
    pub program: &'p P,
}

impl<P> Drop for ProgramMatcher<'_, P> {
    fn drop(self) {
        let ProgramMatcher {
            alloc: _,
            program: _,
        } = self;
    }
}

impl<P: Program> PathMatcher for ProgramMatcher<'_, P> {
    ghost decides = { λ matcher. P.decides matcher.program.now };

    ghost leads = { λ _ _ _ _ _ _ _. refl };

    fn is_match(&mut self, path: &CandidatePath<'_>) -> Result<bool, NoMemory> {
        self.program.is_match(self.alloc, path)
    }

    fn verdict(&mut self, path: &CandidatePath<'_>) -> Result<Verdict, NoMemory> {
        let is_match = self.is_match(path)?;
        Ok(Verdict {
            is_match,
            goes_on: true,
        })
    }

    fn verdict_within(
        &mut self,
        path: &CandidatePath<'_>,
        _most: usize,
    ) -> Result<Verdict, NoMemory> {
        self.verdict(path)
    }
}
