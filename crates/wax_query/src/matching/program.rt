//! What can be matched against a path.
ghost use Rattle.std.specs.Prelude.{◌≡◌, ◌↔◌, ◌≤◌, ◌+◌, ◌*◌, ◌++◌, ◌∷◌, ℕ, Bool, List, IsTrue, IfOk, IfSome};
ghost use Rattle.std.specs.Prelude.{Option, chars, length, true};
ghost use Rattle.wax_query.specs.Matched.{IsMatchOf, cube_visits};
ghost use Rattle.wax_query.specs.Components.{Bare, BeginsWithSlash, component_total};
ghost use Rattle.wax_query.specs.{Ranges.{AtMost, bounds}, Variances.text_of};
ghost use Rattle.wax_query.specs.declared.query.when.When.TheVariants.{Always};

use crate::diagnostics::NoMemory;
use crate::matching::candidate::CandidatePath;
use crate::matching::matched::MatchedText;
use crate::query::{DepthVariance, TextVariance, Variance, When};
use std::alloc::Global;

/// A set of texts, whose members are decided by a program of instructions.
pub trait Program {
    // The texts that it matches, each as its characters.
    ghost means: { Self → List ℕ → Type 0 };

    // The texts that it matches, as a function to booleans.
    ghost decides: { Self → List ℕ → Bool };

    // For which folders, by their texts, its matchers say that something at most so many names below
    // may match, if there is such a limit.
    ghost goes_on: { Self → Option ℕ → List ℕ → Bool } = { λ _ _ _. true };

    // What is captured of a text that it matches, each capture as its characters.
    ghost captured: { Self → List ℕ → List (List ℕ) → Type 0 };

    // The greatest number of instructions that it may have.
    ghost program_length: { Self → ℕ };

    /// Returns whether the program matches the whole path, and the number of instructions that it
    /// visited. That number is at most the program's length for each character and once more at the
    /// end. If the path matches, it is at least the number of characters.
    fn is_match_counted(
        &self,
        alloc: Global,
        path: &CandidatePath<'_>,
    ) -> Result<(bool, u128), NoMemory>
        ensures decides { IfOk result (λ answer. IsTrue answer.0 ↔ means self.now path.now) }
        ensures above { IfOk result (λ answer. answer.1 ≤ program_length self.now * (length path.now + 1)) }
        ensures below { IfOk result (λ answer. IsTrue answer.0 → length path.now ≤ answer.1) };

    /// Returns whether the program matches the whole path.
    fn is_match(&self, alloc: Global, path: &CandidatePath<'_>) -> Result<bool, NoMemory>
        ensures means { IfOk result (λ answer. IsTrue answer ↔ means self.now path.now) }
        ensures decides { IfOk result (λ answer. answer ≡ decides self.now path.now) }
    {
        let (answer, _) = self.is_match_counted(alloc, path)?;
        Ok(answer)
    }

    /// Matches the whole path. Returns its text with the captures, or `None` if it doesn't match,
    /// and the number of instructions that were visited: at most 8 times the program's length times
    /// the cube of one more than the number of characters. If the path matches, it is at least the
    /// number of characters.
    fn matched_counted<'p>(
        &self,
        alloc: Global,
        path: &'p CandidatePath<'_>,
    ) -> Result<(Option<MatchedText<'p>>, u128), NoMemory>
        ensures matched { IfOk result (λ answer.
            IsMatchOf (means self.now) (captured self.now) path.now answer.0) }
        ensures above { IfOk result (λ answer. answer.1 ≤ cube_visits (program_length self.now) path.now) }
        ensures below { IfOk result (λ answer. IfSome answer.0 (λ _. length path.now ≤ answer.1)) };

    /// Matches the whole path. Returns its text with the captures, or `None` if it doesn't match.
    fn matched<'p>(
        &self,
        alloc: Global,
        path: &'p CandidatePath<'_>,
    ) -> Result<Option<MatchedText<'p>>, NoMemory>
        ensures { IfOk result (IsMatchOf (means self.now) (captured self.now) path.now) }
    {
        let (matched, _) = self.matched_counted(alloc, path)?;
        Ok(matched)
    }

    /// Returns bounds for the number of components of the texts that match. None has more than the
    /// upper bound. None has fewer than the lower one, unless it is empty or has a `/` at an end.
    /// By default there are no bounds.
    fn depth(&self) -> DepthVariance
        ensures least { (s : List ℕ) → means self.now s → Bare s → (bounds result).0 ≤ component_total s }
        ensures greatest { (s : List ℕ) → means self.now s → AtMost (component_total s) (bounds result).1 }
    {
        DepthVariance::from_closed_and_open(0, None)
    }

    /// Returns the only text that can match, if there is one and it is known.
    fn text(&self, _alloc: Global) -> Result<TextVariance<'static>, NoMemory>
        ensures only { IfOk result (λ text. IfSome (text_of text) (λ t. (s : List ℕ)
            → means self.now s → s ≡ chars t)) }
    {
        Ok(Variance::Variant(()))
    }

    /// Returns `Always` only if every match begins with `/`. Nothing is claimed for `Sometimes` and
    /// `Never`.
    fn has_root(&self) -> When
        ensures always { result ≡ Always → (s : List ℕ) → means self.now s → BeginsWithSlash s }
    {
        When::Sometimes
    }

    /// Returns `Always` only if everything below a match matches too. Nothing is claimed for
    /// `Sometimes` and `Never`.
    fn is_exhaustive(&self) -> When
        ensures always { result ≡ Always → (s r : List ℕ)
            → means self.now s → means self.now (s ++ 47 ∷ r) }
    {
        When::Sometimes
    }

    // The function agrees with the set.
    ghost is_decided: { (program : Self) (text : List ℕ)
        → IsTrue (decides program text) ↔ means program text };
}
