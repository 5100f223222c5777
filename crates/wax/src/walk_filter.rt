//! Filters of walks: patterns and ignore lists.
ghost use Rattle.std.specs.Prelude.{◌≡◌, ◌↔◌, ◌≤◌, ◌+◌, ℕ, IfOk, IsTrue, List, MatchResult, length, true};
ghost use Rattle.wax_exclude.specs.{Candidates.{NoSlashAfterNames, folder_at}, GlobRequests.IsRuleOf};
ghost use Rattle.wax_exclude.specs.{Walked.ExcludesBelow, Wanted.{Filter, excludes, not_ignored}};
ghost use Rattle.wax_lazy.specs.Cost.{path_visits};
ghost use Rattle.wax_query.specs.Below.{IsBelow};
ghost use Rattle.wax_token.specs.Reads.{Span};
ghost use Rattle.wax_walk.specs.Given.{with_tree};
ghost use Rattle.wax.specs.Exclusions.{IsNotRule, NoExclusion, filter_length};

use crate::exclusions::exclusion_of;
use crate::ignoring::IgnoreList;
use std::alloc::Global;
use wax_exclude::Exclusion;
use wax_match::encode::Meter;
use wax_query::diagnostics::NoMemory;
use wax_query::matching::CandidatePath;
use wax_rule::BuildError;
use wax_set::Pattern;
use wax_walk::{Candidate, EntryResidue, Exclude};

/// A filter of a walk: it excludes what a pattern matches, or what an ignore list ignores.
#[derive(Drop)]
pub enum WalkFilter {
    Not(Exclusion),
    Ignore(IgnoreList),
}

impl WalkFilter {
    /// Builds a filter that excludes what the pattern matches.
    ///
    /// # Errors
    ///
    /// Returns the errors of `exclusion_of`.
    pub fn not<P: Pattern>(alloc: Global, pattern: P) -> Result<WalkFilter, BuildError>
        ensures { MatchResult result
            (λ filter. IsNotRule (P.spells pattern) (⟦<WalkFilter as Exclude>⟧.rule filter))
            (NoExclusion (P.spells pattern) (P.refuses pattern)) }
    {
        let exclusion = exclusion_of(alloc, pattern)?;
        Ok(WalkFilter::Not(exclusion))
    }

    /// Wraps a list as a filter that excludes what the list ignores.
    pub fn ignore(list: IgnoreList) -> WalkFilter
        ensures { IsRuleOf (not_ignored list) (⟦<WalkFilter as Exclude>⟧.rule result) }
    {
        WalkFilter::Ignore(list)
    }

    /// Returns whether the filter excludes everything below the folder with this path, by an alternative
    /// that covers the folder: as `Exclusion::excludes_below` and `IgnoreList::ignores_below` do.
    ///
    /// If it returns false, everything below may still be excluded, each path by itself. If a `/`
    /// follows the last name of the path, no promise is made of what is below. It takes time in
    /// proportion to the alternatives of the pattern that end with `**`, or to the number of lines.
    ///
    /// ```
    /// use wax::walk::WalkFilter;
    ///
    /// let filter = WalkFilter::not(alloc, "{target,out}/**")?;
    /// println!(rt; "{}", filter.excludes_below(alloc, &CandidatePath::from("out"))?)?; // true
    /// println!(rt; "{}", filter.excludes_below(alloc, &CandidatePath::from("src"))?)?; // false
    /// ```
    pub fn excludes_below(&self, alloc: Global, path: &CandidatePath<'_>) -> Result<bool, NoMemory>
        ensures says { IfOk result (λ answer. IsTrue answer
            ↔ (⟦<WalkFilter as Exclude>⟧.rule self.now (folder_at path.now) ≡ with_tree)) }
        ensures covers { IfOk result (λ answer. (x : Filter Span)
            → IsRuleOf x (⟦<WalkFilter as Exclude>⟧.rule self.now)
            → IsTrue answer ↔ ExcludesBelow x (folder_at path.now)) }
        ensures below { NoSlashAfterNames path.now → IfOk result (λ answer. (x : Filter Span)
            → IsRuleOf x (⟦<WalkFilter as Exclude>⟧.rule self.now) → IsTrue answer → (s : List ℕ)
            → IsBelow path.now s → excludes x s ≡ true) }
    {
        let mut meter = Meter::new();
        self.excludes_below_metered(alloc, path, &mut meter)
    }

    /// Returns what `excludes_below` does, and moves the meter as `Exclusion::excludes_below_metered` or
    /// `IgnoreList::ignores_below_metered` does.
    pub fn excludes_below_metered(
        &self,
        alloc: Global,
        path: &CandidatePath<'_>,
        meter: &mut Meter,
    ) -> Result<bool, NoMemory>
        ensures says { IfOk result (λ answer. IsTrue answer
            ↔ (⟦<WalkFilter as Exclude>⟧.rule self.now (folder_at path.now) ≡ with_tree)) }
        ensures covers { IfOk result (λ answer. (x : Filter Span)
            → IsRuleOf x (⟦<WalkFilter as Exclude>⟧.rule self.now)
            → IsTrue answer ↔ ExcludesBelow x (folder_at path.now)) }
        ensures below { NoSlashAfterNames path.now → IfOk result (λ answer. (x : Filter Span)
            → IsRuleOf x (⟦<WalkFilter as Exclude>⟧.rule self.now) → IsTrue answer → (s : List ℕ)
            → IsBelow path.now s → excludes x s ≡ true) }
        ensures above { let size = filter_length self.now in
            meter.new ≤ meter.old + path_visits size (length path.now) + size }
        ensures steady { meter.old ≤ meter.new }
    {
        match self {
            WalkFilter::Not(exclusion) => exclusion.excludes_below_metered(alloc, path, meter),
            WalkFilter::Ignore(list) => list.ignores_below_metered(alloc, path, meter),
        }
    }
}

impl Exclude for WalkFilter {
    ghost use Rattle.wax.specs.Exclusions.{rule_by};

    ghost rule = { rule_by ⟦<Exclusion as Exclude>⟧.rule ⟦<IgnoreList as Exclude>⟧.rule };

    fn residue(
        &mut self,
        alloc: Global,
        candidate: Candidate<'_>,
    ) -> Result<Option<EntryResidue>, NoMemory> {
        match self {
            WalkFilter::Not(exclusion) => exclusion.residue(alloc, candidate),
            WalkFilter::Ignore(list) => list.residue(alloc, candidate),
        }
    }
}
