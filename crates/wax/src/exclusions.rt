//! Walks without what patterns match or lists ignore.
ghost use Rattle.std.specs.Prelude.{◌≡◌, IfOk, MatchResult};
ghost use Rattle.wax_token.specs.{Reads.Span, Syntax.Tree};
ghost use Rattle.wax_walk.specs.{Known.StaysKnown, Ruled.ruled_view, View.IsSeenAs};
ghost use Rattle.wax_exclude.specs.{GlobRequests.ComesExcluding, Wanted.{not_ignored, not_meant}};
ghost use Rattle.wax.specs.Exclusions.{IsAnyExclusionOf, IsExclusionOf, IsWalkExcluding, NoAnyExclusion};
ghost use Rattle.wax.specs.{Exclusions.NoExclusion, Ignoring.IsWalkIgnoring};

use crate::ignoring::IgnoreList;
use std::alloc::Global;
use wax_exclude::Exclusion;
use wax_filter::filter::SeparatingFilter;
use wax_query::diagnostics::Refusal;
use wax_rule::BuildError;
use wax_set::Pattern;
use wax_tree::FilterAny;
use wax_walk::{Exclude, Excluding, FileIterator};

/// A walk without what a pattern matches.
pub type Not<I> = Excluding<I, Exclusion>;

/// A walk without what an ignore list ignores.
pub type Ignore<I> = Excluding<I, IgnoreList>;

/// Builds the rule that excludes what the pattern matches from a walk.
///
/// # Errors
///
/// Returns the errors of `Pattern::into_checked`, and `Compile` (9) if the program of the pattern
/// would have more than 1,048,576 instructions.
pub fn exclusion_of<P: Pattern>(alloc: Global, pattern: P) -> Result<Exclusion, BuildError>
    ensures { MatchResult result (λ e. IsExclusionOf (P.spells pattern) (⟦<Exclusion as Exclude>⟧.rule e))
        (NoExclusion (P.spells pattern) (P.refuses pattern)) }
{
    let checked = match pattern.into_checked(alloc) {
        Ok(checked) => checked,
        Err(error) => return Err(error),
    };
    match Exclusion::new(alloc, checked.release()) {
        Ok(exclusion) => Ok(exclusion),
        Err(Refusal::Refused(error)) => Err(BuildError::Compile(error)),
        Err(Refusal::Memory) => Err(BuildError::Memory),
    }
}

/// Rules that are built from several patterns.
pub trait FilterAnyExt: Sized {
    ghost use Rattle.wax_walk.specs.{Candidates.Candidate, Given.Mark};

    /// What the rule decides about each candidate.
    ghost rule_of: { Self → Candidate → Mark };

    /// Builds the rule that excludes what at least one of the patterns matches. An entry is excluded
    /// with everything below it if an alternative of one of them covers it.
    ///
    /// ```
    /// use wax::walk::{FilterAny, Tree, collect};
    ///
    /// let tree = Tree::from_paths(alloc, &["src/lib.rs", "src/lib.o", "target/lib.rs"])?;
    /// let filter = FilterAny::any(alloc, vec![in alloc; "**/*.o", "target/**"]?)?;
    /// let (items, _) = collect(alloc, "".walk(alloc, tree).excluding(alloc, filter))?;
    /// println!(rt; "{}", items.len())?; // 3
    /// ```
    ///
    /// # Errors
    ///
    /// Returns the errors of `exclusion_of` for the first pattern that has one.
    fn any<P: Pattern + Drop>(alloc: Global, patterns: Vec<P>) -> Result<Self, BuildError>
        ensures { MatchResult result (λ any. IsAnyExclusionOf P.spells patterns.items (rule_of any))
            (NoAnyExclusion P.spells P.refuses patterns.items) };
}

impl FilterAnyExt for FilterAny<Exclusion> {
    ghost rule_of = { ⟦<FilterAny<Exclusion> as Exclude>⟧.rule };

    fn any<P: Pattern + Drop>(alloc: Global, patterns: Vec<P>) -> Result<Self, BuildError> {
        let mut exclusions = Vec::new(alloc);
        for pattern in patterns {
            let exclusion = match exclusion_of(alloc, pattern) {
                Ok(exclusion) => exclusion,
                Err(error) => return Err(error),
            };
            exclusions.push(exclusion)?;
        }
        Ok(FilterAny::new(exclusions))
    }
}

/// Excludes from a walk what the pattern matches. If an alternative of the pattern covers an entry,
/// everything below the entry is excluded with it, and isn't even listed. An entry that matches in
/// another way is excluded by itself.
///
/// ```
/// use wax::walk::{Tree, collect, excluding_pattern};
///
/// let tree = Tree::from_paths(alloc, &["src/lib.rs", "target/lib.rs"])?;
/// let walk = excluding_pattern(alloc, "".walk(alloc, tree), "target/**")?;
/// let (items, _) = collect(alloc, walk)?;
/// for item in &items {
///     match item {
///         Ok(entry) => println!(rt; "{:?}", entry.path())?, // ""; "src"; "src/lib.rs"
///         Err(error) => println!(rt; "{error}")?,
///     }
/// }
/// ```
///
/// # Errors
///
/// Returns the errors of `exclusion_of`. The walk is dropped then.
pub fn excluding_pattern<I, P>(alloc: Global, walk: I, pattern: P) -> Result<Not<I>, BuildError>
where
    I: FileIterator,
    P: Pattern,
    ensures excludes { MatchResult result (λ w. IsWalkExcluding (P.spells pattern) (I.view walk)
        (⟦<Not<I> as FileIterator>⟧.view w)
        × (⟦<Not<I> as SeparatingFilter>⟧.left w ≡ I.left walk))
        (NoExclusion (P.spells pattern) (P.refuses pattern)) }
    ensures comes { IfOk result (λ w. (t : Tree Span) → P.spells pattern t
        → ComesExcluding I.Directory.law (not_meant t) (I.view walk) (⟦<Not<I> as FileIterator>⟧.view w)) }
    ensures feeds { I.can_feed walk → IfOk result (λ w. ⟦<Not<I> as SeparatingFilter>⟧.can_feed w) }
    ensures known { IfOk result (λ w. StaysKnown (I.known walk) (⟦<Not<I> as FileIterator>⟧.known w)) }
{
    match exclusion_of(alloc, pattern) {
        Ok(exclusion) => Ok(walk.excluding(alloc, exclusion)),
        Err(error) => Err(error),
    }
}

/// Excludes from a walk what the list ignores. If an alternative of a line that ignores covers an
/// entry, and no line after it stops ignoring, everything below the entry is excluded with it, and
/// isn't even listed. An entry that is ignored in another way is excluded by itself.
///
/// ```
/// use wax::walk::{Tree, collect, excluding_ignored};
///
/// let tree = Tree::from_paths(alloc, &["src/lib.rs", "src/lib.o"])?;
/// let list = IgnoreList::parse(alloc, "**/*.o\n")?;
/// let (items, _) = collect(alloc, excluding_ignored(alloc, "".walk(alloc, tree), list))?;
/// println!(rt; "{}", items.len())?; // 3
/// ```
pub fn excluding_ignored<I: FileIterator>(alloc: Global, walk: I, list: IgnoreList) -> Ignore<I>
    ensures view { IsWalkIgnoring list (I.view walk) (⟦<Ignore<I> as FileIterator>⟧.view result) }
    ensures comes { ComesExcluding I.Directory.law (not_ignored list) (I.view walk)
        (⟦<Ignore<I> as FileIterator>⟧.view result) }
    ensures ends { ⟦<Ignore<I> as SeparatingFilter>⟧.left result ≡ I.left walk }
    ensures feeds { I.can_feed walk → ⟦<Ignore<I> as SeparatingFilter>⟧.can_feed result }
    ensures known { StaysKnown (I.known walk) (⟦<Ignore<I> as FileIterator>⟧.known result) }
{
    walk.excluding(alloc, list)
}

/// Walks from which patterns and ignore lists can be excluded.
pub trait FileIteratorExt: FileIterator {
    /// Excludes what the pattern matches, as `excluding_pattern` does. The borrow checker doesn't accept
    /// this call yet if the type of the walk is written out: call that function then.
    ///
    /// # Errors
    ///
    /// Returns the errors of `exclusion_of`. The walk is dropped then.
    final fn not<P: Pattern>(self, alloc: Global, pattern: P) -> Result<Not<Self>, BuildError>
    where
        Self: Sized,
        ensures excludes { MatchResult result (λ w. IsWalkExcluding (P.spells pattern) (Self.view self)
            (⟦<Not<Self> as FileIterator>⟧.view w)
            × (⟦<Not<Self> as SeparatingFilter>⟧.left w ≡ Self.left self))
            (NoExclusion (P.spells pattern) (P.refuses pattern)) }
        ensures comes { IfOk result (λ w. (t : Tree Span) → P.spells pattern t
            → ComesExcluding Self.Directory.law (not_meant t) (Self.view self)
            (⟦<Not<Self> as FileIterator>⟧.view w)) }
        ensures feeds { Self.can_feed self
            → IfOk result (λ w. ⟦<Not<Self> as SeparatingFilter>⟧.can_feed w) }
        ensures known { IfOk result
            (λ w. StaysKnown (Self.known self) (⟦<Not<Self> as FileIterator>⟧.known w)) }
    {
        excluding_pattern(alloc, self, pattern)
    }

    /// Excludes what the list ignores, as `excluding_ignored` does. The borrow checker doesn't accept
    /// this call yet if the type of the walk is written out: call that function then.
    final fn ignore(self, alloc: Global, list: IgnoreList) -> Ignore<Self>
    where
        Self: Sized,
        ensures view { IsWalkIgnoring list (Self.view self) (⟦<Ignore<Self> as FileIterator>⟧.view result) }
        ensures comes { ComesExcluding Self.Directory.law (not_ignored list) (Self.view self)
            (⟦<Ignore<Self> as FileIterator>⟧.view result) }
        ensures ends { ⟦<Ignore<Self> as SeparatingFilter>⟧.left result ≡ Self.left self }
        ensures feeds { Self.can_feed self → ⟦<Ignore<Self> as SeparatingFilter>⟧.can_feed result }
        ensures known { StaysKnown (Self.known self) (⟦<Ignore<Self> as FileIterator>⟧.known result) }
    {
        excluding_ignored(alloc, self, list)
    }
}

impl<I: FileIterator> FileIteratorExt for I {}
