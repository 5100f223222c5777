//! Walks that keep what a program matches, without captures, and open only folders below which
//! something can match.

ghost use Rattle.std.specs.Prelude.{◌≡◌, IfOk, false};
ghost use Rattle.wax_tree.specs.Programs.{matches_below, matches_from, limit_below};
ghost use Rattle.wax_walk.specs.{Pruned.selected_view, View.IsSeenAs};

use crate::walk_tree::WalkTree;
use std::alloc::Global;
use wax_directory::directory::Directory;
use wax_filter::filter::SeparatingFilter;
use wax_query::diagnostics::NoMemory;
use wax_query::matching::{BuildMatcher, CandidatePath, PathMatcher};
use wax_query::query::Verdict;
use wax_walk::{Candidate, FileIterator, Select, Selecting, Selection};

/// Greatest depths from this one on set no limit to what is looked for below a folder, since a matcher
/// needs time and memory for each name up to the limit.
const UNLIMITED_DEPTH: usize = 64;

/// A selection of the entries that a matcher matches, from a least depth on. It opens the folders
/// below which something may match that isn't deeper than the greatest depth, if that is less than
/// 64. Each entry is matched once.
#[derive(Drop)]
pub struct Matched<M> {
    matcher: M,
    least: usize,
    /// The greatest depth.
    greatest: usize,
}

impl<M: PathMatcher> Matched<M> {
    // Judges a folder: whether it matches, and whether something that the walk can reach below it may.
    fn judge(&mut self, path: &CandidatePath<'_>, depth: usize) -> Result<Verdict, NoMemory>
        ensures decides { IfOk result (λ v. v.is_match ≡ M.decides self.old.matcher path.now) }
        ensures below { IfOk result (λ v. v.goes_on
            ≡ M.goes_on self.old.matcher (limit_below self.old.greatest depth) path.now) }
        ensures same { M.decides self.new.matcher ≡ M.decides self.old.matcher }
        ensures onward { M.goes_on self.new.matcher ≡ M.goes_on self.old.matcher }
        ensures depths { (self.new.least ≡ self.old.least) × (self.new.greatest ≡ self.old.greatest) }
    {
        if self.greatest >= UNLIMITED_DEPTH {
            return self.matcher.verdict(path);
        }
        let most = self.greatest.saturating_sub(depth);
        self.matcher.verdict_within(path, most)
    }
}

impl<M: PathMatcher> Select for Matched<M> {
    ghost keeps = { λ s. matches_from M.decides s.matcher s.least };

    ghost goes_on = { λ s. matches_below M.goes_on s.matcher s.greatest };

    fn select(
        &mut self,
        _alloc: Global,
        candidate: Candidate<'_>,
        is_folder: bool,
    ) -> Result<Selection, NoMemory> {
        let path = CandidatePath::from(candidate.path);
        let is_deep = candidate.depth >= self.least;
        if is_folder {
            let verdict = self.judge(&path, candidate.depth)?;
            Ok(Selection {
                is_kept: is_deep && verdict.is_match,
                goes_on: verdict.goes_on,
            })
        } else {
            let is_match = self.matcher.is_match(&path)?;
            Ok(Selection {
                is_kept: is_deep && is_match,
                goes_on: false,
            })
        }
    }
}

/// The walk of what a program matches, without captures. Its entries are those of the plain walk.
pub type Uncaptured<'p, D, P> = Selecting<WalkTree<D>, Matched<<P as BuildMatcher<'p>>::Matcher>>;

/// Builds the walk of what a program matches, from the depth `least` on, from a plain walk that ends
/// at the depth `greatest`. It opens only the folders below which something may match, at no more than
/// that depth if it is less than 64.
pub fn uncaptured_of<'p, D, P>(
    alloc: Global,
    walk: WalkTree<D>,
    program: &'p P,
    least: usize,
    greatest: usize,
) -> Result<Uncaptured<'p, D, P>, NoMemory>
where
    D: Directory,
    P: BuildMatcher<'p>,
    ensures view { IfOk result (λ w. IsSeenAs (selected_view (⟦<WalkTree<D> as FileIterator>⟧.view walk)
        (matches_from P.decides program.now least)
        (matches_below P.goes_on program.now greatest) false)
        (⟦<Uncaptured<'p, D, P> as FileIterator>⟧.view w)) }
    ensures ends { IfOk result (λ w. ⟦<Uncaptured<'p, D, P> as SeparatingFilter>⟧.left w
        ≡ ⟦<WalkTree<D> as SeparatingFilter>⟧.left walk) }
    ensures feeds { IfOk result (λ w. ⟦<Uncaptured<'p, D, P> as SeparatingFilter>⟧.can_feed w) }
{
    let matcher = program.build_matcher(alloc)?;
    Ok(walk.selecting(
        alloc,
        Matched {
            matcher,
            least,
            greatest,
        },
    ))
}
