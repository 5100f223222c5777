//! Ignore lists: texts whose lines select what to exclude from a walk.
ghost use Rattle.std.specs.Prelude.{◌≡◌, ◌<◌, ◌≤◌, ◌↔◌, ◌+◌, ◌*◌, ◌++◌, ◌∷◌, [], ℕ, IsTrue, List, IfOk, All};
ghost use Rattle.std.specs.Prelude.{MatchResult, false, filter, length, map, true};
ghost use Rattle.wax_directory.specs.Shown.{Shown};
ghost use Rattle.wax_exclude.specs.Candidates.{NoSlashAfterNames, folder_at};
ghost use Rattle.wax_exclude.specs.{Deciding.{IsDecidingLine, SaysLines, ignores_at}, Idle.AreIdle};
ghost use Rattle.wax_exclude.specs.{GlobRequests.walk_for, Kept.{KeepsUnignored, unignored_request}};
ghost use Rattle.wax_exclude.specs.{Length.list_length, Lines.written_of, RuledWalks.with_rule};
ghost use Rattle.wax_exclude.specs.{Told.{KeepsAnswered, LeavesAnswered}, TreeRequests.tree_request};
ghost use Rattle.wax_exclude.specs.{Ignored.{IgnoresBelow, is_ignored}, Tidy.TidiesUp};
ghost use Rattle.wax_exclude.specs.Undecided.{AreUndecided, IsUndecided};
ghost use Rattle.wax_lazy.specs.Cost.{path_visits};
ghost use Rattle.wax_query.specs.Below.{IsBelow};
ghost use Rattle.wax_tree.specs.Begins.{behavior_range, start_view};
ghost use Rattle.wax_walk.specs.{Candidates.of_candidate, Collected.Took, Entries.given_outcome};
ghost use Rattle.wax_walk.specs.{Given.{Given, is_kept, with_tree}, Ruled.ruled_view};
ghost use Rattle.wax.specs.Ignoring.{IsListOf, IsNoList, IsReadAs, IsUnread, refusal_number, refused_at};

use crate::exclusions::excluding_ignored;
use std::alloc::{AllocFailed, Global};
use std::marker::Model;
use thiserror::Error;
use wax_compare::{Compared, Selector};
use wax_directory::directory::Directory;
use wax_exclude::{
    DecidingLines, IdleLine, IgnoreLine, IgnoreRule, TidyLines, WrittenLine, collect,
    law_of_ignoring, law_of_plain_walks, written_lines,
};
use wax_match::encode::Meter;
use wax_query::diagnostics::NoMemory;
use wax_query::matching::CandidatePath;
use wax_rule::BuildError;
use wax_set::Pattern;
use wax_tree::{PathExt, WalkBehavior};
use wax_walk::{Candidate, Entry, EntryResidue, Exclude, TreeEntry, WalkError};

/// Why a text isn't an ignore list.
#[derive(Debug, Drop, Error)]
pub enum IgnoreError {
    /// The glob of a line has an error (21). `line` is the number of the line, from 1.
    #[error("line {line}: {error}")]
    BadLine { line: usize, error: BuildError },
    /// Allocation failed (10).
    #[error("no memory")]
    Memory,
}

impl IgnoreError {
    /// Returns the number of the error: 21 for `BadLine`, 10 for `Memory`.
    pub fn number(&self) -> u8
        ensures { result ≡ refusal_number self.now }
    {
        match self {
            IgnoreError::BadLine { .. } => 21,
            IgnoreError::Memory => 10,
        }
    }
}

impl From<NoMemory> for IgnoreError {
    ghost use Rattle.std.specs.Prelude.{◌≡◌};
    ghost use Rattle.wax.specs.declared.ignoring.IgnoreError.TheVariants.{Memory};

    ghost from_gives = { λ _ error. error ≡ Memory };

    fn from(_: NoMemory) -> Self {
        IgnoreError::Memory
    }
}

impl<T: Drop> From<AllocFailed<T>> for IgnoreError {
    ghost use Rattle.std.specs.Prelude.{◌≡◌};
    ghost use Rattle.wax.specs.declared.ignoring.IgnoreError.TheVariants.{Memory};

    ghost from_gives = { λ _ error. error ≡ Memory };

    fn from(_: AllocFailed<T>) -> Self {
        IgnoreError::Memory
    }
}

/// An ignore list: lines of globs, each of which ignores what it matches or stops ignoring it. The
/// last line that matches a path decides. Contracts see the lines.
#[derive(Drop)]
pub struct IgnoreList {
    rule: IgnoreRule,
}

impl Model for IgnoreList {
    ghost use Rattle.std.specs.{Prelude.List, Coded.coded_list};
    ghost use Rattle.wax_token.specs.Reads.{Span};
    ghost use Rattle.wax_exclude.specs.Ignored.{Line, line_code};

    ghost Value = { List (Line Span) };

    ghost coded = { coded_list line_code };

    ghost view = { λ list. list.rule };
}

/// An ignore list without the lines that decide nothing about plain paths.
#[derive(Drop)]
pub struct TidyList {
    pub list: IgnoreList,
    /// The index of each line of `list` in the list that was tidied, from 0.
    pub indexes: Vec<usize>,
    /// The lines that were removed, by their indexes in the list that was tidied, in the order in which
    /// they can go. The reason of each is why it decides nothing once those before it are gone.
    pub removed: Vec<IdleLine>,
    /// The indexes of those lines of `list` of which it isn't known whether they decide.
    pub unknown: Vec<usize>,
}

impl IgnoreList {
    /// Reads an ignore list, one glob per line. Each line ends at a line feed or at the end of the
    /// text, and one carriage return at its end is dropped. A line that is empty, or that begins
    /// with `#`, is skipped. If a line begins with `!`, the glob after the `!` stops ignoring what
    /// it matches. Every other line is a glob that ignores what it matches.
    ///
    /// Reading takes time and memory in proportion to the text, and to the lines' tokens and their
    /// cost.
    ///
    /// ```
    /// let list = IgnoreList::parse(alloc, "# what was built\n**/*.o\n!keep.o\n")?;
    /// println!(rt; "{}", list.is_ignored(alloc, &CandidatePath::from("a/b.o"))?)?; // true
    /// println!(rt; "{}", list.is_ignored(alloc, &CandidatePath::from("keep.o"))?)?; // false
    /// ```
    ///
    /// # Errors
    ///
    /// Returns `BadLine` (21) for the first line whose glob has an error, and `Memory` (10) if
    /// allocation fails.
    pub fn parse(alloc: Global, text: &str) -> Result<IgnoreList, IgnoreError>
        ensures { MatchResult result (IsListOf text.now) (IsNoList text.now) }
    {
        let written = written_lines(alloc, text)?;
        let mut lines = Vec::new(alloc);
        for line in &written {
            match read(alloc, line) {
                Ok(line) => lines.push(line)?,
                Err(error) => return Err(refused(line.number, error)),
            }
        }
        let rule = IgnoreRule::new(alloc, lines)?;
        Ok(IgnoreList { rule })
    }

    /// Returns whether the last line that matches the path ignores it; false if no line matches.
    /// A quick test for the literals of all lines comes first, if they are at most 256 and no line is
    /// without one: it rejects most paths that no line matches. Otherwise the call takes time in
    /// proportion to the number of lines. For many paths, use `is_ignored_cached`.
    pub fn is_ignored(&self, alloc: Global, path: &CandidatePath<'_>) -> Result<bool, NoMemory>
        ensures { IfOk result (λ answer. answer ≡ is_ignored self.now path.now) }
    {
        self.rule.is_ignored(alloc, path)
    }

    /// Returns what `is_ignored` does, and moves the meter by the number of instructions that the list's
    /// program visits. Its bound is that of `is_ignored_cached_metered`. Paths that the quick test rejects
    /// move the meter by nothing.
    pub fn is_ignored_metered(
        &self,
        alloc: Global,
        path: &CandidatePath<'_>,
        meter: &mut Meter,
    ) -> Result<bool, NoMemory>
        ensures decides { IfOk result (λ answer. answer ≡ is_ignored self.now path.now) }
        ensures above { let size = list_length self.now in
            meter.new ≤ meter.old + path_visits size (length path.now) + size }
        ensures steady { meter.old ≤ meter.new }
    {
        self.rule.is_ignored_metered(alloc, path, meter)
    }

    /// Returns what `is_ignored` does, and keeps what it learns from each path for the next ones. What
    /// it keeps takes memory in proportion to the number of lines.
    ///
    /// ```
    /// let mut list = IgnoreList::parse(alloc, "**/*.o\n!keep.o\n")?;
    /// for path in vec![in alloc; "a/b.o", "keep.o"]? {
    ///     let is_ignored = list.is_ignored_cached(alloc, &CandidatePath::from(path))?;
    ///     println!(rt; "{is_ignored}")?; // true; false
    /// }
    /// ```
    ///
    /// # Errors
    ///
    /// Returns `NoMemory` if allocation fails. The list can be used for further paths after that.
    pub fn is_ignored_cached(
        &mut self,
        alloc: Global,
        path: &CandidatePath<'_>,
    ) -> Result<bool, NoMemory>
        ensures decides { IfOk result (λ answer. answer ≡ is_ignored self.old path.now) }
        ensures same { self.new ≡ self.old }
    {
        self.rule.is_ignored_cached(alloc, path)
    }

    /// Returns what `is_ignored_cached` does, and moves the meter by the number of instructions that the
    /// list's program visits, whatever earlier paths led to: at most its length for each character and once
    /// more at the end, or nine times that if its length exceeds 256; and at the end at most its length
    /// once more. Paths that lead only to what earlier ones led to move it by nothing.
    ///
    /// The length of the program is at most that of the programs of all globs together, with 1 more for
    /// each, and 2.
    ///
    /// # Errors
    ///
    /// Returns `NoMemory` if allocation fails. The list can be used for further paths after that.
    pub fn is_ignored_cached_metered(
        &mut self,
        path: &CandidatePath<'_>,
        meter: &mut Meter,
    ) -> Result<bool, NoMemory>
        ensures decides { IfOk result (λ answer. answer ≡ is_ignored self.old path.now) }
        ensures same { self.new ≡ self.old }
        ensures above { let size = list_length self.old in
            meter.new ≤ meter.old + path_visits size (length path.now) + size }
        ensures steady { meter.old ≤ meter.new }
    {
        self.rule.is_ignored_cached_metered(path, meter)
    }

    /// Returns whether everything below the folder with this path is ignored: an alternative of a line
    /// that ignores covers the folder, and no line after it begins with `!`. A walk, a watcher or a sync
    /// of your own needn't open such a folder.
    ///
    /// If it returns false, everything below may still be ignored, each path by itself: by `**/*.o`,
    /// or by several lines. If a `/` follows the last name of the path, no promise is made of what is
    /// below. It takes time in proportion to the number of lines.
    ///
    /// ```
    /// let list = IgnoreList::parse(alloc, "target/**\n!keep/**\ndocs/**\n")?;
    /// for path in vec![in alloc; "docs", "docs/api", "target", "src"]? {
    ///     let is_ignored = list.ignores_below(alloc, &CandidatePath::from(path))?;
    ///     println!(rt; "{is_ignored}")?; // true; true; false; false
    /// }
    /// ```
    pub fn ignores_below(&self, alloc: Global, path: &CandidatePath<'_>) -> Result<bool, NoMemory>
        ensures says { IfOk result (λ answer. IsTrue answer
            ↔ (⟦<IgnoreList as Exclude>⟧.rule self.now (folder_at path.now) ≡ with_tree)) }
        ensures covers { IfOk result
            (λ answer. IsTrue answer ↔ IgnoresBelow self.now (folder_at path.now)) }
        ensures below { NoSlashAfterNames path.now → IfOk result (λ answer. IsTrue answer → (s : List ℕ)
            → IsBelow path.now s → is_ignored self.now s ≡ true) }
    {
        self.rule.ignores_below(alloc, path)
    }

    /// Returns what `ignores_below` does, and moves the meter as `is_ignored_metered` does.
    pub fn ignores_below_metered(
        &self,
        alloc: Global,
        path: &CandidatePath<'_>,
        meter: &mut Meter,
    ) -> Result<bool, NoMemory>
        ensures says { IfOk result (λ answer. IsTrue answer
            ↔ (⟦<IgnoreList as Exclude>⟧.rule self.now (folder_at path.now) ≡ with_tree)) }
        ensures covers { IfOk result
            (λ answer. IsTrue answer ↔ IgnoresBelow self.now (folder_at path.now)) }
        ensures below { NoSlashAfterNames path.now → IfOk result (λ answer. IsTrue answer → (s : List ℕ)
            → IsBelow path.now s → is_ignored self.now s ≡ true) }
        ensures above { let size = list_length self.now in
            meter.new ≤ meter.old + path_visits size (length path.now) + size }
        ensures steady { meter.old ≤ meter.new }
    {
        self.rule.ignores_below_metered(alloc, path, meter)
    }

    /// Returns the lines that decide nothing about plain paths, in order, each with the reason: without
    /// one of them, the list ignores the same plain paths. All other lines decide: each is the last one
    /// that matches some plain path, and if it begins with `!`, it takes back a path that a line before
    /// it ignores. A plain path is one or more names, with a `/` between each two.
    ///
    /// A line is compared with few others, mostly. Each comparison reaches at most `most_states` states;
    /// a line for which that isn't enough is returned as `Unknown`.
    ///
    /// ```
    /// use wax::MOST_STATES;
    ///
    /// let list = IgnoreList::parse(alloc, "docs/*.o\n!keep.c\n**/*.o\n")?;
    /// for line in list.idle_lines(alloc, MOST_STATES)? {
    ///     println!(rt; "{}: {:?}", line.index, line.reason)?; // 0: Covered([2]); 1: TakesNothingBack
    /// }
    /// ```
    pub fn idle_lines(&self, alloc: Global, most_states: usize) -> Result<Vec<IdleLine>, NoMemory>
        ensures idle { IfOk result (λ idle. AreIdle self.now idle.items) }
        ensures undecided { IfOk result (λ idle. AreUndecided self.now most_states idle.items) }
    {
        self.rule.idle_lines(alloc, most_states)
    }

    /// Returns the list without the lines of which it is known that they decide nothing about plain paths:
    /// it ignores the same ones. Without some lines, others may decide nothing, too, so it looks for such
    /// lines until there are none. Each line that is left decides some plain path, except those that are
    /// `unknown`, for which a comparison that reaches at most `most_states` states wasn't enough.
    ///
    /// ```
    /// use wax::MOST_STATES;
    ///
    /// let list = IgnoreList::parse(alloc, "**/*.o\ndocs/a\n!docs/a\n")?;
    /// let tidy = list.tidied(alloc, MOST_STATES)?;
    /// println!(rt; "{:?}", tidy.indexes)?; // [0]
    /// for line in &tidy.removed {
    ///     println!(rt; "{}: {:?}", line.index, line.reason)?; // 1: Covered([2]); 2: TakesNothingBack
    /// }
    /// ```
    pub fn tidied(&self, alloc: Global, most_states: usize) -> Result<TidyList, NoMemory>
        ensures tidy { IfOk result (λ tidy. TidiesUp self.now tidy.removed.items tidy.indexes.items
            tidy.list tidy.unknown.items) }
        ensures undecided { IfOk result (λ tidy. All (IsUndecided tidy.list most_states) tidy.unknown.items) }
    {
        let TidyLines {
            lines,
            indexes,
            removed,
            unknown,
        } = self.rule.tidied(alloc, most_states)?;
        let rule = IgnoreRule::new(alloc, lines)?;
        Ok(TidyList {
            list: IgnoreList { rule },
            indexes,
            removed,
            unknown,
        })
    }

    /// Returns the index of the last line that matches the path, or `None` if no line does. This line
    /// decides: the path is ignored exactly if it is there and doesn't begin with `!`. Lines are counted
    /// from 0, without those that are skipped; `written_lines` has their numbers in the text.
    ///
    /// Each call compiles the lines once more. For many paths, use `deciding_lines`.
    ///
    /// ```
    /// let list = IgnoreList::parse(alloc, "**/*.o\n!keep.o\n")?;
    /// for path in vec![in alloc; "a/b.o", "keep.o", "a.c"]? {
    ///     let line = list.deciding_line(alloc, &CandidatePath::from(path))?;
    ///     println!(rt; "{line:?}")?; // Some(0); Some(1); None
    /// }
    /// ```
    pub fn deciding_line(
        &self,
        alloc: Global,
        path: &CandidatePath<'_>,
    ) -> Result<Option<usize>, NoMemory>
        ensures line { IfOk result (IsDecidingLine self.now path.now) }
        ensures decides { IfOk result (λ found. is_ignored self.now path.now ≡ ignores_at self.now found) }
    {
        self.rule.deciding_line(alloc, path)
    }

    /// Returns what `deciding_line` does, and moves the meter by the number of instructions that are visited
    /// to decide the path, without what compiling the lines takes. Its bound is that of
    /// `is_ignored_cached_metered`.
    pub fn deciding_line_metered(
        &self,
        alloc: Global,
        path: &CandidatePath<'_>,
        meter: &mut Meter,
    ) -> Result<Option<usize>, NoMemory>
        ensures line { IfOk result (IsDecidingLine self.now path.now) }
        ensures decides { IfOk result (λ found. is_ignored self.now path.now ≡ ignores_at self.now found) }
        ensures above { let size = list_length self.now in
            meter.new ≤ meter.old + path_visits size (length path.now) + size }
        ensures steady { meter.old ≤ meter.new }
    {
        self.rule.deciding_line_metered(alloc, path, meter)
    }

    /// Compiles the lines once more, to find the deciding lines of many paths. The result keeps what it
    /// learns from each path for the next ones.
    ///
    /// ```
    /// let list = IgnoreList::parse(alloc, "**/*.o\n!keep.o\n")?;
    /// let mut deciding = list.deciding_lines(alloc)?;
    /// for path in vec![in alloc; "a/b.o", "keep.o", "a.c"]? {
    ///     let line = deciding.deciding_line(&CandidatePath::from(path))?;
    ///     println!(rt; "{line:?}")?; // Some(0); Some(1); None
    /// }
    /// ```
    pub fn deciding_lines(&self, alloc: Global) -> Result<DecidingLines, NoMemory>
        ensures says { IfOk result (SaysLines self.now) }
        ensures length { IfOk result (λ deciding. length deciding < list_length self.now) }
    {
        self.rule.deciding_lines(alloc)
    }

    /// Collects the plain walk from `start` without what the list ignores: returns what is kept, in
    /// order, errors included, and the directory. Over a lawful directory, the entries are exactly
    /// those of the whole walk, at the depths of `behavior`, that the list doesn't ignore, and only
    /// folders that may hold one are listed. If memory or the budget runs out, the list is a prefix of
    /// that and then one error. Over any directory, whatever it answered, the items are what such a walk
    /// keeps of a tree that answers so, no more items than the budget allows are taken from folders, and
    /// each error is of a folder that was yielded before or that the walk passes on its way.
    ///
    /// # Errors
    ///
    /// Returns `NoMemory` if allocation fails for the list of entries itself. If it fails in the
    /// walk, the last item is that error.
    pub fn entries<D: Directory>(
        self,
        alloc: Global,
        directory: D,
        start: &str,
        behavior: WalkBehavior,
    ) -> Result<(Vec<Result<TreeEntry, WalkError>>, D), NoMemory>
        ensures took { IfOk result (λ r. (xs : List Given) × (length xs ≤ 2 * behavior.budget + 3)
            × Took D.law (ruled_view (start_view D.law directory start.now (behavior_range behavior))
            (⟦<IgnoreList as Exclude>⟧.rule self) false) r.1 xs
            × (map (given_outcome ⟦<TreeEntry as Entry>⟧.facts ⟦<TreeEntry as Entry>⟧.facts) r.0.items
            ≡ filter is_kept xs)) }
        ensures unignored { IfOk result (λ r. (s : Shown) (listed : List (List ℕ))
            → D.law.shows directory start.now s → D.law.tells directory listed
            → KeepsUnignored (D.law.tells r.1)
            (record { lines = self; range = behavior_range behavior; start = start.now }) s listed
            (map (given_outcome ⟦<TreeEntry as Entry>⟧.facts ⟦<TreeEntry as Entry>⟧.facts) r.0.items)) }
        ensures answered { IfOk result (λ r. KeepsAnswered D.law directory r.1 (unignored_request
            (record { lines = self; range = behavior_range behavior; start = start.now }))
            (map (given_outcome ⟦<TreeEntry as Entry>⟧.facts ⟦<TreeEntry as Entry>⟧.facts) r.0.items)) }
        ensures leaves { IfOk result (λ r. LeavesAnswered D.law directory r.1
            (with_rule (walk_for (tree_request (behavior_range behavior) start.now))
            (of_candidate (⟦<IgnoreList as Exclude>⟧.rule self)))
            (map (given_outcome ⟦<TreeEntry as Entry>⟧.facts ⟦<TreeEntry as Entry>⟧.facts) r.0.items)) }
    {
        let walk = start.walk_with_behavior(alloc, directory, behavior);
        law_of_plain_walks(&walk);
        law_of_ignoring();
        collect(alloc, excluding_ignored(alloc, walk, self))
    }
}

impl Exclude for IgnoreList {
    ghost rule = { λ list. ⟦<IgnoreRule as Exclude>⟧.rule list };

    fn residue(
        &mut self,
        alloc: Global,
        candidate: Candidate<'_>,
    ) -> Result<Option<EntryResidue>, NoMemory> {
        self.rule.residue(alloc, candidate)
    }
}

impl Compared for IgnoreList {
    ghost selects = { ⟦<IgnoreRule as Compared>⟧.selects };

    fn selector(&self) -> Selector<'_> {
        self.rule.selector()
    }
}

fn read(alloc: Global, written: &WrittenLine<'_>) -> Result<IgnoreLine, BuildError>
    ensures { MatchResult result (IsReadAs (written_of written.now)) (IsUnread (written_of written.now)) }
{
    let checked = written.expression.into_checked(alloc)?;
    match IgnoreLine::new(written.ignores, checked.release()) {
        Ok(line) => Ok(line),
        Err(error) => Err(BuildError::Compile(error)),
    }
}

// Adds the number of the line to an error, unless memory ran out: that is no error of the line.
fn refused(line: usize, error: BuildError) -> IgnoreError
    ensures { result ≡ refused_at line error }
{
    match error {
        BuildError::Memory => IgnoreError::Memory,
        error => IgnoreError::BadLine { line, error },
    }
}
