//! The plain walk as a machine of small steps, each of which calls the directory at most once.

ghost use Rattle.std.specs.Prelude.{◌≡◌, ◌≤◌, ◌+◌, ◌^◌, length, ◌-◌, ◌⊎◌, ◌++◌, ◌∷◌, ◌<◌, [], ℕ, List};
ghost use Rattle.std.specs.Prelude.{Option, Some, None, Ok, true, false, OnOk, IfOk, string_bytes};
ghost use Rattle.std.specs.Prelude.{MatchOption, ⊤};
ghost use Rattle.wax_directory.specs.{Answers.listed_of, Counting.{kind_counts, item_counts}};
ghost use Rattle.wax_directory.specs.Shown.{Items, Shown, ShowsIn, first_item, rest_of};
ghost use Rattle.wax_directory.specs.{declared.directory.ListItem.ListItem, History.listed};
ghost use Rattle.wax_walk.specs.{Entries.facts_of, Course.call, Forest.{Forest, Pending, followed_by}};
ghost use Rattle.wax_walk.specs.{Given.{Given, fault}, View.{Accounts, FeedStep}};
ghost use Rattle.wax_tree.specs.Courses.{AlongComes};
ghost use Rattle.wax_tree.specs.Stepping.{ComesLast, ComesWhole, Enters, EntryComes, FolderComes, ItemComes};
ghost use Rattle.wax_tree.specs.Stepping.{PlaceComes, RestComes, StepCourse, TakenComes, UsesCourse};
ghost use Rattle.wax_tree.specs.Stepping.{UsesAnswer, nothing_asked, IncreasesBy, IncreasesByNames};
ghost use Rattle.wax_tree.specs.Stepping.{KeepsLists, Remembers, StepPlaces, WeaklyDecreases, Decreases};
ghost use Rattle.wax_tree.specs.Stepping.{StepIs, Continues, IsPopped, listing_pending, StepAnswers, IsStep};
ghost use Rattle.wax_tree.specs.{Stepping.items_left, inner.Finding.{IsEntry, IsFault, IsFound}};
ghost use Rattle.wax_tree.specs.inner.Heads.{first_item_forest, own_count};
ghost use Rattle.wax_tree.specs.Plain.{Location as Place, entry_forest, below_forest, count, count_shown};
ghost use Rattle.wax_tree.specs.{Plain.{HasKind, IsFolder}, Prefix.{ArePlain, from_last, walk_from}};
ghost use Rattle.wax_tree.specs.Reaching.{IsOf, LeadsUnseen, MayReach, OfEntered, OnWay, OneFolder};
ghost use Rattle.wax_tree.specs.Reaching.{ReachesFrom, no_folders};
ghost use Rattle.wax_tree.specs.Walking.{EnteredShows, PlainToCome, entered_forest, entry_location, located};
ghost use Rattle.wax_tree.specs.Walking.{scope_of, steps_view, names_left, begins, step_given, tree_answer};
ghost use Rattle.wax_tree.specs.Walking.{Rest, open_lists, if_some};

use crate::location::Location;
use std::alloc::{AllocError, Global};
use wax_directory::directory::{Directory, DirectoryFault, FileType, ListItem};
use wax_directory::path::is_plain;
use wax_walk::{Entry, FaultKind, TreeEntry, WalkError, WalkedPath};

/// The location where a walk begins, or that it has reached on its way through the given names.
/// `names` are those that follow, the first of them last, so that they can be popped.
#[derive(Drop)]
pub(crate) struct StartPoint {
    pub(crate) at: Location,
    pub(crate) names: Vec<String>,
}

/// A folder that is being listed.
#[derive(Drop)]
struct OpenFolder<C> {
    folder: Location,
    cursor: C,
}

/// The result of a step. `GoesOn` yields nothing yet.
#[derive(Drop)]
enum Step {
    Gives(Result<TreeEntry, WalkError>),
    GoesOn,
    Ends,
}

/// What an item of a folder becomes: an entry, or a fault of the folder with this path.
#[derive(Drop)]
enum FoundItem {
    Entry(TreeEntry),
    Fault(FaultKind, String),
}

/// The state of a plain walk: `first` or `entered` is what comes next, if there is one, and then
/// the innermost of `levels`, which are the folders that are being listed, the outermost first.
#[derive(Drop)]
pub(crate) struct Steps<D: Directory> {
    alloc: Global,
    pub(crate) directory: D,
    min: usize,
    max: usize,
    first: Option<StartPoint>,
    pub(crate) entered: Option<Location>,
    levels: Vec<OpenFolder<D::Cursor>>,
    budget: u32,
    pub(crate) has_ended: bool,
}

/// Depths from `min` to `max`, and a budget of items from folders.
#[derive(Clone, Copy)]
pub struct DepthRange {
    pub min: usize,
    pub max: usize,
    pub budget: u32,
}

fn entry_in(
    alloc: Global,
    folder: &Location,
    name: String,
    kind: FileType,
) -> Result<FoundItem, AllocError>
    ensures { IfOk result (IsEntry (located folder.now) (string_bytes name) kind) }
{
    let path = WalkedPath::in_folder(alloc, &folder.path, name)?;
    let entry = TreeEntry::from_path(path, folder.depth, kind);
    Ok(FoundItem::Entry(entry))
}

fn fault_in(alloc: Global, folder: &Location, kind: FaultKind) -> Result<FoundItem, AllocError>
    ensures { IfOk result (IsFault (located folder.now) kind) }
{
    let path = String::from_str(alloc, folder.path.as_str())?;
    Ok(FoundItem::Fault(kind, path))
}

// Checks the name of an item before it becomes a part of a path.
fn found_in(alloc: Global, folder: &Location, item: ListItem) -> Result<FoundItem, AllocError>
    ensures { IfOk result (IsFound (located folder.now) item) }
{
    match item {
        ListItem::Name(name, kind) => {
            if is_plain(name.as_str()) {
                entry_in(alloc, folder, name, kind)
            } else {
                fault_in(alloc, folder, FaultKind::BadName)
            }
        }
        ListItem::Failed => fault_in(alloc, folder, FaultKind::Listing),
        ListItem::NotText => fault_in(alloc, folder, FaultKind::NotText),
    }
}

impl<D: Directory> Steps<D> {
    /// Begins at `first`. Without a `first` nothing comes.
    pub(crate) fn new(
        alloc: Global,
        directory: D,
        first: Option<StartPoint>,
        range: DepthRange,
    ) -> Steps<D>
        ensures fields { result ≡ record {
          alloc = alloc;
          directory = directory;
          min = range.min;
          max = range.max;
          first = first;
          entered = None;
          levels = result.levels;
          budget = range.budget;
          has_ended = false;
        } }
        ensures levels { result.levels.items ≡ [] }
    {
        Steps {
            alloc,
            directory,
            min: range.min,
            max: range.max,
            first,
            entered: None,
            levels: Vec::new(alloc),
            budget: range.budget,
            has_ended: false,
        }
    }

    pub(crate) fn into_directory(self) -> D
        ensures { result ≡ self.directory }
    {
        self.directory
    }

    // Ends the walk with an error for memory.
    fn fail(&mut self) -> Step
        ensures memory { result ≡ Step.Gives (Err WalkError.Memory) }
        ensures ended { self.new ≡ record self.old { has_ended = true } }
    {
        self.has_ended = true;
        Step::Gives(Err(WalkError::Memory))
    }

    // Ends the walk with a fault.
    fn stop(&mut self, kind: FaultKind, path: WalkedPath, depth: usize) -> Step
        ensures gives { step_given result ≡ Some (fault kind path.path depth) }
        ensures ended { self.new ≡ record self.old { has_ended = true } }
    {
        self.has_ended = true;
        Step::Gives(Err(WalkError::Fault(kind, path.into_string(), depth)))
    }

    // Remembers an entry if it is a folder above the greatest depth. The folder is opened by a
    // later step, so that it can be cancelled before.
    fn enter_later(&mut self, entry: &TreeEntry) -> Result<(), AllocError>
        ensures rest { self.new ≡ record self.old { entered = self.new.entered } }
        ensures entered { let f = facts_of entry.now in
            OnOk result ((s : Shown) → (self.old.entered ≡ None)
            → D.law.shows self.old.directory f.path s → HasKind s f.kind → (n : ℕ) × (n ≤ count_shown s)
            × EnteredShows (D.law.shows self.old.directory) (scope_of self.old) self.new.entered
            (below_forest (scope_of self.old) (entry_location f) s) n) }
        ensures remembered { IfOk result (λ _. ((facts_of entry.now).kind ≡ FileType.Folder)
            → (facts_of entry.now).depth < self.old.max → if_some self.new.entered 1 ≡ 1) }
        ensures enters { IfOk result (λ _. Enters self.old.max (facts_of entry.now) self.old.entered
            self.new.entered) }
        ensures folder { let f = facts_of entry.now in
            (self.old.entered ≡ None) → (p : List ℕ) (n : ℕ) → OfEntered self.new.entered p n
            → OneFolder f.path (f.depth + 1) p n × (f.kind ≡ FileType.Folder) × (f.depth < self.old.max) }
    {
        let depth = entry.depth();
        if entry.file_type() == FileType::Folder && depth < self.max {
            let path = entry.walked_path().clone()?;
            self.entered = Some(Location {
                path,
                depth: depth + 1,
            });
        }
        Ok(())
    }

    // Yields an entry if its depth is in range, and remembers it as a folder to be opened.
    fn give(&mut self, entry: TreeEntry) -> Step
        ensures uses_answer { UsesAnswer (nothing_asked (names_left self.old) (begins self.old + 1)) self.old
            result self.new }
        ensures lists { KeepsLists (open_lists self.old) result self.new }
        ensures remembers { Remembers self.old result self.new }
        ensures places { let f = facts_of entry in
            (self.old.entered ≡ None) → StepPlaces (ReachesFrom self.old no_folders)
            (λ p n. (f.depth < self.old.min) × LeadsUnseen self.old.min (OneFolder f.path (f.depth + 1)) p n)
            self.old.max result self.new }
        ensures continues { let f = facts_of entry in
            (s : Shown) → D.law.shows self.old.directory f.path s → HasKind s f.kind
            → Continues D.law self.old (entry_forest (scope_of self.old) (entry_location f) f.kind s)
            (count_shown s) result self.new }
        ensures course { let f = facts_of entry in (self.old.has_ended ≡ false) → (self.old.first ≡ None)
            → (self.old.entered ≡ None)
            → UsesCourse [] (ComesLast self.old (EntryComes (scope_of self.old) f)) result self.new }
        ensures measure { (self.old.entered ≡ None) → IncreasesBy 1 2 self.old result self.new }
    {
        let Ok(()) = self.enter_later(&entry) else {
            return self.fail();
        };
        if entry.depth() < self.min {
            return Step::GoesOn;
        }
        Step::Gives(Ok(entry))
    }

    // Goes on to the next name of a place, which has to be a folder; without a next name, yields
    // the entry of the place.
    fn follow(&mut self, place: StartPoint, kind: FileType) -> Step
        ensures uses_answer { (self.old.has_ended ≡ false) → (self.old.first ≡ None) → UsesAnswer (record {
          counts = kind_counts (Ok (Some kind));
          taken = 0;
          names = names_left self.old + length place.names.items;
          made = 1;
        }) self.old result self.new }
        ensures lists { KeepsLists (open_lists self.old) result self.new }
        ensures remembers { Remembers self.old result self.new }
        ensures places { (self.old.entered ≡ None) → StepPlaces (ReachesFrom self.old (OnWay place))
            (ReachesFrom self.old (OnWay place)) self.old.max result self.new }
        ensures continues { let at = located place.at in let names = from_last place.names.items in
            (s : Shown) → D.law.shows self.old.directory at.path s → HasKind s kind → ArePlain names
            → at.depth + length place.names.items ≤ 2 ^ 64 - 1 → (self.old.levels.items ≡ [])
            → Continues D.law self.old (walk_from (scope_of self.old) at s names) (count_shown s)
            result self.new }
        ensures course { (self.old.has_ended ≡ false) → (self.old.first ≡ None)
            → (self.old.entered ≡ None)
            → UsesCourse [] (ComesLast self.old (PlaceComes (scope_of self.old) place kind)) result self.new }
        ensures measure { (self.old.entered ≡ None)
            → IncreasesByNames (length place.names.items) self.old result self.new }
    {
        let StartPoint { at, mut names } = place;
        let Some(name) = names.pop() else {
            return self.give(TreeEntry::from_path(at.path, at.depth, kind));
        };
        if kind != FileType::Folder {
            return self.stop(FaultKind::NotAFolder, at.path, at.depth);
        }
        let Ok(at) = at.below(self.alloc, name) else {
            return self.fail();
        };
        self.first = Some(StartPoint { at, names });
        Step::GoesOn
    }

    // Looks up what is at a place.
    fn begin(&mut self, place: StartPoint) -> Step
        ensures answers { (self.old.has_ended ≡ false) → (self.old.first ≡ None)
            → (self.old.entered ≡ None) → StepAnswers D.law (record (steps_view D.law self.old) {
              names_left = names_left self.old + length place.names.items;
              to_begin = 1;
              to_open = 0;
            }) result self.new }
        ensures remembers { Remembers self.old result self.new }
        ensures places { (self.old.entered ≡ None) → StepPlaces (ReachesFrom self.old (OnWay place))
            (ReachesFrom self.old (OnWay place)) self.old.max result self.new }
        ensures continues { let at = located place.at in let names = from_last place.names.items in
            (s : Shown) → D.law.shows self.old.directory at.path s → ArePlain names
            → at.depth + length place.names.items ≤ 2 ^ 64 - 1 → (self.old.levels.items ≡ [])
            → Continues D.law self.old (walk_from (scope_of self.old) at s names) (count_shown s)
            result self.new }
        ensures course { (self.old.has_ended ≡ false) → (self.old.first ≡ None)
            → (self.old.entered ≡ None)
            → let comes = AlongComes (scope_of self.old) (from_last place.names.items) (located place.at) in
            StepCourse D.law self.old (ComesLast self.old comes) result self.new }
        ensures measure { (self.old.entered ≡ None)
            → IncreasesByNames (length place.names.items) self.old result self.new }
    {
        match self.directory.kind(self.alloc, place.at.path.as_str()) {
            Ok(Some(kind)) => self.follow(place, kind),
            Ok(None) => {
                let depth = place.at.depth;
                self.stop(FaultKind::NotFound, place.at.path, depth)
            }
            Err(DirectoryFault::Failed) => {
                let depth = place.at.depth;
                let path = place.at.path.into_string();
                Step::Gives(Err(WalkError::Fault(FaultKind::Listing, path, depth)))
            }
            Err(DirectoryFault::Memory) => self.fail(),
        }
    }

    // Opens a folder. `folder.depth` is that of what is in it, so an error of the folder itself is
    // at one less.
    fn enter(&mut self, folder: Location) -> Step
        ensures answers { (self.old.has_ended ≡ false) → (self.old.first ≡ None)
            → (self.old.entered ≡ None)
            → StepAnswers D.law (record (steps_view D.law self.old) { to_open = 1 }) result self.new }
        ensures remembers { Remembers self.old result self.new }
        ensures places { (self.old.entered ≡ None) → StepPlaces (ReachesFrom self.old (IsOf folder))
            (ReachesFrom self.old (IsOf folder)) self.old.max result self.new }
        ensures continues { (s : Shown) → D.law.shows self.old.directory folder.path.path s
            → IsFolder s
            → let entered = entered_forest (scope_of self.old) (located folder) s in
            Continues D.law self.old (followed_by entered) (count_shown s) result self.new }
        ensures course { (self.old.has_ended ≡ false) → (self.old.first ≡ None)
            → (self.old.entered ≡ None)
            → let comes = FolderComes (scope_of self.old) (located folder) in
            StepCourse D.law self.old (ComesLast self.old comes) result self.new }
        ensures measure { IncreasesBy 0 1 self.old result self.new }
    {
        match self.directory.open(self.alloc, folder.path.as_str()) {
            Ok(cursor) => match self.levels.push(OpenFolder { folder, cursor }) {
                Ok(()) => Step::GoesOn,
                Err(_) => self.fail(),
            },
            Err(DirectoryFault::Failed) => {
                let depth = folder.depth.saturating_sub(1);
                let path = folder.path.into_string();
                Step::Gives(Err(WalkError::Fault(FaultKind::Listing, path, depth)))
            }
            Err(DirectoryFault::Memory) => self.fail(),
        }
    }

    // Yields what was found in a folder. `depth` is that of the folder's items.
    fn give_found(&mut self, found: FoundItem, depth: usize) -> Step
        ensures uses_answer { (at : Place) (x : ListItem) → IsFound at x found
            → UsesAnswer (record {
              counts = item_counts x;
              taken = 0;
              names = names_left self.old;
              made = begins self.old + 1;
            }) self.old result self.new }
        ensures lists { KeepsLists (open_lists self.old) result self.new }
        ensures remembers { Remembers self.old result self.new }
        ensures places { (self.old.entered ≡ None) → (at : Place) (x : ListItem)
            → IsFound at x found → at.depth ≡ depth
            → let from = ReachesFrom self.old (OneFolder at.path depth) in
            StepPlaces from from self.old.max result self.new }
        ensures continues { (at : Place) (x : ListItem) (l : Items)
            → IsFound at x found → at.depth ≡ depth
            → Some (listed_of x) ≡ first_item l → ShowsIn (D.law.shows self.old.directory) at.path l
            → Continues D.law self.old (first_item_forest (scope_of self.old) at l) (own_count l) result
            self.new }
        ensures course { (self.old.has_ended ≡ false) → (self.old.first ≡ None)
            → (self.old.entered ≡ None) → (at : Place) (x : ListItem)
            → IsFound at x found → at.depth ≡ depth
            → let comes = ItemComes (scope_of self.old) at x in
            UsesCourse [] (ComesLast self.old comes) result self.new }
        ensures measure { (self.old.entered ≡ None) → IncreasesBy 1 2 self.old result self.new }
    {
        match found {
            FoundItem::Entry(entry) => self.give(entry),
            FoundItem::Fault(kind, path) => {
                Step::Gives(Err(WalkError::Fault(kind, path, depth.saturating_sub(1))))
            }
        }
    }

    // Takes an item of a folder, unless the budget is used up, and puts the folder back on the
    // stack: the cursor has its rest.
    fn take_from(&mut self, folder: Location, cursor: D::Cursor, item: ListItem) -> Step
        ensures uses_answer { (self.old.has_ended ≡ false) → (self.old.first ≡ None)
            → UsesAnswer (record {
              counts = item_counts item;
              taken = 1;
              names = names_left self.old;
              made = begins self.old + 1;
            }) self.old result self.new }
        ensures kept { (self.old.has_ended ≡ false)
            → KeepsLists (open_lists self.old + 1) result self.new }
        ensures remembers { Remembers self.old result self.new }
        ensures places { (self.old.entered ≡ None) → StepPlaces (ReachesFrom self.old (IsOf folder))
            (ReachesFrom self.old (IsOf folder)) self.old.max result self.new }
        ensures lists { (l : Items) (rest : Rest) (items : ℕ) → Some (listed_of item) ≡ first_item l
            → IsPopped D.law self.old (record { folder = folder; cursor = cursor }) (rest_of l) rest
            → ShowsIn (D.law.shows self.old.directory) folder.path.path l
            → rest.count + count l ≤ items
            → let p = listing_pending (scope_of self.old) (located folder) l rest items in
            StepIs D.law self.old p result self.new }
        ensures course { (self.old.has_ended ≡ false) → (self.old.first ≡ None)
            → (self.old.entered ≡ None)
            → let at = located folder in let calls = call at.path (listed (listed_of item)) ∷ [] in
            UsesCourse calls (ComesLast self.old (TakenComes (scope_of self.old) at item)) result self.new }
        ensures measure { (self.old.entered ≡ None) → (self.old.has_ended ≡ false)
            → WeaklyDecreases self.old result self.new }
    {
        if self.budget == 0 {
            let depth = folder.depth.saturating_sub(1);
            return self.stop(FaultKind::Budget, folder.path, depth);
        }
        self.budget -= 1;
        let Ok(found) = found_in(self.alloc, &folder, item) else {
            return self.fail();
        };
        let depth = folder.depth;
        let Ok(()) = self.levels.push(OpenFolder { folder, cursor }) else {
            return self.fail();
        };
        self.give_found(found, depth)
    }

    // Moves on in the innermost folder. At its end it isn't put back on the stack.
    fn list_next(&mut self, level: OpenFolder<D::Cursor>) -> Step
        ensures answers { (self.old.has_ended ≡ false) → (self.old.first ≡ None)
            → (self.old.entered ≡ None) → StepAnswers D.law (record (steps_view D.law self.old) {
              listings_open = open_lists self.old + 1;
              to_open = 0;
            }) result self.new }
        ensures remembers { Remembers self.old result self.new }
        ensures places { (self.old.entered ≡ None) → StepPlaces (ReachesFrom self.old (IsOf level.folder))
            (ReachesFrom self.old (IsOf level.folder)) self.old.max result self.new }
        ensures lists { (l : Items) (rest : Rest) (items : ℕ) → IsPopped D.law self.old level l rest
            → rest.count + count l ≤ items
            → let p = listing_pending (scope_of self.old) (located level.folder) l rest items in
            StepIs D.law self.old p result self.new }
        ensures course { (self.old.has_ended ≡ false) → (self.old.first ≡ None)
            → (self.old.entered ≡ None)
            → let comes = RestComes (scope_of self.old) (located level.folder) in
            StepCourse D.law self.old (ComesLast self.old comes) result self.new }
        ensures measure { (self.old.entered ≡ None) → (self.old.has_ended ≡ false)
            → WeaklyDecreases self.old result self.new }
    {
        let OpenFolder { folder, mut cursor } = level;
        match self.directory.next(self.alloc, &mut cursor) {
            Err(_) => self.fail(),
            Ok(None) => Step::GoesOn,
            Ok(Some(item)) => self.take_from(folder, cursor, item),
        }
    }

    // Does one step. A folder that is remembered comes before the rest of its parent. No folder is
    // remembered while there is a place to begin at; clearing `entered` says so to the prover.
    fn step(&mut self) -> Step
        ensures is_step { IsStep D.law self.old result self.new }
        ensures places { StepPlaces (MayReach self.old) (MayReach self.old) self.old.max result self.new }
        ensures step { (p : Pending Given) → PlainToCome D.law self.old p
            → StepIs D.law self.old p result self.new }
        ensures course { StepCourse D.law self.old (ComesWhole self.old) result self.new }
        ensures measure { Decreases self.old result self.new }
    {
        if self.has_ended {
            return Step::Ends;
        }
        if let Some(place) = self.first.take() {
            self.entered = None;
            return self.begin(place);
        }
        if let Some(folder) = self.entered.take() {
            return self.enter(folder);
        }
        match self.levels.pop() {
            Some(level) => self.list_next(level),
            None => Step::Ends,
        }
    }

    /// Steps until an item comes. Returns `None` at the end.
    pub(crate) fn run(&mut self) -> Option<Result<TreeEntry, WalkError>>
        ensures feeds { FeedStep D.law (steps_view D.law self.old) (tree_answer result)
            (steps_view D.law self.new) }
        ensures fewer { MatchOption result ⊤ (λ _. items_left self.new < items_left self.old) }
    {
        loop {
            match self.step() {
                Step::Gives(item) => return Some(item),
                Step::Ends => return None,
                Step::GoesOn => {}
            }
        }
    }
}
