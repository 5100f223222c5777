//! A directory in memory.

ghost use Rattle.std.specs.Prelude.{◌≡◌, ◌⊎◌, ◌<◌, ◌-◌, ◌^◌, [], ℕ, if◌then◌else◌, OnOk, List, Some, map};
ghost use Rattle.std.specs.Prelude.{option_map, string_bytes, IfOk, IfErr, IfSome, MatchBool};
ghost use Rattle.std.specs.List.{list_any};
ghost use Rattle.wax_directory.specs.declared.directory.DirectoryFault.TheVariants.{Failed};
ghost use Rattle.wax_directory.specs.declared.tree.Node.TheViews.{out-Node};
ghost use Rattle.wax_directory.specs.{Answers.{listed_of, KindIs, Opens}, Calls.Nexts, Names.are_distinct};
ghost use Rattle.wax_directory.specs.Nodes.{node_at, child_at, held, entry_node, shown_of, listed_item};
ghost use Rattle.wax_directory.specs.Nodes.{names_of, HasDistinctNames, HasDuplicateName, named_in};
ghost use Rattle.wax_directory.specs.{Nodes.{below_layer, reached}, Counting.no_counts};
ghost use Rattle.wax_directory.specs.Trees.{tree_law, HasItems, tree_start, reached_in, shown_in, item_at};
ghost use Rattle.wax_directory.specs.inner.Places.{has_name, reached_place, reached_at, Locates};
ghost use Rattle.wax_query.specs.declared.diagnostics.Refusal.TheVariants.{Refused, Memory};

use crate::directory::{Directory, DirectoryFault, FileType, ListItem};
use crate::history::History;
use crate::path::{is_rooted, names_in};
use crate::tally::Tally;
use std::alloc::{AllocError, Global};
use std::collections::HashSet;
use std::fmt;
use std::fmt::{Debug, Formatter};
use thiserror::Error;
use wax_query::diagnostics::{NoMemory, Refusal};

/// What is at a place in a tree.
#[cycle(tree)]
#[derive(Debug, Drop, Eq, PartialEq)]
pub enum Node {
    File,
    Link,
    Folder(Vec<TreeItem>),
    /// A folder that can't be listed.
    Sealed,
}

/// An item of a folder of a tree, in the folder's order.
#[cycle(tree)]
#[derive(Debug, Drop, Eq, PartialEq)]
pub enum TreeItem {
    /// A name, as it was passed in, and what is there.
    Entry(String, Node),
    /// An item that can't be read.
    Failed,
    /// An item whose name isn't text.
    NotText,
}

/// The error that a folder has a name twice (20).
#[derive(Clone, Copy, Debug, Error)]
#[error("a folder holds a name twice")]
pub struct DuplicateName;

/// A lawful directory in memory. It keeps a list of the folders that were opened, in order, and
/// counts the items that it returned.
///
/// Empty parts of a path are ignored; `.` and `..` are names like others. No path leads through a
/// file or a link, and nothing below a folder that can't be listed can be read. Dropping a tree
/// takes stack for each level.
#[derive(Drop)]
pub struct Tree {
    working: Node,
    root: Node,
    listed: Vec<String>,
    tally: Tally,
    history: History,
}

/// A folder of a tree that is being listed: the indices of the items that lead there from the root
/// or the working folder, and the index of the next item.
#[derive(Drop)]
pub struct TreeCursor {
    is_rooted: bool,
    places: Vec<usize>,
    next: usize,
}

impl Node {
    ghost use Rattle.wax_directory.specs.Nodes.{kind_of};

    fn kind(&self) -> FileType
        ensures { result ≡ kind_of (shown_of self.now) }
    {
        match self {
            Node::File => FileType::File,
            Node::Link => FileType::Link,
            Node::Folder(_) | Node::Sealed => FileType::Folder,
        }
    }

    fn held(&self) -> Option<&[TreeItem]>
        ensures { option_map (λ items. items.now) result ≡ held self.now }
    {
        match self {
            Node::Folder(items) => Some(items.as_slice()),
            _ => None,
        }
    }

    fn child(&self, place: usize) -> Option<&Node>
        ensures { option_map (λ n. n.now) result ≡ child_at place self.now }
    {
        self.held()?.get(place)?.node()
    }

    // Returns the index of the entry with this name, or `None` if there is none. It is an error if
    // the folder can't be listed.
    fn below(&self, name: &str) -> Result<Option<usize>, DirectoryFault>
        ensures reaches { below_layer name.now (out-Node self.now) ≡ reached_at self.now result }
        ensures failed { IfErr result (λ e. e ≡ Failed) }
    {
        match self {
            Node::Folder(items) => Ok(place_of(items.as_slice(), name)),
            Node::Sealed => Err(DirectoryFault::Failed),
            Node::File | Node::Link => Ok(None),
        }
    }

    // Finds where the names lead, as the index of each entry on the way.
    fn locate(&self, alloc: Global, names: &[&str]) -> Result<Option<Vec<usize>>, DirectoryFault>
        ensures { Locates (reached (map (λ x. x.now) names.now) self.now) self.now result }
    {
        let mut node = self;
        let mut places = Vec::new(alloc);
        for name in names {
            let Some(place) = node.below(name)? else {
                return Ok(None);
            };
            let Some(inner) = node.child(place) else {
                return Ok(None);
            };
            let Ok(()) = places.push(place) else {
                return Err(DirectoryFault::Memory);
            };
            node = inner;
        }
        Ok(Some(places))
    }

    fn has_distinct_names(&self, alloc: Global) -> Result<bool, AllocError>
        ensures { IfOk result (λ r. MatchBool r (HasDistinctNames self.now) (HasDuplicateName self.now)) }
    {
        let Node::Folder(items) = self else {
            return Ok(true);
        };
        if !hold_distinct_names(alloc, items.as_slice())? {
            return Ok(false);
        }
        for item in items {
            if let TreeItem::Entry(_, node) = item {
                if !node.has_distinct_names(alloc)? {
                    return Ok(false);
                }
            }
        }
        Ok(true)
    }

    // Follows the indices that `locate` found.
    fn at(&self, places: &[usize]) -> Option<&Node>
        ensures { option_map (λ n. n.now) result ≡ node_at places.now self.now }
    {
        let mut node = self;
        for place in places {
            let Some(inner) = node.child(*place) else {
                return None;
            };
            node = inner;
        }
        Some(node)
    }
}

impl TreeItem {
    fn is_named(&self, name: &str) -> bool
        ensures { result ≡ has_name name.now self.now }
    {
        match self {
            TreeItem::Entry(own, _) => own.as_str() == name,
            _ => false,
        }
    }

    fn node(&self) -> Option<&Node>
        ensures { option_map (λ n. n.now) result ≡ entry_node (Some self.now) }
    {
        match self {
            TreeItem::Entry(_, node) => Some(node),
            _ => None,
        }
    }

    fn listed(&self, alloc: Global) -> Result<ListItem, AllocError>
        ensures { IfOk result (λ r. listed_of r ≡ listed_item self.now) }
    {
        match self {
            TreeItem::Failed => Ok(ListItem::Failed),
            TreeItem::NotText => Ok(ListItem::NotText),
            TreeItem::Entry(name, node) => {
                let name = String::from_str(alloc, name.as_str())?;
                Ok(ListItem::Name(name, node.kind()))
            }
        }
    }
}

/// Prints all but what was answered, which exists only in proofs.
impl Debug for Tree {
    fn fmt<W: fmt::Write>(&self, f: &mut Formatter<W>) -> fmt::Result {
        f.debug_struct("Tree")
            .field("working", &self.working)
            .field("root", &self.root)
            .field("listed", &self.listed)
            .field("tally", &self.tally)
            .finish()
    }
}

impl Tree {
    /// Builds a tree from its working folder and its root. It takes time in proportion to the
    /// number of items.
    ///
    /// # Errors
    ///
    /// Returns `DuplicateName` (20) if a folder in either has a name twice, and `Refusal::Memory`
    /// if allocation fails.
    pub fn new(alloc: Global, working: Node, root: Node) -> Result<Tree, Refusal<DuplicateName>>
        ensures distinct { OnOk result (HasDistinctNames working × HasDistinctNames root) }
        ensures shows { IfOk result
            (λ t. (path : List ℕ) → tree_law.shows t path (shown_in working root path)) }
        ensures untold { IfOk result (λ t. tree_law.tells t [] × (tree_law.tally t ≡ no_counts)) }
        ensures refused { IfErr result (λ e. (e ≡ Memory)
            ⊎ ((e ≡ Refused (record {})) × (HasDuplicateName working ⊎ HasDuplicateName root))) }
    {
        if !working.has_distinct_names(alloc)? || !root.has_distinct_names(alloc)? {
            return Err(Refusal::Refused(DuplicateName));
        }
        Ok(Tree::of_nodes(alloc, working, root))
    }

    // Builds a tree whose folders are known to have no name twice.
    pub(crate) fn of_nodes(alloc: Global, working: Node, root: Node) -> Tree
        ensures nodes { (result.working ≡ working) × (result.root ≡ root) }
        ensures untold { tree_law.tells result [] × (tree_law.tally result ≡ no_counts) }
    {
        Tree {
            working,
            root,
            listed: Vec::new(alloc),
            tally: Tally::none(),
            history: History::new(),
        }
    }

    /// Returns the paths of the folders that were opened, in order, including those that couldn't
    /// be.
    pub fn listed(&self) -> &[String]
        ensures { tree_law.tells self.now (map string_bytes result.now) }
    {
        self.listed.as_slice()
    }

    /// Returns how many items were taken from folders; at most `u64::MAX`.
    pub fn asked(&self) -> u64
        ensures { result ≡ (tree_law.tally self.now).items }
    {
        self.tally.items
    }

    fn start(&self, is_rooted: bool) -> &Node
        ensures { result.now ≡ (if is_rooted then self.now.root else self.now.working) }
    {
        if is_rooted { &self.root } else { &self.working }
    }

    fn find(&self, alloc: Global, path: &str) -> Result<Option<Vec<usize>>, DirectoryFault>
        ensures { Locates (reached_in self.now.working self.now.root path.now) (tree_start self.now path.now)
            result }
    {
        let Ok(names) = names_in(alloc, path) else {
            return Err(DirectoryFault::Memory);
        };
        self.start(is_rooted(path)).locate(alloc, names.as_slice())
    }

    fn look(&self, alloc: Global, path: &str) -> Result<Option<FileType>, DirectoryFault>
        ensures { KindIs (shown_in self.now.working self.now.root path.now) result }
    {
        let Some(places) = self.find(alloc, path)? else {
            return Ok(None);
        };
        match self.start(is_rooted(path)).at(places.as_slice()) {
            Some(node) => Ok(Some(node.kind())),
            None => Ok(None),
        }
    }

    fn begin(&self, alloc: Global, path: &str) -> Result<TreeCursor, DirectoryFault>
        ensures { Opens (HasItems self.now.working self.now.root)
            (shown_in self.now.working self.now.root path.now) result }
    {
        let Some(places) = self.find(alloc, path)? else {
            return Err(DirectoryFault::Failed);
        };
        let is_rooted = is_rooted(path);
        match self.start(is_rooted).at(places.as_slice()) {
            Some(Node::Folder(_)) => Ok(TreeCursor {
                is_rooted,
                places,
                next: 0,
            }),
            _ => Err(DirectoryFault::Failed),
        }
    }

    // Returns the item that comes next, without moving the cursor.
    fn item(&self, alloc: Global, cursor: &TreeCursor) -> Result<Option<ListItem>, AllocError>
        ensures listed { IfOk result
            (λ r. option_map listed_of r ≡ option_map listed_item (item_at self.now cursor.now)) }
        ensures small { IfOk result (λ r. IfSome r (λ x. cursor.now.next < 2 ^ 64 - 1)) }
    {
        let Some(node) = self.start(cursor.is_rooted).at(cursor.places.as_slice()) else {
            return Ok(None);
        };
        let Some(items) = node.held() else {
            return Ok(None);
        };
        match items.get(cursor.next) {
            Some(item) => Ok(Some(item.listed(alloc)?)),
            None => Ok(None),
        }
    }

    // Returns the item that comes next, and moves the cursor behind it.
    fn advance(&self, alloc: Global, cursor: &mut TreeCursor) -> Result<Option<ListItem>, NoMemory>
        ensures { Nexts tree_law self.now cursor.old result self.now cursor.new }
    {
        let Some(item) = self.item(alloc, cursor)? else {
            return Ok(None);
        };
        cursor.next += 1;
        Ok(Some(item))
    }
}

impl Directory for Tree {
    type Cursor = TreeCursor;

    ghost use Rattle.wax_directory.specs.{Trees.tree_law, TreeLaw.{tree_inner, tree_child, tree_distinct}};
    ghost use Rattle.wax_directory.specs.TreeCursors.{last_dropped};
    ghost use Rattle.std.proofs.Common.{refl};

    ghost law = { tree_law };

    fn kind(&mut self, alloc: Global, path: &str) -> Result<Option<FileType>, DirectoryFault> {
        let answer = self.look(alloc, path);
        self.tally.add(Tally::of_kind(&answer));
        self.history.add_kind(path, &answer);
        answer
    }

    fn open(&mut self, alloc: Global, path: &str) -> Result<TreeCursor, DirectoryFault> {
        let Ok(told) = String::from_str(alloc, path) else {
            return Err(DirectoryFault::Memory);
        };
        let answer = self.begin(alloc, path);
        if let Err(DirectoryFault::Memory) = answer {
            return Err(DirectoryFault::Memory);
        }
        let Ok(()) = self.listed.push(told) else {
            return Err(DirectoryFault::Memory);
        };
        self.tally.add(Tally::of_opening(&answer));
        self.history.add_opening(path, &answer);
        answer
    }

    fn next(
        &mut self,
        alloc: Global,
        cursor: &mut TreeCursor,
    ) -> Result<Option<ListItem>, NoMemory> {
        let answer = self.advance(alloc, cursor);
        self.tally.add(Tally::of_next(&answer));
        self.history.add_next(&answer);
        answer
    }

    fn tally(&self) -> Tally {
        self.tally
    }

    ghost tells_some = { λ t. (_, refl) };

    ghost none_open = { λ t path s h. tt };

    ghost dropped = { λ t cursors ls cursor l h. last_dropped t.working t.root cursors ls cursor l h };

    ghost inner = { λ d path l h. tree_inner d path l h };

    ghost child = { λ d path x s h p. tree_child d path x s h p };

    ghost distinct = { λ d path s h. tree_distinct d path s h };
}

fn place_of(items: &[TreeItem], name: &str) -> Option<usize>
    ensures { named_in name.now items.now ≡ reached_place items.now result }
{
    for (place, item) in items.iter().enumerate() {
        if item.is_named(name) {
            return Some(place);
        }
    }
    None
}

pub(crate) fn has_entry(items: &[TreeItem], name: &str) -> bool
    ensures { result ≡ list_any (has_name name.now) items.now }
{
    items.iter().any(|item| item.is_named(name))
}

// Returns whether no two entries have the same name, in one pass.
fn hold_distinct_names(alloc: Global, items: &[TreeItem]) -> Result<bool, AllocError>
    ensures { IfOk result (λ r. r ≡ are_distinct (names_of items.now)) }
{
    let mut seen: HashSet<&str> = HashSet::new(alloc);
    for item in items {
        if let TreeItem::Entry(name, _) = item {
            if !seen.insert(name.as_str())? {
                return Ok(false);
            }
        }
    }
    Ok(true)
}
