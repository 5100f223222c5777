//! A tree from a list of paths.

ghost use Rattle.std.specs.{Prelude.{◌≡◌, ℕ, [], List, map, option_map, IfOk}, List.list_any};
ghost use Rattle.wax_directory.specs.{Counting.no_counts, Nodes.{names_of, HasDistinctNames}};
ghost use Rattle.wax_directory.specs.PathTails.{below_name, first_name, leads_on, rest_after, tails_from};
ghost use Rattle.wax_directory.specs.{PathTails.{tails_to, starts_at, StandsBy}, Shown.Shown, Trees.tree_law};
ghost use Rattle.wax_directory.specs.inner.Growing.{new_name, Grows};

use crate::path::{is_open, is_rooted, names_in};
use crate::tree::{Node, Tree, TreeItem, has_entry};
use std::alloc::{AllocError, Global};
use std::marker::Model;
use wax_query::diagnostics::NoMemory;

impl Tree {
    /// Builds a tree from a list of paths, and the folders on the way to them. A path that ends
    /// with `/` is a folder's, any other a file's. One that begins with `/` starts at the root, any
    /// other at the working folder. Empty parts are ignored; `.` and `..` are names like others.
    ///
    /// A path that is listed twice is in the tree once. It is a folder's if it ends with `/` at
    /// least once, or if another path leads through it. A folder has its names in the order in
    /// which they first come.
    ///
    /// A folder takes time for its items times the paths that lead into it; a tree takes stack for
    /// each level.
    pub fn from_paths(alloc: Global, paths: &[&str]) -> Result<Tree, NoMemory>
        ensures shows { IfOk result (λ t. (path : List ℕ) → (s : Shown) × tree_law.shows t path s
            × StandsBy (tails_to path (map (λ x. x.now) paths.now)) s) }
        ensures untold { IfOk result (λ t. tree_law.tells t [] × (tree_law.tally t ≡ no_counts)) }
    {
        let working = planted(alloc, paths, false)?;
        let root = planted(alloc, paths, true)?;
        Ok(Tree::of_nodes(alloc, working, root))
    }
}

// What remains of a path below some folder. Contracts see the names and whether it is a folder's.
#[derive(Drop)]
struct PathTail<'a> {
    names: &'a [&'a str],
    is_folder: bool,
}

impl<'a> Model for PathTail<'a> {
    ghost use Rattle.std.specs.Prelude.{map};
    ghost use Rattle.wax_directory.specs.PathTails.{PathTail as TailValue, tail};

    ghost Value = { TailValue };

    ghost view = { λ r. tail (map (λ x. x.now) r.names.now) r.is_folder };
}

impl<'a> PathTail<'a> {
    // Returns whether it leads to a folder, or into one.
    fn leads_on(&self) -> bool
        ensures { result ≡ leads_on self.now }
    {
        self.is_folder || !self.names.is_empty()
    }

    // Returns the first name, unless one of the items already has it.
    fn new_name(&self, items: &[TreeItem]) -> Option<&'a str>
        ensures { option_map (λ x. x.now) result ≡ new_name (names_of items.now) (first_name self.now) }
    {
        let (name, _) = self.names.split_first()?;
        if has_entry(items, name) {
            return None;
        }
        Some(name)
    }

    // Returns what remains after this name, if the tail begins with it.
    fn after(&self, name: &str) -> Option<PathTail<'a>>
        ensures { result ≡ rest_after name.now self.now }
    {
        let (first, names) = self.names.split_first()?;
        if *first != name {
            return None;
        }
        Some(PathTail {
            names,
            is_folder: self.is_folder,
        })
    }
}

// A path of the list, split into its names. Contracts see it as a tail.
#[derive(Drop)]
struct GivenPath<'a> {
    names: Vec<&'a str>,
    is_folder: bool,
}

impl<'a> Model for GivenPath<'a> {
    ghost use Rattle.std.specs.Prelude.{map};
    ghost use Rattle.wax_directory.specs.PathTails.{PathTail as TailValue, tail};

    ghost Value = { TailValue };

    ghost view = { λ p. tail (map (λ x. x.now) p.names.items) p.is_folder };
}

impl<'a> GivenPath<'a> {
    fn tail(&self) -> PathTail<'_>
        ensures { result ≡ self.now }
    {
        PathTail {
            names: self.names.as_slice(),
            is_folder: self.is_folder,
        }
    }
}

fn is_taken_from(text: &str, at_root: bool) -> bool
    ensures { result ≡ starts_at at_root text.now }
{
    is_rooted(text) == at_root
}

fn lead_on(tails: &[PathTail<'_>]) -> bool
    ensures { result ≡ list_any leads_on tails.now }
{
    tails.iter().any(|tail| tail.leads_on())
}

fn tails_below<'a>(
    alloc: Global,
    tails: &[PathTail<'a>],
    name: &str,
) -> Result<Vec<PathTail<'a>>, AllocError>
    ensures { IfOk result (λ v. v.items ≡ below_name name.now tails.now) }
{
    tails
        .iter()
        .filter_map(|tail| tail.after(name))
        .collect(alloc)
}

// Builds what is at the place where the tails begin: a file if none leads on, and otherwise a
// folder with each first name once.
fn grown(alloc: Global, tails: &[PathTail<'_>]) -> Result<Node, AllocError>
    ensures stands { IfOk result (λ n. ¬ (tails.now ≡ []) → Grows tails.now n) }
    ensures distinct { IfOk result (λ n. HasDistinctNames n) }
{
    if !lead_on(tails) {
        return Ok(Node::File);
    }
    let mut items = Vec::new(alloc);
    for tail in tails {
        if let Some(name) = tail.new_name(items.as_slice()) {
            let node = grown(alloc, tails_below(alloc, tails, name)?.as_slice())?;
            items.push(TreeItem::Entry(String::from_str(alloc, name)?, node))?;
        }
    }
    Ok(Node::Folder(items))
}

// Splits the paths that start here into names, after the path of the starting folder itself, which
// is there even if no path is.
fn given_paths<'a>(
    alloc: Global,
    texts: &[&'a str],
    at_root: bool,
) -> Result<Vec<GivenPath<'a>>, AllocError>
    ensures { IfOk result (λ v. v.items ≡ tails_from at_root (map (λ x. x.now) texts.now)) }
{
    let mut paths = Vec::new(alloc);
    paths.push(GivenPath {
        names: Vec::new(alloc),
        is_folder: true,
    })?;
    for text in texts {
        if is_taken_from(text, at_root) {
            paths.push(GivenPath {
                names: names_in(alloc, text)?,
                is_folder: is_open(text),
            })?;
        }
    }
    Ok(paths)
}

// Builds the root or the working folder.
fn planted(alloc: Global, texts: &[&str], at_root: bool) -> Result<Node, AllocError>
    ensures stands { IfOk result (λ n. Grows (tails_from at_root (map (λ x. x.now) texts.now)) n) }
    ensures distinct { IfOk result (λ n. HasDistinctNames n) }
{
    let paths = given_paths(alloc, texts, at_root)?;
    let tails: Vec<PathTail<'_>> = paths.iter().map(|path| path.tail()).collect(alloc)?;
    grown(alloc, tails.as_slice())
}
