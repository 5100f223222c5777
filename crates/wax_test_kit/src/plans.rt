//! Trees in memory from plans, for tests.
//!
//! A plan of a folder has a word for each item: `a/` begins a folder `a` and `;` ends it, `a@` is a
//! link, `a#` a folder that can't be listed, `!` an item that can't be read and `?` one whose name
//! isn't text. Any other word is a file; `''` is one with an empty name. If an item's name is
//! already in its folder, the item is skipped.

use std::alloc::{AllocError, Global};
use std::io::{self, ErrorKind};
use std::mem;
use wax_directory::tree::{Node, Tree, TreeItem};

/// The plan that most rows walk: six files in folders.
pub const PROJECT: &str =
    "doc/ guide.md ; src/ glob.rs lib.rs ; tests/ harness/ mod.rs ; walk.rs ; README.md";

/// The plan of the root: a folder and a file.
pub const ROOT: &str = "a/ b ; x";

/// Creates an entry with this name.
pub fn entry(alloc: Global, name: &str, node: Node) -> Result<TreeItem, AllocError> {
    Ok(TreeItem::Entry(String::from_str(alloc, name)?, node))
}

/// Returns whether the item is an entry with this name.
fn is_named(item: &TreeItem, name: &str) -> bool {
    match item {
        TreeItem::Entry(other, _) => other.as_str() == name,
        _ => false,
    }
}

/// Adds an entry, unless there is one with its name.
fn add(alloc: Global, items: &mut Vec<TreeItem>, name: &str, node: Node) -> Result<(), AllocError> {
    if items.iter().any(|item| is_named(item, name)) {
        return Ok(());
    }
    items.push(entry(alloc, name, node)?)?;
    Ok(())
}

/// Adds the item of a word that neither begins nor ends a folder.
fn add_word(alloc: Global, items: &mut Vec<TreeItem>, word: &str) -> Result<(), AllocError> {
    if let Some(name) = word.strip_suffix('@') {
        return add(alloc, items, name, Node::Link);
    }
    if let Some(name) = word.strip_suffix('#') {
        return add(alloc, items, name, Node::Sealed);
    }
    match word {
        "!" => items.push(TreeItem::Failed)?,
        "?" => items.push(TreeItem::NotText)?,
        "''" => add(alloc, items, "", Node::File)?,
        _ => add(alloc, items, word, Node::File)?,
    }
    Ok(())
}

/// Builds the folder of a plan.
pub fn folder_of(alloc: Global, plan: &str) -> Result<Node, AllocError> {
    let mut items = Vec::new(alloc);
    let mut outer = Vec::new(alloc);
    for word in plan.split(' ') {
        if let Some(name) = word.strip_suffix('/') {
            outer.push((name, mem::replace(&mut items, Vec::new(alloc))))?;
        } else if word != ";" {
            add_word(alloc, &mut items, word)?;
        } else if let Some((name, before)) = outer.pop() {
            let folder = Node::Folder(mem::replace(&mut items, before));
            add(alloc, &mut items, name, folder)?;
        }
    }
    Ok(Node::Folder(items))
}

/// Builds the tree with this working folder, and the folder of a plan at its root.
///
/// # Errors
///
/// Returns an error if allocation fails, or if the working folder isn't that of a tree.
pub fn tree_with(alloc: Global, working: Node, root: &str) -> io::Result<Tree> {
    match Tree::new(alloc, working, folder_of(alloc, root)?) {
        Ok(tree) => Ok(tree),
        Err(_) => Err(io::Error::from(ErrorKind::InvalidData)),
    }
}

/// Builds the tree with the folders of two plans: its working folder and its root.
///
/// # Errors
///
/// Returns an error if allocation fails.
pub fn tree_of(alloc: Global, working: &str, root: &str) -> io::Result<Tree> {
    tree_with(alloc, folder_of(alloc, working)?, root)
}
