//! Copies of nodes.

ghost use Rattle.std.specs.Prelude.{IfOk};
ghost use Rattle.wax_directory.specs.Copies.{IsCopy};

use crate::tree::{Node, TreeItem};
use std::alloc::{AllocError, Global};
use wax_query::diagnostics::NoMemory;

impl Node {
    /// Copies the node with everything below it, names in the same order. It takes time and memory
    /// in proportion to the number of items, and stack for each level.
    pub fn try_clone(&self, alloc: Global) -> Result<Node, NoMemory>
        ensures { IfOk result (λ copy. IsCopy self.now copy) }
    {
        Ok(self.copied(alloc)?)
    }

    fn copied(&self, alloc: Global) -> Result<Node, AllocError>
        ensures { IfOk result (λ copy. IsCopy self.now copy) }
    {
        let items = match self {
            Node::File => return Ok(Node::File),
            Node::Link => return Ok(Node::Link),
            Node::Sealed => return Ok(Node::Sealed),
            Node::Folder(items) => items,
        };
        let mut copies = Vec::new(alloc);
        for item in items {
            let copy = match item {
                TreeItem::Entry(name, node) => {
                    let name = String::from_str(alloc, name.as_str())?;
                    TreeItem::Entry(name, node.copied(alloc)?)
                }
                TreeItem::Failed => TreeItem::Failed,
                TreeItem::NotText => TreeItem::NotText,
            };
            copies.push(copy)?;
        }
        Ok(Node::Folder(copies))
    }
}
