//! The laws of directories whose cursors may be used and dropped in any order.
ghost use Rattle.wax_directory.specs.{Independent.{AreIndependent, NextLeavesOthers}, Trees.tree_law};

use crate::directory::Directory;

/// States that the open cursors of a `Tree` are independent: they may be used and dropped in any
/// order.
pub fn law_of_tree_cursors()
    ensures { AreIndependent tree_law }
{}

/// States that if the cursors of a directory are independent, `next` of one leaves all others as
/// they are. `kind`, `open` and `list` do so by their contracts.
pub fn law_of_independent_cursors<D: Directory>(directory: &D)
    ensures { AreIndependent D.law → NextLeavesOthers D.law }
{
    let _directory = directory;
}
