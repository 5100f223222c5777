//! Folds of token trees, and walks through them.

pub use wax_fold::walk::{
    BranchFold, Child, ChildToken, Depth, Ending, Fold, FoldMap, Forward, Parent, ParentToken,
    Position, Sequencer, Starting, TokenEntry, Walk, WalkEntry, ending, forward, starting,
    with_sequence,
};
