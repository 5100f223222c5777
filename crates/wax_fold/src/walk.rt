//! Folds of token trees, and walks through their tokens.

mod branch;
mod entry;
mod folder;
mod folding;
mod iterator;
mod mapper;
mod mapping;
mod sequence;
mod sequencers;

pub use branch::BranchFold;
pub use entry::{Depth, Position, TokenEntry, WalkEntry};
pub use folder::Fold;
pub use folding::fold;
pub use iterator::{Walk, ending, forward, starting, with_sequence};
pub use mapper::FoldMap;
pub use mapping::fold_map;
pub use sequence::{Child, ChildToken, Parent, ParentToken, Sequencer};
pub use sequencers::{Ending, Forward, Starting};
