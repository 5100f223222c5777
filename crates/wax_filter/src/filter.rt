//! Filters: what is kept, what is excluded, and what of a walk is cancelled.

mod cancel;
mod hierarchy;
mod layers;
mod map_tree;
mod product;
mod separation;
mod tree_residue;

pub use cancel::{CancelWalk, SeparatingFilter, WalkCancellation};
pub use hierarchy::{FilterTreeBySubstituent, HierarchicalIterator};
pub use layers::{SeparatingFilterInput, filtrate};
pub use map_tree::FilterMapTree;
pub use product::{Filtrate, FiltrateKind, Product, Residue, ResidueKind};
pub use separation::{Feed, Isomeric, Separation};
pub use tree_residue::TreeResidue;
