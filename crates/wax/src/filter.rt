//! Iterators that separate the items that are kept from those that are excluded.

pub use wax_filter::filter::{
    CancelWalk, Feed, FilterMapTree, FilterTreeBySubstituent, Filtrate, FiltrateKind,
    HierarchicalIterator, Isomeric, Product, Residue, ResidueKind, SeparatingFilter,
    SeparatingFilterInput, Separation, TreeResidue, WalkCancellation, filtrate,
};
