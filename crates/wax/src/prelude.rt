//! What most programs import.

pub use crate::diagnostics::LocatedError;
pub use crate::filter::HierarchicalIterator;
pub use crate::token::{LiteralExt, Partitioned, TokenExt};
pub use crate::walk::{Entry, FileIterator, FileIteratorExt, FilterAnyExt, IgnoreList, PathExt};
pub use crate::{CandidatePath, Glob, Program};
