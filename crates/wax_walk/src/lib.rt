//! Walks: the items that they will still yield, filters of them, and lists of what they yield.
#![tactic(auto)]

mod candidate;
mod entry;
mod error;
mod excluding;
mod filter_entry;
mod gather;
mod iterator;
mod named_paths;
mod selecting;
mod walked_path;

pub use candidate::Candidate;
pub use entry::{Entry, TreeEntry};
pub use error::{FaultKind, WalkError, WalkErrorKind};
pub use excluding::{Exclude, Excluding};
pub use filter_entry::FilterEntry;
pub use gather::{collect, collect_feed};
pub use iterator::{EntryResidue, FileIterator};
pub use named_paths::law_of_paths;
pub use selecting::{Select, Selecting, Selection};
pub use walked_path::WalkedPath;
