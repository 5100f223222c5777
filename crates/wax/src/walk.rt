//! Directories, walks through them, and filters of walks.

pub use crate::exclusions::{
    FileIteratorExt, FilterAnyExt, Ignore, Not, excluding_ignored, excluding_pattern, exclusion_of,
};
pub use crate::glob::{GlobWalk, UncapturedWalk};
pub use crate::ignoring::{IgnoreError, IgnoreList, TidyList};
pub use crate::walk_filter::WalkFilter;
pub use wax_directory::directory::{Directory, DirectoryFault, FileType, ListItem};
pub use wax_directory::failing::Failing;
pub use wax_directory::folders::Folders;
pub use wax_directory::history::History;
pub use wax_directory::starving::Starving;
pub use wax_directory::tally::Tally;
pub use wax_directory::tree::{DuplicateName, Node, Tree, TreeItem};
pub use wax_exclude::{
    DecidingLines, Exclusion, IdleLine, IdleReason, LeadingComponent, WrittenLine, collect,
    collect_feed, law_of_closures, law_of_feeds, law_of_idle_lines, law_of_ignoring,
    law_of_last_match, law_of_plain_walks, law_of_walks, law_of_wanted, written_lines,
};
pub use wax_set::SetWalk;
pub use wax_tree::{
    DepthBehavior, DepthMax, DepthMin, DepthMinMax, DepthRange, FilterAny, GlobEntry, GlobFeed,
    LinkBehavior, Matched, Matching, PathExt, TreeFeed, Uncaptured, WalkBehavior, WalkTree,
    entries,
};
pub use wax_walk::{
    Candidate, Entry, EntryResidue, Exclude, Excluding, FaultKind, FileIterator, FilterEntry,
    Select, Selecting, Selection, TreeEntry, WalkError, WalkErrorKind, WalkedPath,
};
