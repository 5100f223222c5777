//! Walks through a directory, entry by entry: the plain walk, and those of globs.
#![tactic(auto)]

mod along;
mod behavior;
mod glob_walk;
mod location;
mod path_ext;
mod plain;
mod steps;
mod walk_tree;

pub use along::law_of_names;
pub use behavior::{DepthBehavior, DepthMax, DepthMin, DepthMinMax, LinkBehavior, WalkBehavior};
pub use glob_walk::{
    FilterAny, GlobEntry, GlobFeed, GlobWalk, Matched, Matching, NameTest, Uncaptured,
    uncaptured_of, walk_of,
};
pub use path_ext::PathExt;
pub use plain::entries;
pub use steps::DepthRange;
pub use walk_tree::{TreeFeed, WalkTree};
