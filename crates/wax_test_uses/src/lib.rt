//! Callers of `wax` to learn from: each has a contract that follows from those of the calls.
#![tactic(auto)]

mod collisions;
mod components;
mod hashes;
mod ignored;
mod names;
mod own_directory;
mod own_walk;
mod sets;
mod skipping;
mod sources;
mod walks;

pub use collisions::never_collide;
pub use components::glob_of_component;
pub use hashes::{items_hash_alike, residues_hash_alike};
pub use ignored::is_ignored_by;
pub use names::{expression_matches, is_picture};
pub use own_directory::EmptyDirectory;
pub use own_walk::{NameAtDepth, NameFeed, NameWalk};
pub use sets::collect_matches;
pub use skipping::means_none_below;
pub use sources::list_sources;
pub use walks::{NotKept, collect_glob_excluding};
