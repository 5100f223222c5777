//! Directories: what is at a path, and what is in a folder, name by name.
#![tactic(auto)]

mod copies;
pub mod directory;
pub mod failing;
pub mod folders;
pub mod history;
pub mod independent;
mod names;
pub mod path;
mod paths;
pub mod starving;
pub mod tally;
pub mod tree;
mod turn;
