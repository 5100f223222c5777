//! The command line of `globs`: what its arguments ask for, and the candidates of a walk as lines.
#![tactic(auto)]

mod arguments;
mod candidates;
mod walk_words;

pub use arguments::words;
pub use candidates::write_wanted;
pub use walk_words::{WalkArguments, WalkOption, next_option, read_walk};
