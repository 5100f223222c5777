//! The components and literals of globs, the depths of their matches, their capturing tokens, and
//! warnings.
#![tactic(auto)]

mod capturing;
mod depth_of;
mod interval;
mod kinds;
mod levels;
mod parts;
mod profile;
mod profiles;
mod warnings;

pub use capturing::{capture_count, captures};
pub use depth_of::depth;
pub use levels::{has_semantic_literals, literals};
pub use parts::{Component, LiteralSequence, components};
pub use warnings::{SemanticLiteralWarning, TerminatingSeparatorWarning, Warning, diagnose};
