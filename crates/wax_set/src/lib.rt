//! Sets of patterns: `any` builds one from expressions, globs, sets and tokens that were checked.
#![tactic(auto)]

mod pattern;
mod set;

pub use pattern::{Pattern, any};
pub use set::{Any, AnyMatcher, Conflict, OwnedAnyMatcher, SetWalk};
