//! Globs: path expressions that are read, checked, compiled and matched, and walks through directories.
//!
//! ```
//! use wax::prelude::*;
//! use wax::{Counted, any, escape, filter_lines};
//!
//! // A set matches what one of its patterns matches.
//! let pictures = any(alloc, vec![in alloc; "**/*.png", "**/*.{jpg,jpeg}"]?)?;
//! println!(rt; "{}", pictures.is_match(alloc, &CandidatePath::from("a/logo.jpeg"))?)?; // true
//!
//! // An escaped text is an expression that matches only this text. A backslash can't be escaped.
//! let escaped = escape(alloc, "a*.rs")?;
//! let glob = Glob::new(alloc, escaped.as_str())?;
//! println!(rt; "{}", glob.is_match(alloc, &CandidatePath::from("ab.rs"))?)?; // false
//!
//! // The lines that a glob matches, from any reader to any writer.
//! let glob = Glob::new(alloc, "**/*.rs")?;
//! let mut input = Counted::new("src/main.rs\nREADME.md\n".as_bytes());
//! let mut output = Counted::new(rt.stdout());
//! let not_text = filter_lines(alloc, &mut input, &mut output, &glob)?; // prints src/main.rs
//! println!(rt; "{not_text}")?; // 0
//! ```
#![tactic(auto)]

pub mod capture;
pub mod diagnostics;
pub mod encode;
mod exclusions;
pub mod filter;
mod glob;
mod glob_error;
mod ignoring;
pub mod prelude;
pub mod query;
pub mod rule;
pub mod token;
mod unignored;
pub mod walk;
mod walk_filter;

pub use glob::{Glob, GlobMatcher, OwnedGlobMatcher};
pub use glob_error::GlobError;
pub use unignored::filter_unignored;
pub use wax_compare::{
    Compared, Comparison, Criterion, MOST_STATES, Selector, Texts, compare, difference,
    law_of_plain_paths, overlap,
};
pub use wax_lines::{Counted, LinesError, capture_lines, filter_lines};
pub use wax_parse::{escape, is_contextual_meta_character, is_meta_character};
pub use wax_query::diagnostics::{NoMemory, Refusal};
pub use wax_query::matching::{
    BuildMatcher, CandidatePath, MatchedText, PathMatcher, Program, ProgramMatcher,
};
pub use wax_rule::{BuildError, ErrorLocation};
pub use wax_set::{Any, AnyMatcher, Conflict, OwnedAnyMatcher, Pattern, any};
