//! Expressions that are parsed and checked by the rules, why one isn't a glob, and fixed sizes of tokens.
#![tactic(auto)]

mod error;
pub mod rule;

pub use error::{BuildError, ErrorLocation, law_of_pictures, parse_and_check, picture};
pub use rule::size::size;
