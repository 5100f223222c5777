//! The parser of expressions, and the escaping of texts.
#![tactic(auto)]

mod meta;
pub mod parse;

pub use meta::{escape, is_contextual_meta_character, is_meta_character};
