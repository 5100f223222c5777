//! Folds of token trees, and walks through their tokens.
#![tactic(auto)]

mod combined;
pub mod walk;

pub use combined::any;
