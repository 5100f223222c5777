//! Splitting a glob into its prefix and the rest, which is an expression of its own; and the methods
//! of a token, which are functions of several crates.
#![tactic(auto)]

mod flat;
mod in_two;
mod kept;
mod parts;
mod shift;
mod token_ext;

pub use in_two::Partitioned;
pub use parts::partition;
pub use token_ext::{LiteralExt, TokenExt};
