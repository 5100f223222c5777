//! Matching many texts against one program by a lazy DFA: the places that it reaches are kept as
//! states, with the next state for each ASCII character.
#![tactic(auto)]

mod cache;
mod dfa;
mod ends;
mod following;
mod matcher;
mod numbers;
mod once;
mod rows;

pub use dfa::LazyDfa;
pub use matcher::{HasProgram, Matcher};
pub use once::{last_number, last_number_metered, list_numbers, list_numbers_metered};
