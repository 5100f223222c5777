//! Comparing globs, sets, ignore lists and programs by the texts that they select: finding a shortest text
//! that both select, or that only the first selects, or exactly one of them, or proving that there is none.
#![tactic(auto)]

mod alphabet;
mod automaton;
mod closure;
mod compared;
mod cuts;
mod distinctions;
mod finding;
mod law;
mod merged;
mod pairs;
mod search;
mod wanted;
mod witness;

pub use compared::{Compared, compare, difference, overlap};
pub use finding::{MOST_STATES, find_selected, find_text};
pub use law::law_of_plain_paths;
pub use wanted::{Comparison, Criterion, Selector, Texts, Wanted};
