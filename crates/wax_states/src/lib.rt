//! The states that texts lead to in a program: steps from one to the next by a character, and a
//! table that says which state each character leads to.
#![tactic(auto)]

mod index;
mod letters;
mod listed;
mod listed_sets;
mod stepper;
mod table;

pub use index::{HasPlaces, Index};
pub use letters::Letters;
pub use stepper::Stepper;
pub use table::{ALL, DEAD, FIRST, Next, State, StateId, Table, WideCell, cell_of, next_of};
