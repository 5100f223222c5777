//! Sets of small numbers, called places, with one bit for each.
mod set;
mod word;

pub use set::Set;
pub use word::Word;
