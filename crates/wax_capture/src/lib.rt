//! What the tokens of a glob capture of a path that they match.
#![tactic(auto)]

mod build;
mod bytes;
mod choice;
mod leaves;
mod letters;
mod matching;
mod piece;
mod size;
mod split;
mod table;
mod tokens;
mod trial;
mod uncaptured;
mod ways;

pub use matching::Pieces;
