//! What tests share: rows of data files with their answers, pseudorandom numbers, trees in memory
//! from short texts, and readers and writers that fail.
#![tactic(auto)]

pub mod answer;
pub mod draws;
pub mod plans;
pub mod rows;
pub mod streams;
