//! The tokens of a glob, which contracts see as plain trees, and what such trees match and cost.
#![tactic(auto)]

pub mod token;
