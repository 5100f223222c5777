//! Iterators that separate the items that are kept from those that are excluded.
#![tactic(auto)]

pub mod filter;
