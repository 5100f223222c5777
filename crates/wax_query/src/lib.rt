//! Types that every crate of the globs uses: places in an expression, the errors of a build, and
//! the results of static queries.
#![tactic(auto)]

pub mod diagnostics;
pub mod matching;
pub mod query;
