//! The rules that an expression has to keep.

pub use wax_rule::rule::{Checked, RuleError, RuleErrorKind, Ruled, RuledTree, check};
