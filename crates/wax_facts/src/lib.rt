//! Facts about all paths that a token matches: root, exhaustiveness, the only text, the prefix, and
//! the rest after it.
#![tactic(auto)]

mod alternatives;
mod exhaustive;
mod invariant;
mod laws;
mod longest;
mod opened;
mod optional;
mod parts;
mod prefix;
mod rest;
mod root;
mod rules;

pub use alternatives::{Alternative, into_alternatives, list_alternatives};
pub use exhaustive::is_exhaustive;
pub use invariant::{has_variant_casing, text};
pub use laws::{law_of_copies, law_of_sizes, law_of_tables};
pub use longest::law_of_prefixes;
pub use parts::{built_is_orderly, is_rooted_tree, partition, split_tokens};
pub use prefix::invariant_text_prefix;
pub use root::has_root;
pub use rules::{Break, Row, RuleErrorKind, Side, Sort, Terminal};
