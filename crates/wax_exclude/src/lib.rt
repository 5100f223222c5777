//! What walks exclude and what they keep: patterns, ignore lists, and the law of a glob's walk.
#![tactic(auto)]

mod along;
mod component;
mod deciding;
mod exclusions;
mod fitting;
mod folders;
mod idle;
mod laws;
mod lines;
mod numbers;
mod prefixes;
mod rules;
mod split;
mod tidy;
mod wanted;

pub use along::{walk_along, within};
pub use component::{LeadingComponent, leading};
pub use deciding::DecidingLines;
pub use exclusions::{Exclusion, is_everything};
pub use idle::{IdleLine, IdleReason};
pub use laws::{
    law_of_cancelling, law_of_closures, law_of_feeds, law_of_idle_lines, law_of_ignoring,
    law_of_last_match, law_of_plain_walks, law_of_rooted_leading, law_of_walks, law_of_wanted,
};
pub use lines::{WrittenLine, written_lines};
pub use prefixes::{PrefixNames, common_prefix_of, prefix_names_of};
pub use rules::{IgnoreLine, IgnoreRule};
pub use tidy::TidyLines;
pub use wanted::{collect, collect_excluding, collect_feed};
