//! A quick test before a match: facts about all texts that tokens match, by which most others are
//! rejected.
#![tactic(auto)]

mod any_case;
mod compiled;
mod facts;
mod folder;
mod least;
mod line_end;
mod literals;
mod needle;
mod neighbors;
mod pair;
mod prefilter;

pub use compiled::CompiledTokens;
pub use folder::{folder_of, is_within};
pub use literals::Literals;
pub use prefilter::Prefilter;
