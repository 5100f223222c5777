//! Globs for C: functions with the C calling convention over `wax`.
#![tactic(auto)]

mod calls;
mod captures;
mod compared;
mod comparing;
mod error;
mod facts;
mod globs;
mod handle;
mod lines;
mod list_handle;
mod lists;
mod loose;
mod matching;
mod not_text;
mod output;
mod parts;
mod session;
mod set_facts;
mod set_handle;
mod sets;
mod spans;
mod texts;
mod warnings;

pub use captures::wax_glob_captures;
pub use compared::{
    wax_glob_compare, wax_glob_difference, wax_glob_overlap, wax_ignore_compare,
    wax_ignore_difference, wax_ignore_overlap, wax_set_compare, wax_set_difference,
    wax_set_overlap,
};
pub use comparing::{Finding, wax_compare, wax_difference, wax_overlap};
pub use error::CallError;
pub use facts::{WaxFacts, wax_glob_expression, wax_glob_facts, wax_glob_text};
pub use globs::{
    WaxSpan, wax_glob_filter, wax_glob_free, wax_glob_goes_on, wax_glob_is_match, wax_glob_new,
};
pub use handle::{GlobHandle, HeldGlob};
pub use lines::{
    wax_ignore_deciding_line, wax_ignore_idle_lines, wax_ignore_tidy, wax_ignore_undecided_lines,
};
pub use list_handle::ListHandle;
pub use lists::{
    wax_ignore_excludes_below, wax_ignore_filter, wax_ignore_free, wax_ignore_is_ignored,
    wax_ignore_new,
};
pub use matching::{wax_filter, wax_is_match};
pub use not_text::wax_count_not_text;
pub use parts::wax_glob_partition;
pub use set_facts::{wax_set_facts, wax_set_text};
pub use set_handle::{HeldSet, SetHandle};
pub use sets::{wax_set_free, wax_set_goes_on, wax_set_is_match, wax_set_matches, wax_set_new};
pub use spans::{wax_glob_capturing, wax_glob_spans};
pub use texts::{wax_escape, wax_picture};
pub use warnings::{WaxWarning, wax_glob_has_semantic_literals, wax_glob_warnings};
