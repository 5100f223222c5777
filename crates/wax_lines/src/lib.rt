//! Filters of lines, from any reader to any writer: by what a program matches or captures, or by any
//! writer of lines.
#![tactic(auto)]

mod counted;
mod lines;
mod once;
mod writing;

pub use counted::Counted;
pub use lines::{LineWriter, LinesError, capture_lines, filter_lines, filter_lines_by};
pub use once::{ReadOnce, WriteOnce};
pub use writing::{push_line, write_whole};
