//! Texts that may be paths, programs that match them, and what a match captures.
mod candidate;
mod matched;
mod matcher;
mod program;

pub use candidate::CandidatePath;
pub use matched::MatchedText;
pub use matcher::{BuildMatcher, PathMatcher, ProgramMatcher};
pub use program::Program;
