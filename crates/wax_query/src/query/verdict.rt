//! What is known of the path of a folder.

/// What is known of the path of a folder.
#[derive(Clone, Copy, Debug, PartialEq, Eq)]
pub struct Verdict {
    /// True if the path matches.
    pub is_match: bool,
    /// True if something below the folder with this path can match.
    pub goes_on: bool,
}
