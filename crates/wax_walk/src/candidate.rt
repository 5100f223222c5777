//! Candidates: what rules see of entries.

/// What a rule sees of an entry: its candidate, and its depth.
#[derive(Clone, Copy, Debug, Eq, PartialEq)]
pub struct Candidate<'a> {
    /// The names that lead from the start of the walk to the entry, with `/` between. It is empty
    /// for the start, except if the walk begins at the root: candidates begin with `/` then.
    pub path: &'a str,
    /// The number of these names; 0 for the start.
    pub depth: usize,
}
