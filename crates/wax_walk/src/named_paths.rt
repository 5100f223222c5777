//! The law of the paths of entries.
ghost use Rattle.wax_walk.specs.NamedPaths.{PathsAreJoined};

/// States that the candidate of an entry is its names from the start, joined by `/`, and that its
/// path is the start, a `/` if one is needed, and the candidate.
pub fn law_of_paths()
    ensures { PathsAreJoined }
{}
