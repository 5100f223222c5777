//! Errors of globs and their walks.

use thiserror::Error;
use wax_rule::BuildError;
use wax_walk::WalkError;

/// An error of a build, or of a walk: for callers that propagate both with `?`.
#[derive(Debug, Drop, Error)]
pub enum GlobError {
    /// The glob wasn't built (1 to 10).
    #[error("{0}")]
    Build(BuildError),
    /// An item of the walk is an error (11 to 17).
    #[error("{0}")]
    Walk(WalkError),
}

impl From<BuildError> for GlobError {
    ghost use Rattle.std.specs.Prelude.{◌≡◌};
    ghost use Rattle.wax.specs.declared.glob_error.GlobError.TheVariants.{Build};

    ghost from_gives = { λ refusal error. error ≡ Build refusal };

    fn from(refusal: BuildError) -> Self {
        GlobError::Build(refusal)
    }
}

impl From<WalkError> for GlobError {
    ghost use Rattle.std.specs.Prelude.{◌≡◌};
    ghost use Rattle.wax.specs.declared.glob_error.GlobError.TheVariants.{Walk};

    ghost from_gives = { λ fault error. error ≡ Walk fault };

    fn from(fault: WalkError) -> Self {
        GlobError::Walk(fault)
    }
}
