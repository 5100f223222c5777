//! Errors of calls, and the numbers that calls return.
ghost use Rattle.std.specs.Prelude.{◌≡◌};
ghost use Rattle.wax_c.specs.Numbers.{answer_number, error_number, status_number};

use wax::BuildError;

/// Why a call failed.
#[derive(Drop)]
pub enum CallError {
    /// The expression isn't built (1 to 9), or allocation failed (10).
    Build(BuildError),
    /// Bytes that should be text aren't UTF-8 (20).
    NotText,
    /// The output is too small (21).
    NoRoom,
}

/// Returns 1 or 0 for yes or no, and minus the number of an error.
pub(crate) fn number_of_bool(outcome: &Result<bool, CallError>) -> i32
    ensures { result ≡ answer_number outcome.now }
{
    match outcome {
        Ok(true) => 1,
        Ok(false) => 0,
        Err(error) => -number_of(error),
    }
}

/// Returns 0 for success, and minus the number of an error.
pub(crate) fn status_of(outcome: &Result<(), CallError>) -> i32
    ensures { result ≡ status_number outcome.now }
{
    match outcome {
        Ok(()) => 0,
        Err(error) => -number_of(error),
    }
}

/// Returns the number of an error.
pub(crate) fn number_of(error: &CallError) -> i32
    ensures { result ≡ error_number error.now }
{
    match error {
        CallError::Build(error) => i32::from(error.number()),
        CallError::NotText => 20,
        CallError::NoRoom => 21,
    }
}
