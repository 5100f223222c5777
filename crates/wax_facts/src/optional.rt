//! Facts about repetitions that may have no copies.
ghost use Rattle.std.specs.Prelude.{◌≡◌};
ghost use Rattle.wax_facts.specs.Optional.{optional};

use wax_query::query::When;

/// Returns the value for `lower` or more copies of a body with the value `answer`: at most
/// `Sometimes` if there may be none.
pub fn optional(lower: usize, answer: When) -> When
    ensures { result ≡ optional lower answer }
{
    if lower == 0 {
        return answer.and(When::Sometimes);
    }
    answer
}
