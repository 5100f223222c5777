//! The place of an error.
ghost use Rattle.std.specs.Prelude.{◌≡◌, ℕ, Some};
ghost use Rattle.wax_rule.specs.Locations.{location_of};

use crate::error::build_error::BuildError;
use std::fmt::{self, Display, Formatter};
use std::marker::Model;
use wax_query::diagnostics::{LocatedError, Span};

/// A place of an error. It prints what is wrong there. Contracts see the bytes of that text, and
/// the span.
#[derive(Debug, Drop)]
pub struct ErrorLocation {
    text: &'static str,
    span: Span,
}

impl Model for ErrorLocation {
    ghost use Rattle.wax_query.specs.Labels.{Label};

    ghost Value = { Label };

    ghost view = { λ l. (l.text.now, l.span) };
}

impl BuildError {
    /// Returns the place of an error 1 to 8: where the expression can't be parsed, or the first
    /// label of the rule that it breaks. Returns `None` for the errors 9 and 10.
    pub fn locations(&self) -> Option<ErrorLocation>
        ensures { result ≡ location_of self.now }
    {
        match self {
            BuildError::Parse(error) => Some(ErrorLocation {
                text: "unexpected expression",
                span: error.locations().span(),
            }),
            BuildError::Rule(error) => {
                let place = &error.locations()[0];
                Some(ErrorLocation {
                    text: place.label(),
                    span: place.span(),
                })
            }
            BuildError::Compile(_) => None,
            BuildError::Memory => None,
        }
    }
}

impl Display for ErrorLocation {
    ghost output = { λ l. Some l.0 };

    fn fmt<W: fmt::Write>(&self, f: &mut Formatter<W>) -> fmt::Result {
        Display::fmt(self.text, f)
    }
}

impl LocatedError for ErrorLocation {
    ghost span_of = { λ l. l.1 };

    fn span(&self) -> Span {
        self.span
    }
}
