//! The place of a parse error.
ghost use Rattle.std.specs.Prelude.{◌≡◌, ℕ, Some, codes};

use super::ParseError;
use std::fmt::{self, Display, Formatter};
use std::marker::Model;
use wax_query::diagnostics::{LocatedError, Span};

/// The place where an expression can't be read. Contracts see its span.
#[derive(Clone, Copy, Debug)]
pub struct ErrorEntry {
    span: Span,
}

impl Model for ErrorEntry {
    ghost use Rattle.std.specs.Prelude.{ℕ};

    ghost Value = { ℕ × ℕ };

    ghost view = { λ e. e.span };

    ghost inverse = { λ s. record { span = s } };
}

impl ParseError {
    /// Returns the place of the error. There is only one.
    pub fn locations(&self) -> ErrorEntry
        ensures { result ≡ self.now }
    {
        ErrorEntry { span: self.place() }
    }
}

impl Display for ErrorEntry {
    ghost output = { λ _. Some (codes "unexpected expression") };

    fn fmt<W: fmt::Write>(&self, f: &mut Formatter<W>) -> fmt::Result {
        Display::fmt("unexpected expression", f)
    }
}

impl LocatedError for ErrorEntry {
    ghost span_of = { λ e. e };

    fn span(&self) -> Span {
        self.span
    }
}
